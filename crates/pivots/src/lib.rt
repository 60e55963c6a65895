// A step of the elimination: a pivot row scaled and brought up, and its column cleared in the rows below; for inner use: what it is given is within limits already.

#![tactic(auto)]

ghost use Rattle.std.specs.Prelude.{◌≢◌, ◌≡◌, ◌+◌, ◌*◌, ◌/◌, ◌≤◌, ◌<◌, length, take};
ghost use Rattle.alphabet.specs.Codes.{code_on};
ghost use Rattle.algebra.specs.Grid.{entry_of};
ghost use Rattle.definitions.specs.Limits.{greatest_limit};
ghost use Rattle.pivots.specs.System.{System, Within, ExchangedIn, rows_of, factors_of, column_of, ListedRows, TargetRows, Factors, DoneIn, LoweredIn, Eliminated};
ghost use Rattle.linear.specs.Rows.{Triangle};
ghost use Rattle.blocks.specs.Row.{width, block, InRow};

use alphabet::Alphabet;
use blocks::{BLOCK, WIDTH};
use refusals::limits::GREATEST_LIMIT;

// A row that loses a multiple of the pivot row, and the factor of that multiple.
#[derive(Clone, Copy)]
struct Target {
    row: u8,
    factor: u8,
}

// Row r, scaled by u, changes places with row j, in the block of columns from `at` on.
fn exchange_block(
    alphabet: Alphabet,
    system: &mut [[u8; WIDTH]],
    at: usize,
    r: usize,
    j: usize,
    u: u8,
)
    requires system { System (code_on alphabet) system.old }
    requires in_row { InRow at × (r < length system.old) × (j < length system.old) × (u < (code_on alphabet).symbols) }
    ensures { ExchangedIn (code_on alphabet) at (at + block) r j u system.old system.new }
{
    let part = blocks::block(&system[r], at);
    let other = blocks::block(&system[j], at);
    let first = blocks::scaled(alphabet, &part, u);
    blocks::put(&mut system[r], at, &other);
    blocks::put(&mut system[j], at, &first);
}

// The same in each block from that of column j on.
fn exchange(
    alphabet: Alphabet,
    system: &mut [[u8; WIDTH]],
    r: usize,
    j: usize,
    u: u8,
    blocks: usize,
)
    requires system { System (code_on alphabet) system.old }
    requires r_in_bounds { (r < length system.old) × (j < length system.old) × (u < (code_on alphabet).symbols) }
    requires j_bound { (j < blocks * block) × (blocks * block ≤ width) }
    ensures { ExchangedIn (code_on alphabet) (j / block * block) (blocks * block) r j u system.old system.new }
{
    for p in j / BLOCK..blocks {
        exchange_block(alphabet, system, p * BLOCK, r, j, u);
    }
}

// The rows below row j whose entry in column j is not zero, each with that entry as its factor; answers how many.
fn factors(
    system: &[[u8; WIDTH]],
    j: usize,
    rows: usize,
    targets: &mut [Target; GREATEST_LIMIT],
) -> usize
    requires { (j < rows) × (rows ≤ length system.now) × (rows ≤ greatest_limit) }
    ensures { let listed = take result targets.new in (result ≤ rows) × ListedRows rows j (length listed) system.now (rows_of listed) (factors_of listed) }
{
    let mut n = 0;
    for t in j + 1..rows {
        let factor = system[t][j];
        targets[n] = Target {
            row: t as u8,
            factor,
        };
        n += usize::from(factor != 0);
    }
    n
}

// Takes, in the block of columns from `at` on, as much of row j from each target as its factor says. There are as many multiples as symbols: an array of more would be slower.
fn clear_block_of<const SYMBOLS: usize>(
    alphabet: Alphabet,
    system: &mut [[u8; WIDTH]],
    at: usize,
    j: usize,
    targets: &[Target],
)
    requires all { SYMBOLS ≡ (code_on alphabet).symbols }
    requires system { System (code_on alphabet) system.old }
    requires in_row { InRow at × (j < length system.old) }
    requires target_rows { TargetRows (length system.old) j (length targets.now) (rows_of targets.now) × Factors (code_on alphabet) (length targets.now) (factors_of targets.now) }
    ensures { DoneIn (code_on alphabet) at (at + block) j (length targets.now) (rows_of targets.now) (factors_of targets.now) system.old system.new }
{
    let first = blocks::block(&system[j], at);
    let times = blocks::multiples::<SYMBOLS>(alphabet, &first);
    for target in targets {
        let t = usize::from(target.row);
        let x = usize::from(target.factor);
        blocks::add(&mut system[t], at, &times[x]);
    }
}

// The same, with the multiples of the alphabet's symbols.
fn clear_block(
    alphabet: Alphabet,
    system: &mut [[u8; WIDTH]],
    at: usize,
    j: usize,
    targets: &[Target],
)
    requires system { System (code_on alphabet) system.old }
    requires in_row { InRow at × (j < length system.old) }
    requires target_rows { TargetRows (length system.old) j (length targets.now) (rows_of targets.now) × Factors (code_on alphabet) (length targets.now) (factors_of targets.now) }
    ensures { DoneIn (code_on alphabet) at (at + block) j (length targets.now) (rows_of targets.now) (factors_of targets.now) system.old system.new }
{
    match alphabet {
        Alphabet::Sixteen => clear_block_of::<16>(alphabet, system, at, j, targets),
        Alphabet::ThirtyTwo => clear_block_of::<32>(alphabet, system, at, j, targets),
    }
}

// Clears column j in the rows below row j, in each block from that of column j on.
fn clear(alphabet: Alphabet, system: &mut [[u8; WIDTH]], j: usize, rows: usize, blocks: usize)
    requires system { System (code_on alphabet) system.old }
    requires within { Within rows blocks system.old }
    requires j_lt_rows { j < rows }
    ensures { LoweredIn (code_on alphabet) (j / block * block) (blocks * block) rows j (column_of system.old j) system.old system.new }
{
    let mut targets = [Target { row: 0, factor: 0 }; GREATEST_LIMIT];
    let n = factors(system, j, rows, &mut targets);
    for next in j / BLOCK..blocks {
        clear_block(alphabet, system, next * BLOCK, j, &targets[..n]);
    }
}

// Row r, scaled to 1 in column j, changes places with row j, and column j is cleared in the rows below.
pub fn pivot(
    alphabet: Alphabet,
    system: &mut [[u8; WIDTH]],
    r: usize,
    j: usize,
    rows: usize,
    blocks: usize,
)
    requires system { System (code_on alphabet) system.old }
    requires within { Within rows blocks system.old }
    requires j_le_r { (j ≤ r) × (r < rows) }
    requires triangle { Triangle rows j system.old }
    requires j_nonzero { entry_of system.old r j ≢ 0 }
    ensures { Eliminated (code_on alphabet) rows (blocks * block) (j + 1) system.old system.new }
{
    let Ok(u) = field::inverse(alphabet, system[r][j]) else {
        return;
    };
    exchange(alphabet, system, r, j, u, blocks);
    clear(alphabet, system, j, rows, blocks);
}
