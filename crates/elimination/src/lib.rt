// Elimination over the monomials in order, for inner use: what it is given is within limits already.

#![tactic(auto)]

ghost use Rattle.std.specs.Prelude.{◌≡◌, ℕ, ◌*◌, ◌≤◌, ◌<◌, length, get_or};
ghost use Rattle.alphabet.specs.Codes.{code_on};
ghost use Rattle.definitions.specs.Code.{Symbols};
ghost use Rattle.definitions.specs.Field.{numbers};
ghost use Rattle.pivots.specs.System.{System, Within, Eliminated};
ghost use Rattle.elimination.specs.Solving.{SymbolsBetween};
ghost use Rattle.linear.specs.Rows.{SymbolRows, Reduced, Solved, behind};
ghost use Rattle.blocks.specs.Row.{width, block};

use alphabet::Alphabet;
use blocks::WIDTH;

// Reduces the rows to a triangle until a column depends on those before it, and answers that column: document 01 names nested
// loops that are left by a label, the column yielded by the break.
pub fn first_dependent(
    alphabet: Alphabet,
    system: &mut [[u8; WIDTH]],
    rows: usize,
    blocks: usize,
) -> usize
    requires system { System (code_on alphabet) system.old }
    requires within { Within rows blocks system.old }
    ensures upper_bound { result ≤ rows }
    ensures eliminated { Eliminated (code_on alphabet) rows (blocks * block) result system.old system.new }
    ensures reduced { Reduced rows result system.new }
{
    let mut j = 0;
    let dependent = 'search: loop {
        let mut r = j;
        'down: loop {
            if r == rows {
                break 'search j;
            }
            if system[r][j] != 0 {
                break 'down;
            }
            r += 1;
        }
        pivots::pivot(alphabet, system, r, j, rows, blocks);
        j += 1;
    };
    dependent
}

// Entry s of what solves the triangle: of the entries behind it, which are found already.
fn back(alphabet: Alphabet, row: &[u8; WIDTH], s: usize, j: usize, out: &[u8]) -> u8
    requires s_lt_j { (s < j) × (j < width) × (j ≤ length out.now) }
    requires symbols { Symbols (code_on alphabet) row.now }
    requires symbols_between { SymbolsBetween (code_on alphabet) s j out.now }
    ensures { result ≡ behind (numbers (code_on alphabet)) (get_or row.now j 0) s j (λ (k : ℕ). get_or row.now k 0) (λ (k : ℕ). get_or out.now k 0) }
{
    let mut y = row[j];
    for i in s + 1..j {
        y ^= tables::look(alphabet, row[i], out[i]);
    }
    y
}

// The first j coefficients, from the last to the first.
fn solve_by(alphabet: Alphabet, system: &[[u8; WIDTH]], j: usize, out: &mut [u8])
    requires symbol_rows { SymbolRows (code_on alphabet) system.now }
    requires j_lt_width { (j < width) × (j ≤ length system.now) × (j ≤ length out.old) }
    ensures { Solved (code_on alphabet) j 0 system.now out.old out.new }
{
    for s in (0..j).rev() {
        out[s] = back(alphabet, &system[s], s, j, out);
    }
}

// Each alphabet passes its own constant on.
pub fn solve(alphabet: Alphabet, system: &[[u8; WIDTH]], j: usize, out: &mut [u8])
    requires symbol_rows { SymbolRows (code_on alphabet) system.now }
    requires j_lt_width { (j < width) × (j ≤ length system.now) × (j ≤ length out.old) }
    ensures { Solved (code_on alphabet) j 0 system.now out.old out.new }
{
    if let Alphabet::ThirtyTwo = alphabet {
        solve_by(Alphabet::ThirtyTwo, system, j, out);
    } else {
        solve_by(Alphabet::Sixteen, system, j, out);
    }
}
