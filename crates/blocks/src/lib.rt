// Functions on a block of a row, for inner use: what they are given is within limits already.

#![tactic(auto)]

ghost use Rattle.std.specs.Prelude.{◌≡◌, ◌*◌, ◌≤◌, ◌<◌, length};
ghost use Rattle.alphabet.specs.Codes.{code_on};
ghost use Rattle.definitions.specs.Field.{sum_of};
ghost use Rattle.blocks.specs.Row.{width, InRow, SymbolBlock, BlockOf, PutBlock, AddedBlock, SummedBlock, ScaledBlock, FilledTo, MultiplesBlock};

use alphabet::Alphabet;
use refusals::limits::GREATEST_LIMIT;
use std::array;

// The columns that are worked on at a time.
pub const BLOCK: usize = 16;

// The entries of a row: as many blocks as the greatest cost needs.
pub const WIDTH: usize = (GREATEST_LIMIT / BLOCK + 1) * BLOCK;

// The block of a row from a place on.
pub fn block(row: &[u8; WIDTH], at: usize) -> [u8; BLOCK]
    requires { InRow at }
    ensures { BlockOf at row.now result }
{
    array::from_fn(|i| row[at + i])
}

// A block, put into a row from a place on; by a loop, since `copy_from_slice` would first look whether the two overlap.
pub fn put(row: &mut [u8; WIDTH], at: usize, part: &[u8; BLOCK])
    requires { InRow at × (length row.old ≡ width) }
    ensures { PutBlock at part.now row.old row.new }
{
    for i in 0..BLOCK {
        row[at + i] = part[i];
    }
}

// A block, added to a row from a place on.
pub fn add(row: &mut [u8; WIDTH], at: usize, part: &[u8; BLOCK])
    requires { InRow at × (length row.old ≡ width) }
    ensures { AddedBlock sum_of at part.now row.old row.new }
{
    for i in 0..BLOCK {
        row[at + i] ^= part[i];
    }
}

fn summed(a: &[u8; BLOCK], b: &[u8; BLOCK]) -> [u8; BLOCK]
    ensures { SummedBlock sum_of a.now b.now result }
{
    array::from_fn(|i| a[i] ^ b[i])
}

// u times a block.
pub fn scaled(alphabet: Alphabet, a: &[u8; BLOCK], u: u8) -> [u8; BLOCK]
    requires { (u < (code_on alphabet).symbols) × SymbolBlock (code_on alphabet) a.now }
    ensures { ScaledBlock (code_on alphabet) u a.now result }
{
    array::from_fn(|i| tables::look(alphabet, u, a[i]))
}

// Alpha times a symbol: each bit one place up, and a bit that leaves is replaced by the modulus.
fn twice(alphabet: Alphabet, x: u8) -> u8
    requires { x < (code_on alphabet).symbols }
    ensures { result ≡ (code_on alphabet).times 2 x }
{
    let double = x * 2;
    if double <= alphabet.greatest_symbol() {
        return double;
    }
    double ^ alphabet.modulus()
}

fn doubled(alphabet: Alphabet, a: &[u8; BLOCK]) -> [u8; BLOCK]
    requires { SymbolBlock (code_on alphabet) a.now }
    ensures { ScaledBlock (code_on alphabet) 2 a.now result }
{
    array::from_fn(|i| twice(alphabet, a[i]))
}

// The multiples from h on: those below h, each with the multiple h added.
fn fill(times: &mut [[u8; BLOCK]], high: &[u8; BLOCK], h: usize)
    requires { 2 * h ≤ length times.old }
    ensures { FilledTo sum_of h h high.now times.old times.new }
{
    for c in 0..h {
        times[h + c] = summed(&times[c], high);
    }
}

// Block c is c times the block: with each power of two those that are there become twice as many.
pub fn multiples<const SYMBOLS: usize>(
    alphabet: Alphabet,
    a: &[u8; BLOCK],
) -> [[u8; BLOCK]; SYMBOLS]
    requires all { SYMBOLS ≡ (code_on alphabet).symbols }
    requires symbols { SymbolBlock (code_on alphabet) a.now }
    ensures { MultiplesBlock (code_on alphabet) (code_on alphabet).symbols a.now result }
{
    let mut times = [[0u8; BLOCK]; SYMBOLS];
    let mut high = *a;
    let mut h = 1;
    // The step is a doubling, so no `for` fits.
    while h < SYMBOLS {
        fill(&mut times, &high, h);
        high = doubled(alphabet, &high);
        h *= 2;
    }
    times
}
