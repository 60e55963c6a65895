// A multiplicity matrix: the record that holds its cost and the total of each column, and the columns that the list call opens it into.

#![tactic(auto)]

ghost use Rattle.std.specs.Prelude.{◌≡◌, ◌+◌, ◌*◌, ◌≤◌, ◌<◌, length, drop};
ghost use Rattle.alphabet.specs.Codes.{code_on, most_places};
ghost use Rattle.definitions.specs.Held.{held, places, totals_of, totals_right, rightly};
ghost use Rattle.definitions.specs.Polynomial.{is_zero};
ghost use Rattle.definitions.specs.Weights.{sum_of_column, entry_cost};
ghost use Rattle.matrix.specs.Columns.{zero_column, zero_columns, column_of, matrix_of};

use alphabet::{Alphabet, MOST_POSITIONS, MOST_SYMBOLS};

// The room of a record by value, which is one of sixteen symbols.
pub const POSITIONS: usize = 15;

pub const PLACES: usize = 16 * POSITIONS;

#[derive(Clone, Copy)]
pub struct Matrix {
    pub n: usize,
    pub cost: usize,
    pub totals: [u16; POSITIONS],
    pub entries: [u8; PLACES],
}

pub fn entry_cost(x: u8) -> usize
    ensures { (result ≡ entry_cost x) × (result ≤ 32640) }
{
    let m = usize::from(x);
    m * (m + 1) / 2
}

pub fn cost(entries: &[u8]) -> usize
    requires { length entries.now ≤ most_places }
    ensures { result ≡ Rattle.definitions.specs.Weights.cost entries.now }
{
    entries.iter().map(|&x| entry_cost(x)).sum()
}

pub fn column_total(alphabet: Alphabet, entries: &[u8], i: usize) -> u16
    requires { (i < (code_on alphabet).positions) × ((code_on alphabet).symbols * i + (code_on alphabet).symbols ≤ length entries.now) }
    ensures { result ≡ sum_of_column (code_on alphabet) entries.now i }
{
    let symbols = alphabet.symbols();
    let first = symbols * i;
    let mut total = 0;
    for &x in &entries[first..first + symbols] {
        total += u16::from(x);
    }
    total
}

fn totals_right(alphabet: Alphabet, totals: &[u16], entries: &[u8]) -> bool
    requires { (length totals.now ≡ (code_on alphabet).positions) × (length entries.now ≡ places (code_on alphabet)) }
    ensures { result ≡ totals_right (code_on alphabet) totals.now entries.now }
{
    totals
        .iter()
        .enumerate()
        .all(|(i, &total)| total == column_total(alphabet, entries, i))
}

// No entry lies in a column that n positions do not use.
fn unused_zero(alphabet: Alphabet, n: usize, entries: &[u8]) -> bool
    requires { length entries.now ≡ places (code_on alphabet) }
    ensures { result ≡ is_zero (drop ((code_on alphabet).symbols * n) entries.now) }
{
    if alphabet.positions() <= n {
        return true;
    }
    let used = alphabet.symbols() * n;
    memory::all_zero(&entries[used..])
}

pub fn rightly(alphabet: Alphabet, n: usize, cost: usize, totals: &[u16], entries: &[u8]) -> bool
    ensures { result ≡ rightly (code_on alphabet) (held n cost totals.now entries.now) }
{
    totals.len() == alphabet.positions()
        && entries.len() == alphabet.places()
        && totals_right(alphabet, totals, entries)
        && cost == crate::cost(entries)
        && unused_zero(alphabet, n, entries)
}

// The total of each column, counted from nothing.
#[tactic(auto, using(definitions::proofs::Loops::map_none, definitions::proofs::Loops::map_more))]
pub fn lay_totals(alphabet: Alphabet, entries: &[u8], totals: &mut [u16])
    requires { (length totals.old ≡ (code_on alphabet).positions) × (length entries.now ≡ places (code_on alphabet)) }
    ensures { totals.new ≡ totals_of (code_on alphabet) entries.now }
{
    for (i, total) in totals.iter_mut().enumerate() {
        *total = column_total(alphabet, entries, i);
    }
}

// The column of position i, to a column of zeros.
fn lay_column(alphabet: Alphabet, entries: &[u8], i: usize, col: &mut [u8; MOST_SYMBOLS])
    requires i_bound { (i < (code_on alphabet).positions) × ((code_on alphabet).symbols * i + (code_on alphabet).symbols ≤ length entries.now) }
    requires col_value { col.old ≡ zero_column }
    ensures { col.new ≡ column_of (code_on alphabet) entries.now i }
{
    let symbols = alphabet.symbols();
    let first = symbols * i;
    col[..symbols].copy_from_slice(&entries[first..first + symbols]);
}

// The columns of n positions, to columns of zeros.
#[tactic(auto, using(definitions::proofs::Loops::map_none, definitions::proofs::Loops::map_more, crate::proofs::Columns::next_column))]
fn lay_columns(
    alphabet: Alphabet,
    entries: &[u8],
    n: usize,
    columns: &mut [[u8; MOST_SYMBOLS]; MOST_POSITIONS],
)
    requires n_bound { (n ≤ (code_on alphabet).positions) × ((code_on alphabet).symbols * n ≤ length entries.now) }
    requires columns_value { columns.old ≡ zero_columns }
    ensures { columns.new ≡ matrix_of (code_on alphabet) entries.now n }
{
    for i in 0..n {
        lay_column(alphabet, entries, i, &mut columns[i]);
    }
}

// The columns of n positions, by value. Each alphabet passes its own constant on.
pub fn in_columns(
    alphabet: Alphabet,
    entries: &[u8],
    n: usize,
) -> [[u8; MOST_SYMBOLS]; MOST_POSITIONS]
    requires { (n ≤ (code_on alphabet).positions) × ((code_on alphabet).symbols * n ≤ length entries.now) }
    ensures { result ≡ matrix_of (code_on alphabet) entries.now n }
{
    let mut columns = [[0u8; MOST_SYMBOLS]; MOST_POSITIONS];
    match alphabet {
        Alphabet::Sixteen => lay_columns(Alphabet::Sixteen, entries, n, &mut columns),
        Alphabet::ThirtyTwo => lay_columns(Alphabet::ThirtyTwo, entries, n, &mut columns),
    }
    columns
}
