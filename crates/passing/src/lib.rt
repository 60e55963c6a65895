// Whether a polynomial passes through the points of a matrix, for inner use: what is given is within limits already.

#![tactic(auto)]

ghost use Rattle.std.specs.Prelude.{◌≡◌, ◌+◌, ◌*◌, ◌≤◌, ◌<◌, length};
ghost use Rattle.alphabet.specs.Codes.{code_on};
ghost use Rattle.definitions.specs.Code.{Symbols};
ghost use Rattle.definitions.specs.Limits.{greatest_level, greatest_count};
ghost use Rattle.definitions.specs.Proposals.{passes};
ghost use Rattle.passing.specs.Derivatives.{Low, SymbolRows, Moved, Powers, Added, Parts, derivative_sum, order_passes, point_passes, column_passes, Given};

use alphabet::Alphabet;
use refusals::limits::{GREATEST_COUNT, GREATEST_LEVEL};
use tables::ALPHA;

// The orders of a derivative that the greatest multiplicity asks for.
const ORDERS: usize = GREATEST_LEVEL;

// A row for each power: there are no more powers than coefficients.
const POWERS: usize = GREATEST_COUNT;

// From the derivatives of a power at c to those of the next: c times each, and the one of the order before.
fn moved(alphabet: Alphabet, row: &[u8; ORDERS], c: u8) -> [u8; ORDERS]
    requires { (c < (code_on alphabet).symbols) × Symbols (code_on alphabet) row.now }
    ensures { Moved (code_on alphabet) c row.now result }
{
    let mut next = [0u8; ORDERS];
    let mut before = 0u8;
    for (s, &entry) in row.iter().enumerate() {
        next[s] = tables::look(alphabet, c, entry) ^ before;
        before = entry;
    }
    next
}

// Row e holds the derivatives of the power e at c, by order.
fn powers(alphabet: Alphabet, c: u8, count: usize) -> [[u8; ORDERS]; POWERS]
    requires { (c < (code_on alphabet).symbols) × (count ≤ greatest_count) }
    ensures { Powers (code_on alphabet) c count result }
{
    let mut rows = [[0u8; ORDERS]; POWERS];
    let mut row = [0u8; ORDERS];
    row[0] = 1;
    for power in rows[..count].iter_mut() {
        *power = row;
        row = moved(alphabet, &row, c);
    }
    rows
}

// To each entry of a row, c times that of another is added.
fn add_multiple(alphabet: Alphabet, row: &mut [u8; ORDERS], of: &[u8; ORDERS], c: u8)
    requires { (c < (code_on alphabet).symbols) × Symbols (code_on alphabet) of.now × (length row.old ≡ greatest_level) }
    ensures { Added (code_on alphabet) c of.now row.old row.new }
{
    for (s, entry) in row.iter_mut().enumerate() {
        *entry ^= tables::look(alphabet, of[s], c);
    }
}

// Row b holds, by order, the derivatives by x of what stands at y^b: each coefficient times those of its power of x, summed.
fn parts(
    alphabet: Alphabet,
    coefficients: &[u8],
    v: usize,
    px: &[[u8; ORDERS]; POWERS],
) -> [[u8; ORDERS]; POWERS]
    requires v_nonzero { (0 < v) × (length coefficients.now ≤ greatest_count) }
    requires symbols { Symbols (code_on alphabet) coefficients.now × SymbolRows (code_on alphabet) px.now }
    ensures { Parts (code_on alphabet) v (length coefficients.now) px.now coefficients.now result }
{
    let mut rows = [[0u8; ORDERS]; POWERS];
    let mut x = 0;
    let mut y = 0usize;
    let mut degree = 0;
    for &coefficient in coefficients {
        add_multiple(alphabet, &mut rows[y], &px[x], coefficient);
        if v <= x {
            x -= v;
            y += 1;
        } else {
            degree += 1;
            x = degree;
            y = 0;
        }
    }
    rows
}

// The derivative of order s by x and t by y: the first h rows of one, times those of the other, summed.
fn derivative(
    alphabet: Alphabet,
    rows: &[[u8; ORDERS]; POWERS],
    py: &[[u8; ORDERS]; POWERS],
    h: usize,
    s: usize,
    t: usize,
) -> u8
    requires h_le_greatest_count { (h ≤ greatest_count) × (s < greatest_level) × (t < greatest_level) }
    requires symbol_rows { SymbolRows (code_on alphabet) rows.now × SymbolRows (code_on alphabet) py.now }
    ensures { result ≡ derivative_sum (code_on alphabet) rows.now py.now h s t }
{
    let mut sum = 0u8;
    for (row, power) in rows[..h].iter().zip(py) {
        sum ^= tables::look(alphabet, row[s], power[t]);
    }
    sum
}

// Whether all derivatives of order s by x and less than `orders` by y are zero.
fn order_passes(
    alphabet: Alphabet,
    rows: &[[u8; ORDERS]; POWERS],
    py: &[[u8; ORDERS]; POWERS],
    h: usize,
    s: usize,
    orders: usize,
) -> bool
    requires h_le_greatest_count { (h ≤ greatest_count) × (s < greatest_level) × (orders ≤ greatest_level) }
    requires symbol_rows { SymbolRows (code_on alphabet) rows.now × SymbolRows (code_on alphabet) py.now }
    ensures { result ≡ order_passes (code_on alphabet) rows.now py.now h s orders }
{
    (0..orders).all(|t| derivative(alphabet, rows, py, h, s, t) == 0)
}

// Whether the polynomial passes through the point of y with multiplicity m.
fn point_passes(
    alphabet: Alphabet,
    rows: &[[u8; ORDERS]; POWERS],
    h: usize,
    y: u8,
    m: usize,
) -> bool
    requires h_le_greatest_count { (h ≤ greatest_count) × (y < (code_on alphabet).symbols) × (m ≤ greatest_level) }
    requires symbol_rows { SymbolRows (code_on alphabet) rows.now }
    ensures { result ≡ point_passes (code_on alphabet) rows.now h y m }
{
    if m == 0 {
        return true;
    }
    let py = powers(alphabet, y, h);
    (0..m).all(|s| order_passes(alphabet, rows, &py, h, s, m - s))
}

// Whether it passes through all points of a position, whose entries stand from a place on.
fn column_passes(
    alphabet: Alphabet,
    rows: &[[u8; ORDERS]; POWERS],
    h: usize,
    entries: &[u8],
    at: usize,
) -> bool
    requires h_le_greatest_count { (h ≤ greatest_count) × (at + (code_on alphabet).symbols ≤ length entries.now) × Low (at + (code_on alphabet).symbols) entries.now }
    requires symbol_rows { SymbolRows (code_on alphabet) rows.now }
    ensures { result ≡ column_passes (code_on alphabet) rows.now h entries.now at }
{
    (0..alphabet.symbols()).all(|b| {
        let m = usize::from(entries[at + b]);
        point_passes(alphabet, rows, h, b as u8, m)
    })
}

// Whether it passes through all points of n positions.
pub fn passes(
    alphabet: Alphabet,
    entries: &[u8],
    n: usize,
    v: usize,
    degree: usize,
    coefficients: &[u8],
) -> bool
    requires { Given (code_on alphabet) n v degree entries.now coefficients.now }
    ensures { result ≡ passes (code_on alphabet) n v degree entries.now coefficients.now }
{
    let mut x = 1u8;
    for i in 0..n {
        let px = powers(alphabet, x, degree + 1);
        let rows = parts(alphabet, coefficients, v, &px);
        let at = alphabet.symbols() * i;
        if !column_passes(alphabet, &rows, degree / v + 1, entries, at) {
            return false;
        }
        x = tables::look(alphabet, ALPHA, x);
    }
    true
}
