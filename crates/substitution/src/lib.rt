// A polynomial in x and y as an array, the coefficient of x^a y^b at a * h + b: one level of the search.

#![tactic(auto)]

ghost use Rattle.std.specs.Prelude.{◌++◌, ◌≡◌, ◌+◌, ◌*◌, ◌≤◌, ◌<◌, length, take, drop};
ghost use Rattle.alphabet.specs.Codes.{code_on};
ghost use Rattle.definitions.specs.Code.{Symbols};
ghost use Rattle.definitions.specs.Field.{numbers, value};
ghost use Rattle.root_tree.specs.Tree.{zeros};
ghost use Rattle.substitution.specs.Array.{places, Added, Folded, Shifted, Laid, Spread, Substituted, Handed, SymbolsKept, SymbolsLaid, FreedOfEither, ConstantsZero};

use alphabet::Alphabet;
use refusals::limits::GREATEST_COUNT;

// The places of a polynomial's array: of w columns of height h, which are at most twice as many as its coefficients.
pub const PLACES: usize = 2 * GREATEST_COUNT;

// The value of the first column at g.
pub fn first_value(alphabet: Alphabet, p: &[u8; PLACES], h: usize, g: u8) -> u8
    requires symbols { Symbols (code_on alphabet) p.now }
    requires h_le_places { (h ≤ places) × (g < (code_on alphabet).symbols) × (length p.now ≡ places) }
    ensures { result ≡ value (numbers (code_on alphabet)) g (take h p.now) }
{
    code::inside::value_at(alphabet, &p[..h], g)
}

// To entry `to` of each column, g times its entry `from` is added.
fn add_multiple(alphabet: Alphabet, p: &mut [u8], h: usize, w: usize, to: usize, from: usize, g: u8)
    requires symbols_2 { Symbols (code_on alphabet) p.old }
    requires to_lt_from { (to < from) × (from < h) × (w * h ≤ length p.old) × (g < (code_on alphabet).symbols) }
    ensures added { Added (code_on alphabet) h w w to from g p.old p.new }
    ensures symbols { Symbols (code_on alphabet) p.new }
{
    for a in 0..w {
        let column = a * h;
        p[column + to] ^= tables::look(alphabet, g, p[column + from]);
    }
}

// To each entry of a column whose place lacks the bit, g times the one that has it is added.
fn fold(alphabet: Alphabet, p: &mut [u8], h: usize, w: usize, bit: usize, g: u8)
    requires symbols_2 { Symbols (code_on alphabet) p.old }
    requires bit_nonzero { (0 < bit) × (bit < h) × (h ≤ places) × (w * h ≤ length p.old) × (g < (code_on alphabet).symbols) }
    ensures folded { Folded (code_on alphabet) h w bit g p.old p.new }
    ensures symbols { Symbols (code_on alphabet) p.new }
{
    for b in 0..h - bit {
        if b & bit == 0 {
            add_multiple(alphabet, p, h, w, b, b + bit, g);
        }
    }
}

// Each column with y + g put for y, in place: a fold for each bit of a place.
fn shift(alphabet: Alphabet, p: &mut [u8], h: usize, w: usize, g: u8)
    requires symbols_2 { Symbols (code_on alphabet) p.old }
    requires h_le_places { (h ≤ places) × (w * h ≤ length p.old) × (g < (code_on alphabet).symbols) }
    ensures shifted { Shifted (code_on alphabet) h w g p.old p.new }
    ensures symbols { Symbols (code_on alphabet) p.new }
{
    let mut bit = 1;
    let mut power = g;
    // A `while`, since the bit doubles.
    while bit < h {
        fold(alphabet, p, h, w, bit, power);
        power = tables::look(alphabet, power, power);
        bit *= 2;
    }
}

// The column with x y put for y, laid from x^a on.
fn lay(p: &mut [u8], col: &[u8], a: usize, h: usize, w: usize)
    requires { (h ≤ length col.now) × (a < w) × (w * h ≤ length p.old) }
    ensures laid { Laid h w a h col.now p.old p.new }
    ensures symbols { SymbolsLaid col.now p.old p.new }
{
    // Entries that would come to columns from the w-th on have no place.
    for b in 0..h.min(w - a) {
        p[(a + b) * h + b] = col[b];
    }
}

// The polynomial with x y put for y, as far as w columns go.
fn spread(p: &[u8], h: usize, w: usize) -> [u8; PLACES]
    requires { (w * h ≤ places) × (w * h ≤ length p.now) }
    ensures spread { Spread h w w p.now result }
    ensures symbols { SymbolsKept p.now result }
{
    let mut q = [0u8; PLACES];
    for a in 0..w {
        let from = a * h;
        lay(&mut q, &p[from..from + h], a, h, w);
    }
    q
}

// The polynomial with x y + g put for y, as far as w columns go.
fn substituted(alphabet: Alphabet, p: [u8; PLACES], h: usize, w: usize, g: u8) -> [u8; PLACES]
    requires symbols_2 { Symbols (code_on alphabet) p }
    requires h_le_places { (h ≤ places) × (g < (code_on alphabet).symbols) × (w * h ≤ places) }
    ensures polynomial { Substituted (code_on alphabet) h w g p result }
    ensures symbols { Symbols (code_on alphabet) result }
{
    let mut shifted = p;
    shift(alphabet, &mut shifted, h, w, g);
    spread(&shifted, h, w)
}

// The entries, moved to the front of an array of zeros.
fn moved(entries: &[u8]) -> [u8; PLACES]
    requires { length entries.now ≤ places }
    ensures { result ≡ entries.now ++ drop (length entries.now) (zeros places) }
{
    let mut q = [0u8; PLACES];
    q[..entries.len()].copy_from_slice(entries);
    q
}

// The polynomial freed of its powers of x.
pub fn freed(p: &[u8; PLACES], h: usize, w: usize) -> [u8; PLACES]
    requires { (0 < h) × (w * h ≤ places) × (length p.now ≡ places) }
    ensures polynomial { FreedOfEither h w p.now result }
    ensures symbols { SymbolsKept p.now result }
{
    let n = w * h;
    let first = p[..n].iter().position(|&x| x != 0).unwrap_or(n);
    moved(&p[first / h * h..n])
}

// What the search hands on after the symbol g: x y + g put for y, and freed of powers of x.
pub fn handed(alphabet: Alphabet, p: [u8; PLACES], h: usize, w: usize, g: u8) -> [u8; PLACES]
    requires symbols_2 { Symbols (code_on alphabet) p }
    requires h_nonzero { (0 < h) × (h ≤ places) × (g < (code_on alphabet).symbols) × (w * h ≤ places) }
    ensures polynomial { Handed (code_on alphabet) h w g p result }
    ensures symbols { Symbols (code_on alphabet) result }
{
    let q = substituted(alphabet, p, h, w, g);
    freed(&q, h, w)
}

// Whether every coefficient of y^0 is zero.
pub fn constants_zero(p: &[u8; PLACES], h: usize, w: usize) -> bool
    requires { (0 < h) × (w * h ≤ places) }
    ensures { ConstantsZero h w p.now result }
{
    (0..w).all(|a| p[a * h] == 0)
}
