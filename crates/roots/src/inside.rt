// y-roots of what is within limits already.
ghost use Rattle.std.specs.Prelude.{false, ◌≡◌, ◌+◌, ◌-◌, ◌*◌, ◌/◌, ◌≤◌, ◌<◌, length, take, drop};
ghost use Rattle.alphabet.specs.Codes.{code_on};
ghost use Rattle.definitions.specs.Answers.{rows_onto};
ghost use Rattle.definitions.specs.Bound.{count};
ghost use Rattle.definitions.specs.Code.{Symbols};
ghost use Rattle.definitions.specs.Limits.{greatest_count};
ghost use Rattle.definitions.specs.Polynomial.{monomials_of, monomials, is_zero};
ghost use Rattle.definitions.specs.Roots.{roots_of};
ghost use Rattle.root_tree.specs.Tree.{zeros, search};
ghost use Rattle.substitution.specs.Array.{places, polynomial};
ghost use Rattle.memory.specs.Laid.{laid};
ghost use Rattle.roots.specs.Rows.{DegreeWithin, LoadedOfEither, rows_after};

use alphabet::{Alphabet, MOST_SYMBOLS};
use substitution::PLACES;

// Room for a message of either alphabet, a power of two.
const ROW: usize = MOST_SYMBOLS;

// The coefficients of weighted degree d, from place j of the list on, each to its place.
fn load_degree(p: &mut [u8], coefficients: &[u8], j: usize, d: usize, v: usize, h: usize)
    requires v_nonzero { (0 < v) × (d / v < h) × ((d + 1) * h ≤ length p.old) }
    requires v_in_bounds { j + (d / v + 1) ≤ length coefficients.now }
    ensures { LoadedOfEither h (take (d / v + 1) (drop j coefficients.now)) (monomials_of v d) p.old p.new }
{
    for b in 0..=d / v {
        p[(d - v * b) * h + b] = coefficients[j + b];
    }
}

// The coefficients of a polynomial with degree limit `degree`, each to its place.
fn load(coefficients: &[u8], degree: usize, v: usize) -> [u8; PLACES]
    requires v_nonzero { (0 < v) × ((degree + 1) * (degree / v + 1) ≤ places) }
    requires coefficients_len { length coefficients.now ≡ count v degree }
    ensures { LoadedOfEither (degree / v + 1) coefficients.now (monomials v degree) (zeros places) result }
{
    let mut p = [0u8; PLACES];
    let h = degree / v + 1;
    let mut j = 0;
    for d in 0..=degree {
        load_degree(&mut p, coefficients, j, d, v, h);
        j += d / v + 1;
    }
    p
}

// Every way to go on from the prefix of k - left symbols in `row`: writes the rows from `at` on, and answers the place after them.
fn search(
    alphabet: Alphabet,
    p: [u8; PLACES],
    degree: usize,
    h: usize,
    row: [u8; ROW],
    k: usize,
    left: usize,
    out: &mut [u8],
    at: usize,
) -> usize
    requires symbols { Symbols (code_on alphabet) p }
    requires h_nonzero { (0 < h) × ((degree + 1) * h ≤ places) × (left ≤ k) × (k ≤ (code_on alphabet).positions) }
    requires degree_within { DegreeWithin (code_on alphabet) (left - 1) degree h p × (at + length (rows_after (take (k - left) row) (search (code_on alphabet) left (polynomial (code_on alphabet) h (degree + 1) p))) ≤ length out.old) }
    ensures count { result ≡ at + length (rows_after (take (k - left) row) (search (code_on alphabet) left (polynomial (code_on alphabet) h (degree + 1) p))) }
    ensures memory { out.new ≡ laid out.old at (rows_after (take (k - left) row) (search (code_on alphabet) left (polynomial (code_on alphabet) h (degree + 1) p))) }
{
    if left == 0 {
        if substitution::constants_zero(&p, h, degree + 1) {
            memory::put(out, at, &row[..k]);
            return at + k;
        }
        return at;
    }
    let mut end = at;
    for g in 0..=alphabet.greatest_symbol() {
        if substitution::first_value(alphabet, &p, h, g) == 0 {
            let mut next = row;
            next[k - left] = g;
            let rest = substitution::handed(alphabet, p, h, degree + 1, g);
            end = search(alphabet, rest, degree, h, next, k, left - 1, out, end);
        }
    }
    end
}

// The rows of all y-roots, to the front of out; answers how many there are.
pub fn roots_into(
    alphabet: Alphabet,
    degree: usize,
    k: usize,
    coefficients: &[u8],
    out: &mut [u8],
) -> usize
    requires le_k { (2 ≤ k) × (k ≤ (code_on alphabet).positions) × (count (k - 1) degree ≤ greatest_count) }
    requires coefficients_len { (length coefficients.now ≡ count (k - 1) degree) × (k * (degree / (k - 1)) ≤ length out.old) }
    requires symbols { Symbols (code_on alphabet) coefficients.now }
    requires coefficients_value { is_zero coefficients.now ≡ false }
    ensures count { result ≡ length (roots_of (code_on alphabet) degree k coefficients.now) }
    ensures memory { out.new ≡ rows_onto k (roots_of (code_on alphabet) degree k coefficients.now) out.old }
{
    let h = degree / (k - 1) + 1;
    let loaded = load(coefficients, degree, k - 1);
    let p = substitution::freed(&loaded, h, degree + 1);
    let row = [0u8; ROW];
    search(alphabet, p, degree, h, row, k, k, out, 0) / k
}
