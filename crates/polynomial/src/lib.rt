// The polynomial of a matrix, for inner use: what is given is within limits already.

#![tactic(auto)]

ghost use Rattle.std.specs.Prelude.{◌≤◌, ◌<◌, length, ◌≡◌};
ghost use Rattle.alphabet.specs.Codes.{code_on};
ghost use Rattle.definitions.specs.Limits.{greatest_limit, coefficient_room};
ghost use Rattle.matrix.specs.Columns.{matrix_cost};
ghost use Rattle.conditions.specs.MaskedRows.{Clear};
ghost use Rattle.linear.specs.Rows.{Led};
ghost use Rattle.polynomial.specs.Found.{Given, Found, FoundAtBound};

use alphabet::{Alphabet, MOST_POSITIONS, MOST_SYMBOLS};
use blocks::{BLOCK, WIDTH};
use refusals::limits::GREATEST_LIMIT;

// The rows of the middle, the upper and the large one of four systems: no tag costs more up to level 3, up to level 4, and within the limit.
const MIDDLE_ROWS: usize = 6 * BLOCK;

const UPPER_ROWS: usize = 10 * BLOCK;

const LARGE_ROWS: usize = GREATEST_LIMIT;

// Of a polynomial: the bound of its matrix, how many coefficients that has, and the place of its leading monomial.
#[derive(Clone, Copy)]
pub struct AtBound {
    pub bound: usize,
    pub count: usize,
    pub leading: usize,
}

// 1 at place j, and zeros behind it.
fn lead(j: usize, count: usize, out: &mut [u8])
    requires { (j < count) × (count ≤ length out.old) }
    ensures { Led j count out.old out.new }
{
    out[j] = 1;
    out[j + 1..count].fill(0);
}

// The polynomial of a matrix within limits, in a system of zeros that has room for its conditions.
fn polynomial_in(
    alphabet: Alphabet,
    system: &mut [[u8; WIDTH]],
    matrix: &[[u8; MOST_SYMBOLS]; MOST_POSITIONS],
    v: usize,
    d: usize,
    count: usize,
    cost: usize,
    out: &mut [u8],
) -> usize
    requires given { Given (code_on alphabet) matrix.now v d count cost out.old }
    requires clear { Clear 0 0 system.old × (cost ≤ length system.old) }
    ensures { Found (code_on alphabet) matrix.now v d out.old result out.new }
{
    let blocks = cost / BLOCK + 1;
    let rows = conditions::matrix_rows(alphabet, system, matrix, v, d, blocks);
    let leading = elimination::first_dependent(alphabet, system, rows, blocks);
    lead(leading, count, out);
    elimination::solve(alphabet, system, leading, out);
    leading
}

// In a system of ROWS rows.
fn polynomial_of_rows<const ROWS: usize>(
    alphabet: Alphabet,
    matrix: &[[u8; MOST_SYMBOLS]; MOST_POSITIONS],
    v: usize,
    d: usize,
    count: usize,
    cost: usize,
    out: &mut [u8],
) -> usize
    requires given { Given (code_on alphabet) matrix.now v d count cost out.old }
    requires rows_room { (cost ≤ ROWS) × (ROWS ≤ greatest_limit) }
    ensures { Found (code_on alphabet) matrix.now v d out.old result out.new }
{
    let mut system = [[0u8; WIDTH]; ROWS];
    polynomial_in(alphabet, &mut system, matrix, v, d, count, cost, out)
}

// The polynomial of a matrix within limits, d being its bound and count N(d), to the front of out. Answers the place of its leading monomial.
pub fn polynomial(
    alphabet: Alphabet,
    matrix: &[[u8; MOST_SYMBOLS]; MOST_POSITIONS],
    v: usize,
    d: usize,
    count: usize,
    cost: usize,
    out: &mut [u8],
) -> usize
    requires { Given (code_on alphabet) matrix.now v d count cost out.old }
    ensures { Found (code_on alphabet) matrix.now v d out.old result out.new }
{
    if cost <= BLOCK {
        return polynomial_of_rows::<BLOCK>(alphabet, matrix, v, d, count, cost, out);
    }
    if cost <= MIDDLE_ROWS {
        return polynomial_of_rows::<MIDDLE_ROWS>(alphabet, matrix, v, d, count, cost, out);
    }
    if cost <= UPPER_ROWS {
        return polynomial_of_rows::<UPPER_ROWS>(alphabet, matrix, v, d, count, cost, out);
    }
    polynomial_of_rows::<LARGE_ROWS>(alphabet, matrix, v, d, count, cost, out)
}

// Of a matrix within limits, at its bound.
pub fn at_bound(
    alphabet: Alphabet,
    matrix: &[[u8; MOST_SYMBOLS]; MOST_POSITIONS],
    v: usize,
    cost: usize,
    out: &mut [u8],
) -> AtBound
    requires { (0 < v) × (cost ≤ greatest_limit) × (cost ≡ matrix_cost (code_on alphabet) matrix.now) × (coefficient_room ≤ length out.old) }
    ensures { FoundAtBound (code_on alphabet) matrix.now v cost out.old result.bound result.count result.leading out.new }
{
    let bound = bound::bound(v, cost);
    let count = bound::count(v, bound);
    let leading = polynomial(alphabet, matrix, v, bound, count, cost, out);
    AtBound {
        bound,
        count,
        leading,
    }
}
