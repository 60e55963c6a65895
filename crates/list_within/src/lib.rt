// The list of a matrix within limits: interpolation, its y-roots, and those above the bound by falling score.

#![tactic(auto)]

ghost use Rattle.std.specs.Prelude.{[], ◌∷◌, ◌≡◌, ◌*◌, ◌≤◌, ◌<◌, length, take};
ghost use Rattle.alphabet.specs.Codes.{code_on};
ghost use Rattle.definitions.specs.Limits.{greatest_limit, greatest_rows};
ghost use Rattle.definitions.specs.Refusals.{cost_within};
ghost use Rattle.list_within.specs.Within.{Loaded, Rooted, RootsOf, ListsOf, Answered, Fit};
ghost use Rattle.refusals.specs.Told.{told_counted};
ghost use Rattle.matrix.specs.Columns.{matrix_cost, FrontCosts};

use alphabet::{Alphabet, MOST_POSITIONS, MOST_SYMBOLS};
use refusals::limits::{COEFFICIENT_ROOM, GREATEST_ROWS};
use refusals::{Refusal, checks};

// The roots of a polynomial whose score is above the threshold, by falling score. The polynomial may be anybody's.
pub fn roots_above(
    alphabet: Alphabet,
    matrix: &[[u8; MOST_SYMBOLS]; MOST_POSITIONS],
    n: usize,
    k: usize,
    degree: usize,
    threshold: usize,
    coefficients: &[u8],
    rows: &mut [u8],
    scores: &mut [u16],
) -> usize
    requires rooted { Rooted (code_on alphabet) n k degree threshold coefficients.now }
    requires k_in_bounds { (greatest_rows * k ≤ length rows.old) × (greatest_rows ≤ length scores.old) }
    requires loaded { Loaded (code_on alphabet) matrix.now n }
    ensures { RootsOf (code_on alphabet) matrix.now n k degree coefficients.now threshold rows.old scores.old result rows.new scores.new }
{
    let mut found = [0u8; GREATEST_ROWS * MOST_POSITIONS];
    let many = roots::inside::roots_into(alphabet, degree, k, coefficients, &mut found);
    ranking::ranked(
        alphabet,
        matrix,
        n,
        k,
        threshold as u16,
        &found,
        many,
        rows,
        scores,
    )
}

pub fn list_of_columns(
    alphabet: Alphabet,
    matrix: &[[u8; MOST_SYMBOLS]; MOST_POSITIONS],
    n: usize,
    k: usize,
    cost: usize,
    rows: &mut [u8],
    scores: &mut [u16],
) -> usize
    requires le_k { (2 ≤ k) × (k ≤ n) × (n ≤ (code_on alphabet).positions) × (cost ≡ matrix_cost (code_on alphabet) matrix.now) × (cost ≤ greatest_limit) }
    requires k_in_bounds { (greatest_rows * k ≤ length rows.old) × (greatest_rows ≤ length scores.old) }
    requires loaded { Loaded (code_on alphabet) matrix.now n }
    ensures { ListsOf (code_on alphabet) matrix.now n k rows.old scores.old result rows.new scores.new }
{
    let v = k - 1;
    let bound = bound::bound(v, cost);
    let count = bound::count(v, bound);
    let mut polynomial = [0u8; COEFFICIENT_ROOM];
    polynomial::polynomial(alphabet, matrix, v, bound, count, cost, &mut polynomial);
    roots_above(
        alphabet,
        matrix,
        n,
        k,
        bound,
        bound,
        &polynomial[..count],
        rows,
        scores,
    )
}

// What passed the checks of its table is listed, where it costs no more than the limit.
pub fn list_priced(
    alphabet: Alphabet,
    entries: &[u8],
    n: usize,
    cost: usize,
    k: usize,
    limit: usize,
    rows: &mut [u8],
    scores: &mut [u16],
) -> Result<usize, Refusal>
    requires fit { Fit (code_on alphabet) n k limit (length rows.old) (length scores.old) }
    requires front_costs { FrontCosts (code_on alphabet) n cost entries.now }
    ensures { Answered (code_on alphabet) (cost_within limit (take ((code_on alphabet).symbols * n) entries.now) ∷ []) n k (take ((code_on alphabet).symbols * n) entries.now) rows.old scores.old (told_counted result) rows.new scores.new }
{
    checks::refuse_if(limit < cost, Refusal::Cost)?;
    let columns = matrix::in_columns(alphabet, entries, n);
    Ok(list_of_columns(alphabet, &columns, n, k, cost, rows, scores))
}
