// A proposal within limits: whether it is a yes, and the list that is made from it.

#![tactic(auto)]

ghost use Rattle.std.specs.Prelude.{◌≡◌, ◌*◌, ◌-◌, length, take};
ghost use Rattle.alphabet.specs.Codes.{code_on};
ghost use Rattle.definitions.specs.Proposals.{is_yes};
ghost use Rattle.list_within.specs.Within.{Answered, Fit};
ghost use Rattle.matrix.specs.Columns.{FrontCosts};
ghost use Rattle.passing.specs.Derivatives.{Given};
ghost use Rattle.proposal_within.specs.Lines.{list_lines};
ghost use Rattle.refusals.specs.Told.{told_counted};

use alphabet::Alphabet;
use refusals::{Refusal, checks};

// "yes exactly when it is not all zero and passes", of the matrix in front of the entries.
#[tactic(auto, using(passing::proofs::Tests::passes_front))]
pub fn is_yes(
    alphabet: Alphabet,
    entries: &[u8],
    n: usize,
    v: usize,
    degree: usize,
    coefficients: &[u8],
) -> bool
    requires { Given (code_on alphabet) n v degree entries.now coefficients.now }
    ensures { result ≡ is_yes (code_on alphabet) n v degree (take ((code_on alphabet).symbols * n) entries.now) coefficients.now }
{
    !memory::all_zero(coefficients)
        && passing::passes(alphabet, entries, n, v, degree, coefficients)
}

// What passed the checks of its table before the cost, the matrix in front of the entries.
pub fn list_proposed(
    alphabet: Alphabet,
    entries: &[u8],
    n: usize,
    cost: usize,
    k: usize,
    limit: usize,
    degree: usize,
    coefficients: &[u8],
    rows: &mut [u8],
    scores: &mut [u16],
) -> Result<usize, Refusal>
    requires fit { Fit (code_on alphabet) n k limit (length rows.old) (length scores.old) }
    requires front_costs { FrontCosts (code_on alphabet) n cost entries.now × Given (code_on alphabet) n (k - 1) degree entries.now coefficients.now }
    ensures { Answered (code_on alphabet) (list_lines (code_on alphabet) n k limit degree coefficients.now (take ((code_on alphabet).symbols * n) entries.now)) n k (take ((code_on alphabet).symbols * n) entries.now) rows.old scores.old (told_counted result) rows.new scores.new }
{
    checks::refuse_if(limit < cost, Refusal::Cost)?;
    let bound = bound::bound(k - 1, cost);
    checks::refuse_if(bound < degree, Refusal::Setting)?;
    checks::refuse_if(
        !is_yes(alphabet, entries, n, k - 1, degree, coefficients),
        Refusal::Proposal,
    )?;
    let columns = matrix::in_columns(alphabet, entries, n);
    Ok(list_within::roots_above(
        alphabet,
        &columns,
        n,
        k,
        degree,
        bound,
        coefficients,
        rows,
        scores,
    ))
}
