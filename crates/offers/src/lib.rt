// The list of what is offered from outside: of a plan.

#![tactic(auto)]

ghost use Rattle.std.specs.Prelude.{[], ◌∷◌, ◌≡◌, ◌*◌, ◌≤◌, length, take};
ghost use Rattle.alphabet.specs.Codes.{code_on};
ghost use Rattle.definitions.specs.Field.{sixteen};
ghost use Rattle.definitions.specs.Held.{held};
ghost use Rattle.definitions.specs.Limits.{greatest_rows};
ghost use Rattle.definitions.specs.Planning.{ruled, plan_list_answer, plan_list_rows, plan_list_scores, held_plan_list_answer, held_plan_list_rows, held_plan_list_scores};
ghost use Rattle.definitions.specs.Refusals.{cost_within};
ghost use Rattle.list_within.specs.Within.{Answered, Fit};
ghost use Rattle.matrix.specs.Columns.{FrontCosts};
ghost use Rattle.matrix.specs.Record.{held_by};
ghost use Rattle.refusals.specs.Told.{told_counted};

use alphabet::{Alphabet, MOST_PLACES};
use matrix::Matrix;
use refusals::limits::{GREATEST_ENTRY, GREATEST_LIMIT, GREATEST_ROWS};
use refusals::{Refusal, checks};

// What passed the checks of its table before the cost, the plan in front of the entries.
fn list_planned(
    alphabet: Alphabet,
    entries: &[u8],
    n: usize,
    cost: usize,
    steps: usize,
    reliabilities: &[u16],
    k: usize,
    limit: usize,
    rows: &mut [u8],
    scores: &mut [u16],
) -> Result<usize, Refusal>
    requires fit { Fit (code_on alphabet) n k limit (length rows.old) (length scores.old) }
    requires front_costs { FrontCosts (code_on alphabet) n cost entries.now × (length reliabilities.now ≡ (code_on alphabet).symbols * n) }
    ensures { Answered (code_on alphabet) (cost_within limit (take ((code_on alphabet).symbols * n) entries.now) ∷ ruled reliabilities.now steps (take ((code_on alphabet).symbols * n) entries.now) ∷ []) n k (take ((code_on alphabet).symbols * n) entries.now) rows.old scores.old (told_counted result) rows.new scores.new }
{
    checks::refuse_if(limit < cost, Refusal::Cost)?;
    planner::inside::check_entries(alphabet, n, reliabilities, steps, entries)?;
    list_within::list_priced(alphabet, entries, n, cost, k, limit, rows, scores)
}

pub fn list_of_plan(
    alphabet: Alphabet,
    n: usize,
    k: usize,
    limit: usize,
    steps: usize,
    reliabilities: &[u16],
    plan: &[u8],
    rows: &mut [u8],
    scores: &mut [u16],
) -> Result<usize, Refusal>
    ensures answer { told_counted result ≡ plan_list_answer (code_on alphabet) n k limit steps reliabilities.now plan.now rows.old scores.old }
    ensures row_memory { rows.new ≡ plan_list_rows (code_on alphabet) n k limit steps reliabilities.now plan.now rows.old scores.old }
    ensures score_memory { scores.new ≡ plan_list_scores (code_on alphabet) n k limit steps reliabilities.now plan.now rows.old scores.old }
    ensures few { (told_counted result).count ≤ greatest_rows }
{
    checks::sizes(alphabet, n, k)?;
    checks::refuse_if(GREATEST_LIMIT < limit, Refusal::Setting)?;
    checks::steps(steps)?;
    checks::entries(alphabet, reliabilities.len(), n)?;
    checks::entries(alphabet, plan.len(), n)?;
    checks::room(rows.len(), GREATEST_ROWS, k)?;
    checks::refuse_if(scores.len() < GREATEST_ROWS, Refusal::Room)?;
    checks::symbols(GREATEST_ENTRY, plan)?;
    reliabilities::columns_checked(alphabet, reliabilities, n)?;
    let mut entries = [0u8; MOST_PLACES];
    let cost = turning::turn(alphabet, plan, &mut entries);
    list_planned(
        alphabet,
        &entries,
        n,
        cost,
        steps,
        reliabilities,
        k,
        limit,
        rows,
        scores,
    )
}

// Of a plan held in a matrix record whose parts are lent.
pub fn list_of_plan_of_parts(
    alphabet: Alphabet,
    n: usize,
    cost: usize,
    totals: &[u16],
    entries: &[u8],
    k: usize,
    limit: usize,
    steps: usize,
    reliabilities: &[u16],
    rows: &mut [u8],
    scores: &mut [u16],
) -> Result<usize, Refusal>
    ensures answer { told_counted result ≡ held_plan_list_answer (code_on alphabet) (held n cost totals.now entries.now) k limit steps reliabilities.now rows.old scores.old }
    ensures row_memory { rows.new ≡ held_plan_list_rows (code_on alphabet) (held n cost totals.now entries.now) k limit steps reliabilities.now rows.old scores.old }
    ensures score_memory { scores.new ≡ held_plan_list_scores (code_on alphabet) (held n cost totals.now entries.now) k limit steps reliabilities.now rows.old scores.old }
    ensures few { (told_counted result).count ≤ greatest_rows }
{
    checks::sizes(alphabet, n, k)?;
    checks::refuse_if(GREATEST_LIMIT < limit, Refusal::Setting)?;
    checks::steps(steps)?;
    checks::entries(alphabet, reliabilities.len(), n)?;
    let right = matrix::rightly(alphabet, n, cost, totals, entries);
    checks::refuse_if(!right, Refusal::Length)?;
    checks::room(rows.len(), GREATEST_ROWS, k)?;
    checks::refuse_if(scores.len() < GREATEST_ROWS, Refusal::Room)?;
    checks::symbols(GREATEST_ENTRY, entries)?;
    reliabilities::columns_checked(alphabet, reliabilities, n)?;
    list_planned(
        alphabet,
        entries,
        n,
        cost,
        steps,
        reliabilities,
        k,
        limit,
        rows,
        scores,
    )
}

pub fn list_of_plan_of_matrix(
    m: Matrix,
    k: usize,
    limit: usize,
    steps: usize,
    reliabilities: &[u16],
    rows: &mut [u8],
    scores: &mut [u16],
) -> Result<usize, Refusal>
    ensures answer { told_counted result ≡ held_plan_list_answer sixteen (held_by m) k limit steps reliabilities.now rows.old scores.old }
    ensures row_memory { rows.new ≡ held_plan_list_rows sixteen (held_by m) k limit steps reliabilities.now rows.old scores.old }
    ensures score_memory { scores.new ≡ held_plan_list_scores sixteen (held_by m) k limit steps reliabilities.now rows.old scores.old }
    ensures few { (told_counted result).count ≤ greatest_rows }
{
    list_of_plan_of_parts(
        Alphabet::Sixteen,
        m.n,
        m.cost,
        &m.totals,
        &m.entries,
        k,
        limit,
        steps,
        reliabilities,
        rows,
        scores,
    )
}
