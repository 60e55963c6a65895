// A planner for multiplicities, and the check of a plan that comes from outside.

#![tactic(auto)]

ghost use Rattle.std.specs.Prelude.{◌≡◌};
ghost use Rattle.alphabet.specs.Codes.{code_on};
ghost use Rattle.definitions.specs.Field.{sixteen};
ghost use Rattle.definitions.specs.Held.{held};
ghost use Rattle.definitions.specs.Planning.{plan_answer, plan_out, check_answer, held_check_answer};
ghost use Rattle.matrix.specs.Record.{held_by};
ghost use Rattle.planner.specs.Planned.{told_planned};

pub mod inside;

use alphabet::{Alphabet, MOST_PLACES};
use matrix::Matrix;
use refusals::limits::GREATEST_ENTRY;
use refusals::{Refusal, checks};

#[derive(Clone, Copy)]
pub struct Planned {
    pub count: usize,
    pub steps: usize,
}

pub fn plan(
    alphabet: Alphabet,
    n: usize,
    steps: usize,
    reliabilities: &[u16],
    out: &mut [u8],
) -> Result<Planned, Refusal>
    ensures answer { told_planned result ≡ plan_answer (code_on alphabet) n steps reliabilities.now out.old }
    ensures memory { out.new ≡ plan_out (code_on alphabet) n steps reliabilities.now out.old }
{
    checks::size(alphabet, n)?;
    checks::steps(steps)?;
    checks::entries(alphabet, reliabilities.len(), n)?;
    checks::entries_room(alphabet, out.len(), n)?;
    reliabilities::columns_checked(alphabet, reliabilities, n)?;
    let count = reliabilities.len();
    let front = &mut out[..count];
    front.fill(0);
    let done = steps::plan_into(alphabet, n, reliabilities, steps, front);
    Ok(Planned { count, steps: done })
}

pub fn check_plan(
    alphabet: Alphabet,
    n: usize,
    steps: usize,
    reliabilities: &[u16],
    plan: &[u8],
) -> Result<Planned, Refusal>
    ensures { told_planned result ≡ check_answer (code_on alphabet) n steps reliabilities.now plan.now }
{
    checks::size(alphabet, n)?;
    checks::steps(steps)?;
    checks::entries(alphabet, reliabilities.len(), n)?;
    checks::entries(alphabet, plan.len(), n)?;
    checks::symbols(GREATEST_ENTRY, plan)?;
    reliabilities::columns_checked(alphabet, reliabilities, n)?;
    let mut entries = [0u8; MOST_PLACES];
    turning::turn(alphabet, plan, &mut entries);
    inside::check_entries(alphabet, n, reliabilities, steps, &entries)
}

// Of a plan held in a matrix record whose parts are lent.
pub fn check_plan_of_parts(
    alphabet: Alphabet,
    n: usize,
    cost: usize,
    totals: &[u16],
    entries: &[u8],
    steps: usize,
    reliabilities: &[u16],
) -> Result<Planned, Refusal>
    ensures { told_planned result ≡ held_check_answer (code_on alphabet) (held n cost totals.now entries.now) steps reliabilities.now }
{
    checks::size(alphabet, n)?;
    checks::steps(steps)?;
    checks::entries(alphabet, reliabilities.len(), n)?;
    let right = matrix::rightly(alphabet, n, cost, totals, entries);
    checks::refuse_if(!right, Refusal::Length)?;
    checks::symbols(GREATEST_ENTRY, entries)?;
    reliabilities::columns_checked(alphabet, reliabilities, n)?;
    inside::check_entries(alphabet, n, reliabilities, steps, entries)
}

pub fn check_plan_of_matrix(
    m: Matrix,
    steps: usize,
    reliabilities: &[u16],
) -> Result<Planned, Refusal>
    ensures { told_planned result ≡ held_check_answer sixteen (held_by m) steps reliabilities.now }
{
    check_plan_of_parts(
        Alphabet::Sixteen,
        m.n,
        m.cost,
        &m.totals,
        &m.entries,
        steps,
        reliabilities,
    )
}
