// Weights to multiplicities, and a matrix's cost and bound.

#![tactic(auto)]

ghost use Rattle.std.specs.Prelude.{◌≡◌};
ghost use Rattle.alphabet.specs.Codes.{code_on};
ghost use Rattle.refusals.specs.Told.{told_counted};
ghost use Rattle.definitions.specs.Answers.{multiplicities_answer, multiplicities_out, cost_answer};
ghost use Rattle.definitions.specs.Editing.{held_cost_answer};
ghost use Rattle.definitions.specs.Field.{sixteen};
ghost use Rattle.definitions.specs.Held.{held};
ghost use Rattle.matrix.specs.Record.{held_by};
ghost use Rattle.weights.specs.Costed.{told_costed};

pub mod inside;

use alphabet::{Alphabet, MOST_PLACES};
use matrix::Matrix;
use refusals::limits::GREATEST_ENTRY;
use refusals::{Refusal, checks};

#[derive(Clone, Copy)]
pub struct Costs {
    pub cost: usize,
    pub bound: usize,
}

pub fn multiplicities(
    alphabet: Alphabet,
    n: usize,
    level: usize,
    reliabilities: &[u16],
    out: &mut [u8],
) -> Result<usize, Refusal>
    ensures answer { told_counted result ≡ multiplicities_answer (code_on alphabet) n level reliabilities.now out.old }
    ensures memory { out.new ≡ multiplicities_out (code_on alphabet) n level reliabilities.now out.old }
{
    checks::size(alphabet, n)?;
    checks::level(level)?;
    checks::entries(alphabet, reliabilities.len(), n)?;
    checks::entries_room(alphabet, out.len(), n)?;
    reliabilities::columns_checked(alphabet, reliabilities, n)?;
    inside::multiplicities_into(level, reliabilities, out);
    Ok(reliabilities.len())
}

pub fn cost_and_bound(
    alphabet: Alphabet,
    n: usize,
    k: usize,
    matrix: &[u8],
) -> Result<Costs, Refusal>
    ensures { told_costed result ≡ cost_answer (code_on alphabet) n k matrix.now }
{
    checks::sizes(alphabet, n, k)?;
    checks::entries(alphabet, matrix.len(), n)?;
    checks::symbols(GREATEST_ENTRY, matrix)?;
    let mut entries = [0u8; MOST_PLACES];
    let cost = turning::turn(alphabet, matrix, &mut entries);
    let bound = bound::bound(k - 1, cost);
    Ok(Costs { cost, bound })
}

// Of a matrix record whose parts are lent.
pub fn cost_and_bound_of_parts(
    alphabet: Alphabet,
    n: usize,
    cost: usize,
    totals: &[u16],
    entries: &[u8],
    k: usize,
) -> Result<Costs, Refusal>
    ensures { told_costed result ≡ held_cost_answer (code_on alphabet) (held n cost totals.now entries.now) k }
{
    checks::sizes(alphabet, n, k)?;
    let right = matrix::rightly(alphabet, n, cost, totals, entries);
    checks::refuse_if(!right, Refusal::Length)?;
    checks::symbols(GREATEST_ENTRY, entries)?;
    let bound = bound::bound(k - 1, cost);
    Ok(Costs { cost, bound })
}

pub fn cost_and_bound_of_matrix(m: Matrix, k: usize) -> Result<Costs, Refusal>
    ensures { told_costed result ≡ held_cost_answer sixteen (held_by m) k }
{
    cost_and_bound_of_parts(Alphabet::Sixteen, m.n, m.cost, &m.totals, &m.entries, k)
}
