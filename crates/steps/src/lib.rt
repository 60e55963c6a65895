// Algorithm 1: the best place, a step, and the plan of so many.

#![tactic(auto)]

ghost use Rattle.std.specs.Prelude.{◌≡◌, ◌<◌, length, replicate};
ghost use Rattle.alphabet.specs.Codes.{code_on};
ghost use Rattle.definitions.specs.Planning.{best, stops, step, plan, steps_done};
ghost use Rattle.plans.specs.Leads.{Led};
ghost use Rattle.steps.specs.Entries.{Weights, Columns, Low};

use alphabet::{Alphabet, MOST_POSITIONS};
use refusals::limits::GREATEST_ENTRY;

fn lay_leaders(
    alphabet: Alphabet,
    n: usize,
    reliabilities: &[u16],
    multiplicities: &[u8],
    leaders: &mut [usize],
)
    requires { Columns (code_on alphabet) n reliabilities.now multiplicities.now × (length leaders.old ≡ (code_on alphabet).positions) }
    ensures { Led (code_on alphabet) reliabilities.now multiplicities.now n leaders.new }
{
    for i in 0..n {
        leaders[i] = shares::best_of_column(alphabet, reliabilities, multiplicities, i);
    }
}

// The best of the places that lead the columns is the best of all.
fn best(
    alphabet: Alphabet,
    n: usize,
    reliabilities: &[u16],
    multiplicities: &[u8],
    leaders: &[usize],
) -> usize
    requires { Columns (code_on alphabet) n reliabilities.now multiplicities.now × Led (code_on alphabet) reliabilities.now multiplicities.now n leaders.now }
    ensures { (result ≡ best reliabilities.now multiplicities.now) × (result < length reliabilities.now) }
{
    let mut leading = leaders[0];
    for &leader in &leaders[1..n] {
        leading = shares::better(reliabilities, multiplicities, leading, leader);
    }
    leading
}

// It raises an entry, or answers that the plan stops.
fn step(
    alphabet: Alphabet,
    n: usize,
    reliabilities: &[u16],
    multiplicities: &mut [u8],
    leaders: &mut [usize],
) -> bool
    requires { Columns (code_on alphabet) n reliabilities.now multiplicities.old × Low multiplicities.old × Led (code_on alphabet) reliabilities.now multiplicities.old n leaders.old }
    ensures stopped { result ≡ stops reliabilities.now multiplicities.old }
    ensures memory { multiplicities.new ≡ step reliabilities.now multiplicities.old }
    ensures led { Led (code_on alphabet) reliabilities.now multiplicities.new n leaders.new }
{
    let b = best(alphabet, n, reliabilities, multiplicities, leaders);
    if reliabilities[b] == 0 || multiplicities[b] == GREATEST_ENTRY {
        return true;
    }
    multiplicities[b] += 1;
    let i = b / alphabet.symbols();
    leaders[i] = shares::best_of_column(alphabet, reliabilities, multiplicities, i);
    false
}

// From zeros, the leaders in their own room; it answers the steps done.
fn plan_with(
    alphabet: Alphabet,
    n: usize,
    reliabilities: &[u16],
    steps: usize,
    multiplicities: &mut [u8],
    leaders: &mut [usize],
) -> usize
    requires { Weights (code_on alphabet) n reliabilities.now × (multiplicities.old ≡ replicate (length reliabilities.now) 0) × (length leaders.old ≡ (code_on alphabet).positions) }
    ensures done { result ≡ steps_done reliabilities.now steps }
    ensures memory { multiplicities.new ≡ plan reliabilities.now steps }
{
    lay_leaders(alphabet, n, reliabilities, multiplicities, leaders);
    for s in 0..steps {
        if step(alphabet, n, reliabilities, multiplicities, leaders) {
            return s;
        }
    }
    steps
}

// From zeros; it answers the steps done.
pub fn plan_into(
    alphabet: Alphabet,
    n: usize,
    reliabilities: &[u16],
    steps: usize,
    multiplicities: &mut [u8],
) -> usize
    requires { Weights (code_on alphabet) n reliabilities.now × (multiplicities.old ≡ replicate (length reliabilities.now) 0) }
    ensures done { result ≡ steps_done reliabilities.now steps }
    ensures memory { multiplicities.new ≡ plan reliabilities.now steps }
{
    let mut leaders = [0usize; MOST_POSITIONS];
    let positions = alphabet.positions();
    plan_with(
        alphabet,
        n,
        reliabilities,
        steps,
        multiplicities,
        &mut leaders[..positions],
    )
}
