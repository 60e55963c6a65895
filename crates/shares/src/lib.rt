// The place that leads others: of two, and of a position's symbols.

#![tactic(auto)]

ghost use Rattle.std.specs.Prelude.{cond, ◌≡◌, ◌+◌, ◌*◌, ◌≤◌, ◌<◌, length};
ghost use Rattle.alphabet.specs.Codes.{code_on};
ghost use Rattle.definitions.specs.Planning.{beats};
ghost use Rattle.plans.specs.Leads.{LeadsColumn};

use alphabet::Alphabet;

// Two quotients are compared by these products: a reliability with the other's multiplicity and one.
fn times(reliability: u16, multiplicity: u8) -> usize
    ensures { result ≡ reliability * (multiplicity + 1) }
{
    usize::from(reliability) * (usize::from(multiplicity) + 1)
}

// The place whose quotient is larger, the earlier one where they tie.
#[tactic(auto, using(plans::proofs::Leads::later_wins, plans::proofs::Leads::earlier_wins))]
pub fn better(reliabilities: &[u16], multiplicities: &[u8], earlier: usize, later: usize) -> usize
    requires { (earlier < length reliabilities.now) × (later < length reliabilities.now) × (length multiplicities.now ≡ length reliabilities.now) }
    ensures { result ≡ cond (beats reliabilities.now multiplicities.now later earlier) later earlier }
{
    let kept = times(reliabilities[earlier], multiplicities[later]);
    let new = times(reliabilities[later], multiplicities[earlier]);
    if kept < new { later } else { earlier }
}

// The best place of a position's symbols.
#[tactic(auto, using(plans::proofs::Leads::leads_itself))]
pub fn best_of_column(
    alphabet: Alphabet,
    reliabilities: &[u16],
    multiplicities: &[u8],
    i: usize,
) -> usize
    requires { (i < (code_on alphabet).positions) × ((code_on alphabet).symbols * i + (code_on alphabet).symbols ≤ length reliabilities.now) × (length multiplicities.now ≡ length reliabilities.now) }
    ensures { LeadsColumn (code_on alphabet) reliabilities.now multiplicities.now i result }
{
    let symbols = alphabet.symbols();
    let first = symbols * i;
    let mut leading = first;
    for place in first + 1..first + symbols {
        leading = better(reliabilities, multiplicities, leading, place);
    }
    leading
}
