// What passed the checks of its table before the plan.
ghost use Rattle.std.specs.Prelude.{[], ◌∷◌, ◌≡◌, ◌*◌, ◌≤◌, length, take};
ghost use Rattle.alphabet.specs.Codes.{code_on};
ghost use Rattle.definitions.specs.Answers.{refused};
ghost use Rattle.definitions.specs.Planning.{steps_done, ruled, planned};
ghost use Rattle.definitions.specs.Refusals.{tried};
ghost use Rattle.planner.specs.Planned.{told_planned};
ghost use Rattle.steps.specs.Entries.{Weights};

use crate::Planned;
use alphabet::{Alphabet, MOST_PLACES};
use refusals::{Refusal, checks};

// The plan of n positions stands in front of the entries.
pub fn check_entries(
    alphabet: Alphabet,
    n: usize,
    reliabilities: &[u16],
    steps: usize,
    entries: &[u8],
) -> Result<Planned, Refusal>
    requires { Weights (code_on alphabet) n reliabilities.now × ((code_on alphabet).symbols * n ≤ length entries.now) }
    ensures { told_planned result ≡ tried (ruled reliabilities.now steps (take ((code_on alphabet).symbols * n) entries.now) ∷ []) refused (planned 0 (steps_done reliabilities.now steps)) }
{
    let mut rule = [0u8; MOST_PLACES];
    let used = reliabilities.len();
    let done = steps::plan_into(alphabet, n, reliabilities, steps, &mut rule[..used]);
    let same = memory::same_up_to(used, entries, &rule);
    checks::refuse_if(!same, Refusal::Plan)?;
    Ok(Planned {
        count: 0,
        steps: done,
    })
}
