// A planner for multiplicities, and plans from outside.
ghost use Rattle.std.specs.Prelude.{◌≡◌, ◌≤◌};
ghost use Rattle.alphabet.specs.Codes.{code_on};
ghost use Rattle.crossing.specs.Crossing.{answer_of};
ghost use Rattle.definitions.specs.Limits.{greatest_rows};
ghost use Rattle.definitions.specs.Planning.{plan_answer, plan_out, check_answer, plan_list_answer, plan_list_rows, plan_list_scores};

use alphabet::Alphabet;
use crossing::Answer;

#[tactic(auto, using(crate::proofs::PlanFits::plan_narrow))]
pub fn plan(
    alphabet: Alphabet,
    n: usize,
    steps: usize,
    reliabilities: &[u16],
    out: &mut [u8],
) -> Answer
    ensures answer { answer_of result ≡ plan_answer (code_on alphabet) n steps reliabilities.now out.old }
    ensures memory { out.new ≡ plan_out (code_on alphabet) n steps reliabilities.now out.old }
{
    crossing::planned(planner::plan(alphabet, n, steps, reliabilities, out))
}

#[tactic(auto, using(crate::proofs::PlanFits::check_narrow))]
pub fn check_plan(
    alphabet: Alphabet,
    n: usize,
    steps: usize,
    reliabilities: &[u16],
    plan: &[u8],
) -> Answer
    ensures { answer_of result ≡ check_answer (code_on alphabet) n steps reliabilities.now plan.now }
{
    crossing::planned(planner::check_plan(alphabet, n, steps, reliabilities, plan))
}

#[tactic(auto, using(crossing::proofs::Crossed::few_fit, crossing::proofs::Crossed::list_crosses, crate::proofs::PlanFits::plan_list_narrow))]
pub fn list_of_plan(
    alphabet: Alphabet,
    n: usize,
    k: usize,
    limit: usize,
    steps: usize,
    reliabilities: &[u16],
    plan: &[u8],
    rows: &mut [u8],
    scores: &mut [u16],
) -> Answer
    ensures answer { answer_of result ≡ plan_list_answer (code_on alphabet) n k limit steps reliabilities.now plan.now rows.old scores.old }
    ensures row_memory { rows.new ≡ plan_list_rows (code_on alphabet) n k limit steps reliabilities.now plan.now rows.old scores.old }
    ensures score_memory { scores.new ≡ plan_list_scores (code_on alphabet) n k limit steps reliabilities.now plan.now rows.old scores.old }
    ensures few { (answer_of result).count ≤ greatest_rows }
{
    crossing::counted(offers::list_of_plan(
        alphabet,
        n,
        k,
        limit,
        steps,
        reliabilities,
        plan,
        rows,
        scores,
    ))
}
