// A planner for multiplicities, and plans from outside, for C.
ghost use Rattle.std.specs.Prelude.{◌≡◌, ◌≤◌};
ghost use Rattle.crossing.specs.Crossing.{answer_of};
ghost use Rattle.definitions.specs.Field.{sixteen};
ghost use Rattle.definitions.specs.Held.{held};
ghost use Rattle.definitions.specs.Limits.{greatest_rows};
ghost use Rattle.definitions.specs.Planning.{plan_answer, plan_out, check_answer, plan_list_answer, plan_list_rows, plan_list_scores, held_check_answer, held_plan_list_answer, held_plan_list_rows, held_plan_list_scores};

use alphabet::Alphabet;
use crossing::Answer;

#[unsafe(no_mangle)]
pub extern "C" fn kv_plan(n: usize, steps: usize, reliabilities: &[u16], out: &mut [u8]) -> Answer
    ensures answer { answer_of result ≡ plan_answer sixteen n steps reliabilities.now out.old }
    ensures memory { out.new ≡ plan_out sixteen n steps reliabilities.now out.old }
{
    entries::planning::plan(Alphabet::Sixteen, n, steps, reliabilities, out)
}

#[unsafe(no_mangle)]
pub extern "C" fn kv_check_plan(
    n: usize,
    steps: usize,
    reliabilities: &[u16],
    plan: &[u8],
) -> Answer
    ensures { answer_of result ≡ check_answer sixteen n steps reliabilities.now plan.now }
{
    entries::planning::check_plan(Alphabet::Sixteen, n, steps, reliabilities, plan)
}

#[unsafe(no_mangle)]
pub extern "C" fn kv_list_of_plan(
    n: usize,
    k: usize,
    limit: usize,
    steps: usize,
    reliabilities: &[u16],
    plan: &[u8],
    rows: &mut [u8],
    scores: &mut [u16],
) -> Answer
    ensures answer { answer_of result ≡ plan_list_answer sixteen n k limit steps reliabilities.now plan.now rows.old scores.old }
    ensures row_memory { rows.new ≡ plan_list_rows sixteen n k limit steps reliabilities.now plan.now rows.old scores.old }
    ensures score_memory { scores.new ≡ plan_list_scores sixteen n k limit steps reliabilities.now plan.now rows.old scores.old }
    ensures few { (answer_of result).count ≤ greatest_rows }
{
    entries::planning::list_of_plan(
        Alphabet::Sixteen,
        n,
        k,
        limit,
        steps,
        reliabilities,
        plan,
        rows,
        scores,
    )
}

#[unsafe(no_mangle)]
pub extern "C" fn kv_matrix_check_plan(
    n: usize,
    cost: usize,
    totals: &[u16],
    entries: &[u8],
    steps: usize,
    reliabilities: &[u16],
) -> Answer
    ensures { answer_of result ≡ held_check_answer sixteen (held n cost totals.now entries.now) steps reliabilities.now }
{
    record_entries::matrix_check_plan(
        Alphabet::Sixteen,
        n,
        cost,
        totals,
        entries,
        steps,
        reliabilities,
    )
}

#[unsafe(no_mangle)]
pub extern "C" fn kv_matrix_list_of_plan(
    n: usize,
    cost: usize,
    totals: &[u16],
    entries: &[u8],
    k: usize,
    limit: usize,
    steps: usize,
    reliabilities: &[u16],
    rows: &mut [u8],
    scores: &mut [u16],
) -> Answer
    ensures answer { answer_of result ≡ held_plan_list_answer sixteen (held n cost totals.now entries.now) k limit steps reliabilities.now rows.old scores.old }
    ensures row_memory { rows.new ≡ held_plan_list_rows sixteen (held n cost totals.now entries.now) k limit steps reliabilities.now rows.old scores.old }
    ensures score_memory { scores.new ≡ held_plan_list_scores sixteen (held n cost totals.now entries.now) k limit steps reliabilities.now rows.old scores.old }
    ensures few { (answer_of result).count ≤ greatest_rows }
{
    record_entries::matrix_list_of_plan(
        Alphabet::Sixteen,
        n,
        cost,
        totals,
        entries,
        k,
        limit,
        steps,
        reliabilities,
        rows,
        scores,
    )
}
