// The entries of a matrix record: n and cost are numbers, totals and entries lent memory that an edit writes in place.

#![tactic(auto)]

ghost use Rattle.std.specs.Prelude.{◌≡◌, ◌≤◌};
ghost use Rattle.alphabet.specs.Codes.{code_on};
ghost use Rattle.crossing.specs.Crossing.{answer_of};
ghost use Rattle.definitions.specs.Editing.{lent_fresh_held, lent_fresh_answer, lent_bytes_held, lent_bytes_answer, set_held, set_answer, clear_held, clear_answer, add_held, add_answer, held_cost_answer, HeldInterpolationAnswers, held_list_answer, held_list_rows, held_list_scores};
ghost use Rattle.definitions.specs.Held.{held};
ghost use Rattle.definitions.specs.Limits.{greatest_rows};
ghost use Rattle.definitions.specs.Planning.{held_check_answer, held_plan_list_answer, held_plan_list_rows, held_plan_list_scores};
ghost use Rattle.definitions.specs.Proposals.{held_proposal_answer, held_proposal_list_answer, held_proposal_list_rows, held_proposal_list_scores};

use alphabet::Alphabet;
use crossing::Answer;

#[tactic(auto, using(crate::proofs::Fits::fresh_narrow))]
pub fn matrix_fresh(alphabet: Alphabet, n: usize, totals: &mut [u16], entries: &mut [u8]) -> Answer
    ensures answer { answer_of result ≡ lent_fresh_answer (code_on alphabet) n totals.old entries.old }
    ensures total_memory { totals.new ≡ (lent_fresh_held (code_on alphabet) n totals.old entries.old).totals }
    ensures entry_memory { entries.new ≡ (lent_fresh_held (code_on alphabet) n totals.old entries.old).entries }
{
    crossing::priced(editing::parts::fresh(alphabet, n, totals, entries))
}

#[tactic(auto, using(crate::proofs::Fits::bytes_narrow))]
pub fn matrix_of_bytes(
    alphabet: Alphabet,
    n: usize,
    bytes: &[u8],
    totals: &mut [u16],
    entries: &mut [u8],
) -> Answer
    ensures answer { answer_of result ≡ lent_bytes_answer (code_on alphabet) n bytes.now totals.old entries.old }
    ensures total_memory { totals.new ≡ (lent_bytes_held (code_on alphabet) n bytes.now totals.old entries.old).totals }
    ensures entry_memory { entries.new ≡ (lent_bytes_held (code_on alphabet) n bytes.now totals.old entries.old).entries }
{
    crossing::priced(editing::parts::of_bytes(alphabet, n, bytes, totals, entries))
}

pub fn matrix_set_entry(
    alphabet: Alphabet,
    n: usize,
    cost: usize,
    totals: &mut [u16],
    entries: &mut [u8],
    position: usize,
    symbol: usize,
    entry: u8,
) -> Answer
    ensures answer { answer_of result ≡ set_answer (code_on alphabet) (held n cost totals.old entries.old) position symbol entry }
    ensures total_memory { totals.new ≡ (set_held (code_on alphabet) (held n cost totals.old entries.old) position symbol entry).totals }
    ensures entry_memory { entries.new ≡ (set_held (code_on alphabet) (held n cost totals.old entries.old) position symbol entry).entries }
{
    crossing::priced(editing::parts::set_entry(
        alphabet, n, cost, totals, entries, position, symbol, entry,
    ))
}

pub fn matrix_clear_column(
    alphabet: Alphabet,
    n: usize,
    cost: usize,
    totals: &mut [u16],
    entries: &mut [u8],
    position: usize,
) -> Answer
    ensures answer { answer_of result ≡ clear_answer (code_on alphabet) (held n cost totals.old entries.old) position }
    ensures total_memory { totals.new ≡ (clear_held (code_on alphabet) (held n cost totals.old entries.old) position).totals }
    ensures entry_memory { entries.new ≡ (clear_held (code_on alphabet) (held n cost totals.old entries.old) position).entries }
{
    crossing::priced(editing::parts::clear_column(alphabet, n, cost, totals, entries, position))
}

pub fn matrix_add(
    alphabet: Alphabet,
    n: usize,
    cost: usize,
    totals: &mut [u16],
    entries: &mut [u8],
    other_n: usize,
    other_cost: usize,
    other_totals: &[u16],
    other_entries: &[u8],
) -> Answer
    ensures answer { answer_of result ≡ add_answer (code_on alphabet) (held n cost totals.old entries.old) (held other_n other_cost other_totals.now other_entries.now) }
    ensures total_memory { totals.new ≡ (add_held (code_on alphabet) (held n cost totals.old entries.old) (held other_n other_cost other_totals.now other_entries.now)).totals }
    ensures entry_memory { entries.new ≡ (add_held (code_on alphabet) (held n cost totals.old entries.old) (held other_n other_cost other_totals.now other_entries.now)).entries }
{
    crossing::priced(editing::parts::add(
        alphabet,
        n,
        cost,
        totals,
        entries,
        other_n,
        other_cost,
        other_totals,
        other_entries,
    ))
}

pub fn matrix_cost_and_bound(
    alphabet: Alphabet,
    n: usize,
    cost: usize,
    totals: &[u16],
    entries: &[u8],
    k: usize,
) -> Answer
    ensures { answer_of result ≡ held_cost_answer (code_on alphabet) (held n cost totals.now entries.now) k }
{
    crossing::costed(weights::cost_and_bound_of_parts(alphabet, n, cost, totals, entries, k))
}

pub fn matrix_interpolate(
    alphabet: Alphabet,
    n: usize,
    cost: usize,
    totals: &[u16],
    entries: &[u8],
    k: usize,
    limit: usize,
    out: &mut [u8],
) -> Answer
    ensures { HeldInterpolationAnswers (code_on alphabet) (held n cost totals.now entries.now) k limit out.old (answer_of result) out.new }
{
    crossing::interpolated(interpolation::interpolate_parts(
        alphabet, n, cost, totals, entries, k, limit, out,
    ))
}

#[tactic(auto, using(crossing::proofs::Crossed::few_fit, crossing::proofs::Crossed::list_crosses, crate::proofs::Fits::held_list_narrow))]
pub fn matrix_list(
    alphabet: Alphabet,
    n: usize,
    cost: usize,
    totals: &[u16],
    entries: &[u8],
    k: usize,
    limit: usize,
    rows: &mut [u8],
    scores: &mut [u16],
) -> Answer
    ensures answer { answer_of result ≡ held_list_answer (code_on alphabet) (held n cost totals.now entries.now) k limit rows.old scores.old }
    ensures row_memory { rows.new ≡ held_list_rows (code_on alphabet) (held n cost totals.now entries.now) k limit rows.old scores.old }
    ensures score_memory { scores.new ≡ held_list_scores (code_on alphabet) (held n cost totals.now entries.now) k limit rows.old scores.old }
    ensures few { (answer_of result).count ≤ greatest_rows }
{
    crossing::counted(list::list_of_parts(
        alphabet, n, cost, totals, entries, k, limit, rows, scores,
    ))
}

pub fn matrix_check_plan(
    alphabet: Alphabet,
    n: usize,
    cost: usize,
    totals: &[u16],
    entries: &[u8],
    steps: usize,
    reliabilities: &[u16],
) -> Answer
    ensures { answer_of result ≡ held_check_answer (code_on alphabet) (held n cost totals.now entries.now) steps reliabilities.now }
{
    crossing::planned(planner::check_plan_of_parts(
        alphabet,
        n,
        cost,
        totals,
        entries,
        steps,
        reliabilities,
    ))
}

#[tactic(auto, using(crossing::proofs::Crossed::few_fit, crossing::proofs::Crossed::list_crosses, crate::proofs::Fits::held_plan_list_narrow))]
pub fn matrix_list_of_plan(
    alphabet: Alphabet,
    n: usize,
    cost: usize,
    totals: &[u16],
    entries: &[u8],
    k: usize,
    limit: usize,
    steps: usize,
    reliabilities: &[u16],
    rows: &mut [u8],
    scores: &mut [u16],
) -> Answer
    ensures answer { answer_of result ≡ held_plan_list_answer (code_on alphabet) (held n cost totals.now entries.now) k limit steps reliabilities.now rows.old scores.old }
    ensures row_memory { rows.new ≡ held_plan_list_rows (code_on alphabet) (held n cost totals.now entries.now) k limit steps reliabilities.now rows.old scores.old }
    ensures score_memory { scores.new ≡ held_plan_list_scores (code_on alphabet) (held n cost totals.now entries.now) k limit steps reliabilities.now rows.old scores.old }
    ensures few { (answer_of result).count ≤ greatest_rows }
{
    crossing::counted(offers::list_of_plan_of_parts(
        alphabet,
        n,
        cost,
        totals,
        entries,
        k,
        limit,
        steps,
        reliabilities,
        rows,
        scores,
    ))
}

pub fn matrix_check_proposal(
    alphabet: Alphabet,
    n: usize,
    cost: usize,
    totals: &[u16],
    entries: &[u8],
    k: usize,
    degree: usize,
    coefficients: &[u8],
) -> Answer
    ensures { answer_of result ≡ held_proposal_answer (code_on alphabet) (held n cost totals.now entries.now) k degree coefficients.now }
{
    crossing::proposed(proposals::check_proposal_of_parts(
        alphabet,
        n,
        cost,
        totals,
        entries,
        k,
        degree,
        coefficients,
    ))
}

#[tactic(auto, using(crossing::proofs::Crossed::few_fit, crossing::proofs::Crossed::list_crosses, crate::proofs::Fits::held_proposal_list_narrow))]
pub fn matrix_list_of_proposal(
    alphabet: Alphabet,
    n: usize,
    cost: usize,
    totals: &[u16],
    entries: &[u8],
    k: usize,
    limit: usize,
    degree: usize,
    coefficients: &[u8],
    rows: &mut [u8],
    scores: &mut [u16],
) -> Answer
    ensures answer { answer_of result ≡ held_proposal_list_answer (code_on alphabet) (held n cost totals.now entries.now) k limit degree coefficients.now rows.old scores.old }
    ensures row_memory { rows.new ≡ held_proposal_list_rows (code_on alphabet) (held n cost totals.now entries.now) k limit degree coefficients.now rows.old scores.old }
    ensures score_memory { scores.new ≡ held_proposal_list_scores (code_on alphabet) (held n cost totals.now entries.now) k limit degree coefficients.now rows.old scores.old }
    ensures few { (answer_of result).count ≤ greatest_rows }
{
    crossing::counted(proposals::list_of_proposal_of_parts(
        alphabet,
        n,
        cost,
        totals,
        entries,
        k,
        limit,
        degree,
        coefficients,
        rows,
        scores,
    ))
}
