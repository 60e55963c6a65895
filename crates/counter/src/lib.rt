// The counter's part: one list judged, and two judged together. It knows the library's lists by their promises alone.

#![tactic(auto)]

ghost use Rattle.std.specs.Prelude.{◌≡◌, ◌*◌, ◌≤◌, length};
ghost use Rattle.alphabet.specs.Codes.{code_on};
ghost use Rattle.counter.specs.Judging.{judged, apart, both_judged, judge_answer, both_answer};
ghost use Rattle.counter.specs.Verdict.{verdict_number, told_verdict};

use alphabet::Alphabet;
use refusals::{Refusal, checks};

#[derive(Clone, Copy)]
pub enum Verdict {
    Open,
    Ask,
    Nothing,
}

// What a list was made with.
#[derive(Clone, Copy, PartialEq, Eq)]
pub struct Settings {
    pub n: usize,
    pub k: usize,
    pub level: usize,
}

// A lead is taken from the first score, so no sum is too large.
fn judged(scores: &[u16], lead: usize) -> Verdict
    ensures { verdict_number result ≡ judged lead scores.now }
{
    match scores {
        [] => Verdict::Nothing,
        [_] => Verdict::Open,
        [first, second, ..] => {
            let first = usize::from(*first);
            let second = usize::from(*second);
            if first < lead || first - lead < second {
                Verdict::Ask
            } else {
                Verdict::Open
            }
        }
    }
}

pub fn judge(
    alphabet: Alphabet,
    k: usize,
    rows: &[u8],
    scores: &[u16],
    lead: usize,
) -> Result<Verdict, Refusal>
    ensures { told_verdict result ≡ judge_answer (code_on alphabet) k rows.now scores.now lead }
{
    checks::size(alphabet, k)?;
    checks::refuse_if(lead == 0, Refusal::Setting)?;
    rows::list_checked(k, rows, scores)?;
    checks::symbols_of(alphabet, rows)?;
    Ok(judged(scores, lead))
}

// Both have rows, and their first messages differ.
fn apart(k: usize, rows: &[u8], scores: &[u16], others: &[u8], other_scores: &[u16]) -> bool
    requires { (k * length scores.now ≤ length rows.now) × (k * length other_scores.now ≤ length others.now) }
    ensures { result ≡ apart k rows.now scores.now others.now other_scores.now }
{
    match (scores, other_scores) {
        ([], _) | (_, []) => false,
        _ => !rows::same(rows::row(k, rows, 0), rows::row(k, others, 0)),
    }
}

fn both_judged(
    k: usize,
    rows: &[u8],
    scores: &[u16],
    others: &[u8],
    other_scores: &[u16],
    lead: usize,
) -> Verdict
    requires { (k * length scores.now ≤ length rows.now) × (k * length other_scores.now ≤ length others.now) }
    ensures { verdict_number result ≡ both_judged k lead rows.now scores.now others.now other_scores.now }
{
    if apart(k, rows, scores, others, other_scores) {
        Verdict::Ask
    } else if scores.is_empty() {
        judged(other_scores, lead)
    } else {
        judged(scores, lead)
    }
}

pub fn judge_both(
    alphabet: Alphabet,
    first: Settings,
    rows: &[u8],
    scores: &[u16],
    second: Settings,
    others: &[u8],
    other_scores: &[u16],
    lead: usize,
) -> Result<Verdict, Refusal>
    ensures { told_verdict result ≡ both_answer (code_on alphabet) first rows.now scores.now second others.now other_scores.now lead }
{
    checks::sizes(alphabet, first.n, first.k)?;
    checks::sizes(alphabet, second.n, second.k)?;
    checks::level(first.level)?;
    checks::level(second.level)?;
    checks::refuse_if(lead == 0, Refusal::Setting)?;
    checks::refuse_if(first != second, Refusal::Setting)?;
    rows::list_checked(first.k, rows, scores)?;
    rows::list_checked(second.k, others, other_scores)?;
    checks::symbols_of(alphabet, rows)?;
    checks::symbols_of_after(alphabet, rows.len(), others)?;
    Ok(both_judged(first.k, rows, scores, others, other_scores, lead))
}
