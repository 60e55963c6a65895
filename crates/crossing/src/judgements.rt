// How a judgement crosses to C: by value, in a struct of its own, for a place of a long list does not fit sixteen bits.
ghost use Rattle.std.specs.Prelude.{true, ◌≡◌, ◌<◌};
ghost use Rattle.alphabet.specs.Codes.{code_on};
ghost use Rattle.counter.specs.Judging.{judge_answer, both_answer};
ghost use Rattle.counter.specs.Verdict.{told_verdict};
ghost use Rattle.crossing.specs.Part.{judgement_of, holder, part_answer};
ghost use Rattle.definitions.specs.Answers.{valued};
ghost use Rattle.opening.specs.Handing.{is_open};
ghost use Rattle.refusals.specs.Refusal.{told_refusal};

use alphabet::Alphabet;
use counter::{Settings, Verdict};
use refusals::Refusal;

#[repr(C)]
#[derive(Clone, Copy)]
pub struct Judgement {
    pub place: u64,
    pub number: u16,
    pub value: u16,
    pub count: u16,
}

fn refused(r: Refusal) -> Judgement
    ensures { judgement_of result ≡ told_refusal r }
{
    Judgement {
        place: r.place() as u64,
        number: r.number() as u16,
        value: 0,
        count: 0,
    }
}

fn valued(value: u16) -> Judgement
    ensures { judgement_of result ≡ valued value }
{
    Judgement {
        place: 0,
        number: 0,
        value,
        count: 0,
    }
}

pub fn judged(v: Result<Verdict, Refusal>) -> Judgement
    ensures { judgement_of result ≡ told_verdict v }
{
    match v {
        Ok(Verdict::Open) => valued(1),
        Ok(Verdict::Ask) => valued(2),
        Ok(Verdict::Nothing) => valued(3),
        Err(r) => refused(r),
    }
}

// In place of the part: the list that holds the row, and its count of symbols.
fn told_part(verdict: Judgement, list: u16, k: usize) -> Judgement
    requires { is_open (judgement_of verdict) ≡ true → k < 65536 }
    ensures { judgement_of result ≡ part_answer (judgement_of verdict) list k }
{
    if verdict.value == 1 {
        return Judgement {
            value: list,
            count: k as u16,
            ..verdict
        };
    }
    Judgement {
        value: 0,
        count: 0,
        ..verdict
    }
}

fn holder(scores: &[u16]) -> u16
    ensures { result ≡ holder scores.now }
{
    if scores.is_empty() { 2 } else { 1 }
}

pub fn part(alphabet: Alphabet, k: usize, rows: &[u8], scores: &[u16], lead: usize) -> Judgement
    ensures { judgement_of result ≡ part_answer (judge_answer (code_on alphabet) k rows.now scores.now lead) 1 k }
{
    told_part(
        judged(counter::judge(alphabet, k, rows, scores, lead)),
        1,
        k,
    )
}

pub fn part_of_both(
    alphabet: Alphabet,
    first: Settings,
    rows: &[u8],
    scores: &[u16],
    second: Settings,
    others: &[u8],
    other_scores: &[u16],
    lead: usize,
) -> Judgement
    ensures { judgement_of result ≡ part_answer (both_answer (code_on alphabet) first rows.now scores.now second others.now other_scores.now lead) (holder scores.now) first.k }
{
    let k = first.k;
    let verdict = judged(counter::judge_both(
        alphabet,
        first,
        rows,
        scores,
        second,
        others,
        other_scores,
        lead,
    ));
    told_part(verdict, holder(scores), k)
}
