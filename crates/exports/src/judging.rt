// The counter's entries for C: no reference is handed back.
ghost use Rattle.std.specs.Prelude.{◌≡◌};
ghost use Rattle.counter.specs.Judging.{judge_answer, both_answer};
ghost use Rattle.crossing.specs.Part.{judgement_of, settings_of, holder, part_answer};
ghost use Rattle.definitions.specs.Field.{sixteen};

use alphabet::Alphabet;
use crossing::judgements::Judgement;

#[unsafe(no_mangle)]
pub extern "C" fn kv_judge(k: usize, rows: &[u8], scores: &[u16], lead: usize) -> Judgement
    ensures { judgement_of result ≡ judge_answer sixteen k rows.now scores.now lead }
{
    entries::judging::judge(Alphabet::Sixteen, k, rows, scores, lead)
}

#[unsafe(no_mangle)]
pub extern "C" fn kv_open(k: usize, rows: &[u8], scores: &[u16], lead: usize) -> Judgement
    ensures { judgement_of result ≡ part_answer (judge_answer sixteen k rows.now scores.now lead) 1 k }
{
    entries::judging::part(Alphabet::Sixteen, k, rows, scores, lead)
}

#[unsafe(no_mangle)]
pub extern "C" fn kv_judge_both(
    n: usize,
    k: usize,
    level: usize,
    rows: &[u8],
    scores: &[u16],
    other_n: usize,
    other_k: usize,
    other_level: usize,
    others: &[u8],
    other_scores: &[u16],
    lead: usize,
) -> Judgement
    ensures { judgement_of result ≡ both_answer sixteen (settings_of n k level) rows.now scores.now (settings_of other_n other_k other_level) others.now other_scores.now lead }
{
    entries::judging::judge_both(
        Alphabet::Sixteen,
        n,
        k,
        level,
        rows,
        scores,
        other_n,
        other_k,
        other_level,
        others,
        other_scores,
        lead,
    )
}

#[unsafe(no_mangle)]
pub extern "C" fn kv_open_both(
    n: usize,
    k: usize,
    level: usize,
    rows: &[u8],
    scores: &[u16],
    other_n: usize,
    other_k: usize,
    other_level: usize,
    others: &[u8],
    other_scores: &[u16],
    lead: usize,
) -> Judgement
    ensures { judgement_of result ≡ part_answer (both_answer sixteen (settings_of n k level) rows.now scores.now (settings_of other_n other_k other_level) others.now other_scores.now lead) (holder scores.now) k }
{
    entries::judging::part_of_both(
        Alphabet::Sixteen,
        n,
        k,
        level,
        rows,
        scores,
        other_n,
        other_k,
        other_level,
        others,
        other_scores,
        lead,
    )
}
