// The counter's entries: no reference is handed back.
ghost use Rattle.std.specs.Prelude.{◌≡◌};
ghost use Rattle.alphabet.specs.Codes.{code_on};
ghost use Rattle.counter.specs.Judging.{judge_answer, both_answer};
ghost use Rattle.crossing.specs.Part.{judgement_of, settings_of, holder, part_answer};

use alphabet::Alphabet;
use counter::Settings;
use crossing::judgements::Judgement;

pub fn judge(alphabet: Alphabet, k: usize, rows: &[u8], scores: &[u16], lead: usize) -> Judgement
    ensures { judgement_of result ≡ judge_answer (code_on alphabet) k rows.now scores.now lead }
{
    crossing::judgements::judged(counter::judge(alphabet, k, rows, scores, lead))
}

pub fn part(alphabet: Alphabet, k: usize, rows: &[u8], scores: &[u16], lead: usize) -> Judgement
    ensures { judgement_of result ≡ part_answer (judge_answer (code_on alphabet) k rows.now scores.now lead) 1 k }
{
    crossing::judgements::part(alphabet, k, rows, scores, lead)
}

pub fn judge_both(
    alphabet: Alphabet,
    n: usize,
    k: usize,
    level: usize,
    rows: &[u8],
    scores: &[u16],
    other_n: usize,
    other_k: usize,
    other_level: usize,
    others: &[u8],
    other_scores: &[u16],
    lead: usize,
) -> Judgement
    ensures { judgement_of result ≡ both_answer (code_on alphabet) (settings_of n k level) rows.now scores.now (settings_of other_n other_k other_level) others.now other_scores.now lead }
{
    let first = Settings { n, k, level };
    let second = Settings {
        n: other_n,
        k: other_k,
        level: other_level,
    };
    crossing::judgements::judged(counter::judge_both(
        alphabet,
        first,
        rows,
        scores,
        second,
        others,
        other_scores,
        lead,
    ))
}

pub fn part_of_both(
    alphabet: Alphabet,
    n: usize,
    k: usize,
    level: usize,
    rows: &[u8],
    scores: &[u16],
    other_n: usize,
    other_k: usize,
    other_level: usize,
    others: &[u8],
    other_scores: &[u16],
    lead: usize,
) -> Judgement
    ensures { judgement_of result ≡ part_answer (both_answer (code_on alphabet) (settings_of n k level) rows.now scores.now (settings_of other_n other_k other_level) others.now other_scores.now lead) (holder scores.now) k }
{
    let first = Settings { n, k, level };
    let second = Settings {
        n: other_n,
        k: other_k,
        level: other_level,
    };
    crossing::judgements::part_of_both(
        alphabet,
        first,
        rows,
        scores,
        second,
        others,
        other_scores,
        lead,
    )
}
