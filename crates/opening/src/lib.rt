// The row that the counter opens, handed back where it lies.

#![tactic(auto)]

ghost use Rattle.std.specs.Prelude.{◌≡◌};
ghost use Rattle.alphabet.specs.Codes.{code_on};
ghost use Rattle.opening.specs.Handing.{part_at, opened, both_opened};

use alphabet::Alphabet;
use counter::{Settings, Verdict};

// The row that is opened, where it lies; an empty part where none is.
pub fn opened<'a, 's>(
    alphabet: Alphabet,
    k: usize,
    rows: &'a [u8],
    scores: &'s [u16],
    lead: usize,
) -> &'a [u8]
    ensures { part_at result ≡ opened (code_on alphabet) k rows.entry scores.now lead }
{
    match counter::judge(alphabet, k, rows, scores, lead) {
        Ok(Verdict::Open) => rows::row(k, rows, 0),
        _ => &rows[..0],
    }
}

// The row that is opened, in the list that is judged; an empty part of the first where none is.
pub fn opened_both<'a, 's, 't>(
    alphabet: Alphabet,
    first: Settings,
    rows: &'a [u8],
    scores: &'s [u16],
    second: Settings,
    others: &'a [u8],
    other_scores: &'t [u16],
    lead: usize,
) -> &'a [u8]
    ensures { part_at result ≡ both_opened (code_on alphabet) first rows.entry scores.now second others.entry other_scores.now lead }
{
    match counter::judge_both(
        alphabet,
        first,
        rows,
        scores,
        second,
        others,
        other_scores,
        lead,
    ) {
        Ok(Verdict::Open) => {
            if scores.is_empty() {
                rows::row(first.k, others, 0)
            } else {
                rows::row(first.k, rows, 0)
            }
        }
        _ => &rows[..0],
    }
}
