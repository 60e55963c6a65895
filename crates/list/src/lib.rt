// The list: every message whose codeword's score is above the bound, and no other.

#![tactic(auto)]

ghost use Rattle.std.specs.Prelude.{◌≡◌, ◌≤◌};
ghost use Rattle.alphabet.specs.Codes.{code_on};
ghost use Rattle.definitions.specs.Answers.{list_answer, list_rows, list_scores, read_answer, read_rows, read_scores};
ghost use Rattle.definitions.specs.Editing.{held_list_answer, held_list_rows, held_list_scores};
ghost use Rattle.definitions.specs.Field.{sixteen};
ghost use Rattle.definitions.specs.Held.{held};
ghost use Rattle.definitions.specs.Limits.{greatest_rows};
ghost use Rattle.matrix.specs.Record.{held_by};
ghost use Rattle.refusals.specs.Told.{told_counted};

use alphabet::{Alphabet, MOST_PLACES};
use matrix::Matrix;
use refusals::limits::{GREATEST_ENTRY, GREATEST_LIMIT, GREATEST_ROWS};
use refusals::{Refusal, checks};

pub fn list_of_multiplicities(
    alphabet: Alphabet,
    n: usize,
    k: usize,
    limit: usize,
    matrix: &[u8],
    rows: &mut [u8],
    scores: &mut [u16],
) -> Result<usize, Refusal>
    ensures answer { told_counted result ≡ list_answer (code_on alphabet) n k limit matrix.now rows.old scores.old }
    ensures row_memory { rows.new ≡ list_rows (code_on alphabet) n k limit matrix.now rows.old scores.old }
    ensures score_memory { scores.new ≡ list_scores (code_on alphabet) n k limit matrix.now rows.old scores.old }
    ensures few { (told_counted result).count ≤ greatest_rows }
{
    checks::sizes(alphabet, n, k)?;
    checks::refuse_if(GREATEST_LIMIT < limit, Refusal::Setting)?;
    checks::entries(alphabet, matrix.len(), n)?;
    checks::room(rows.len(), GREATEST_ROWS, k)?;
    checks::refuse_if(scores.len() < GREATEST_ROWS, Refusal::Room)?;
    checks::symbols(GREATEST_ENTRY, matrix)?;
    let mut entries = [0u8; MOST_PLACES];
    let cost = turning::turn(alphabet, matrix, &mut entries);
    list_within::list_priced(alphabet, &entries, n, cost, k, limit, rows, scores)
}

pub fn list_of_reliabilities(
    alphabet: Alphabet,
    n: usize,
    k: usize,
    level: usize,
    limit: usize,
    reliabilities: &[u16],
    rows: &mut [u8],
    scores: &mut [u16],
) -> Result<usize, Refusal>
    ensures answer { told_counted result ≡ read_answer (code_on alphabet) n k level limit reliabilities.now rows.old scores.old }
    ensures row_memory { rows.new ≡ read_rows (code_on alphabet) n k level limit reliabilities.now rows.old scores.old }
    ensures score_memory { scores.new ≡ read_scores (code_on alphabet) n k level limit reliabilities.now rows.old scores.old }
    ensures few { (told_counted result).count ≤ greatest_rows }
{
    checks::sizes(alphabet, n, k)?;
    checks::level(level)?;
    checks::refuse_if(GREATEST_LIMIT < limit, Refusal::Setting)?;
    checks::entries(alphabet, reliabilities.len(), n)?;
    checks::room(rows.len(), GREATEST_ROWS, k)?;
    checks::refuse_if(scores.len() < GREATEST_ROWS, Refusal::Room)?;
    reliabilities::columns_checked(alphabet, reliabilities, n)?;
    let mut entries = [0u8; MOST_PLACES];
    let cost = weights::inside::weigh(alphabet, level, reliabilities, &mut entries);
    list_within::list_priced(alphabet, &entries, n, cost, k, limit, rows, scores)
}

// Of a matrix record whose parts are lent.
pub fn list_of_parts(
    alphabet: Alphabet,
    n: usize,
    cost: usize,
    totals: &[u16],
    entries: &[u8],
    k: usize,
    limit: usize,
    rows: &mut [u8],
    scores: &mut [u16],
) -> Result<usize, Refusal>
    ensures answer { told_counted result ≡ held_list_answer (code_on alphabet) (held n cost totals.now entries.now) k limit rows.old scores.old }
    ensures row_memory { rows.new ≡ held_list_rows (code_on alphabet) (held n cost totals.now entries.now) k limit rows.old scores.old }
    ensures score_memory { scores.new ≡ held_list_scores (code_on alphabet) (held n cost totals.now entries.now) k limit rows.old scores.old }
    ensures few { (told_counted result).count ≤ greatest_rows }
{
    checks::sizes(alphabet, n, k)?;
    checks::refuse_if(GREATEST_LIMIT < limit, Refusal::Setting)?;
    checks::refuse_if(
        !matrix::rightly(alphabet, n, cost, totals, entries),
        Refusal::Length,
    )?;
    checks::room(rows.len(), GREATEST_ROWS, k)?;
    checks::refuse_if(scores.len() < GREATEST_ROWS, Refusal::Room)?;
    checks::symbols(GREATEST_ENTRY, entries)?;
    list_within::list_priced(alphabet, entries, n, cost, k, limit, rows, scores)
}

pub fn list_of_matrix(
    m: Matrix,
    k: usize,
    limit: usize,
    rows: &mut [u8],
    scores: &mut [u16],
) -> Result<usize, Refusal>
    ensures answer { told_counted result ≡ held_list_answer sixteen (held_by m) k limit rows.old scores.old }
    ensures row_memory { rows.new ≡ held_list_rows sixteen (held_by m) k limit rows.old scores.old }
    ensures score_memory { scores.new ≡ held_list_scores sixteen (held_by m) k limit rows.old scores.old }
    ensures few { (told_counted result).count ≤ greatest_rows }
{
    list_of_parts(
        Alphabet::Sixteen,
        m.n,
        m.cost,
        &m.totals,
        &m.entries,
        k,
        limit,
        rows,
        scores,
    )
}
