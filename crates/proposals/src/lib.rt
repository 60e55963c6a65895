// A polynomial that somebody else proposes: its check, and the list that is made from it.

#![tactic(auto)]

ghost use Rattle.std.specs.Prelude.{OnOk, not, ◌≡◌, ◌*◌, ◌≤◌, ◌<◌, eqb, length};
ghost use Rattle.alphabet.specs.Codes.{code_on};
ghost use Rattle.definitions.specs.Bound.{count};
ghost use Rattle.definitions.specs.Code.{Symbols};
ghost use Rattle.definitions.specs.Field.{sixteen};
ghost use Rattle.definitions.specs.Held.{held};
ghost use Rattle.definitions.specs.Limits.{greatest_count, greatest_rows};
ghost use Rattle.definitions.specs.Proposals.{proposal_answer, proposal_list_answer, proposal_list_rows, proposal_list_scores, held_proposal_answer, held_proposal_list_answer, held_proposal_list_rows, held_proposal_list_scores};
ghost use Rattle.definitions.specs.Refusals.{line, runs_on, symbols};
ghost use Rattle.matrix.specs.Record.{held_by};
ghost use Rattle.proposals.specs.Proposed.{told_proposed};
ghost use Rattle.refusals.specs.Told.{told_counted};
ghost use Rattle.refusals.specs.Tries.{Tries};

use alphabet::{Alphabet, MOST_PLACES};
use matrix::Matrix;
use refusals::limits::{GREATEST_ENTRY, GREATEST_LIMIT, GREATEST_ROWS};
use refusals::{Refusal, checks};

// As many coefficients as are counted.
fn coefficients_checked(given: usize, count: usize) -> Result<(), Refusal>
    ensures { Tries (line 3 (not (eqb given count))) result }
{
    checks::refuse_if(given != count, Refusal::Length)
}

// The coefficients are symbols; their indexes run on after those of n positions.
fn symbols_checked(alphabet: Alphabet, n: usize, coefficients: &[u8]) -> Result<(), Refusal>
    requires { (n ≤ (code_on alphabet).positions) × (length coefficients.now ≤ greatest_count) }
    ensures tried { Tries (runs_on ((code_on alphabet).symbols * n) (symbols (code_on alphabet) coefficients.now)) result }
    ensures symbols { OnOk result (Symbols (code_on alphabet) coefficients.now) }
{
    checks::symbols_of_after(alphabet, alphabet.symbols() * n, coefficients)
}

pub fn check_proposal(
    alphabet: Alphabet,
    n: usize,
    k: usize,
    degree: usize,
    matrix: &[u8],
    coefficients: &[u8],
) -> Result<bool, Refusal>
    ensures { told_proposed result ≡ proposal_answer (code_on alphabet) n k degree matrix.now coefficients.now }
{
    checks::sizes(alphabet, n, k)?;
    let count = bound::degree_checked(k - 1, degree)?;
    coefficients_checked(coefficients.len(), count)?;
    checks::entries(alphabet, matrix.len(), n)?;
    checks::symbols(GREATEST_ENTRY, matrix)?;
    symbols_checked(alphabet, n, coefficients)?;
    let mut entries = [0u8; MOST_PLACES];
    turning::turn(alphabet, matrix, &mut entries);
    Ok(proposal_within::is_yes(alphabet, &entries, n, k - 1, degree, coefficients))
}

// Of a matrix record whose parts are lent.
pub fn check_proposal_of_parts(
    alphabet: Alphabet,
    n: usize,
    cost: usize,
    totals: &[u16],
    entries: &[u8],
    k: usize,
    degree: usize,
    coefficients: &[u8],
) -> Result<bool, Refusal>
    ensures { told_proposed result ≡ held_proposal_answer (code_on alphabet) (held n cost totals.now entries.now) k degree coefficients.now }
{
    checks::sizes(alphabet, n, k)?;
    let count = bound::degree_checked(k - 1, degree)?;
    coefficients_checked(coefficients.len(), count)?;
    checks::refuse_if(
        !matrix::rightly(alphabet, n, cost, totals, entries),
        Refusal::Length,
    )?;
    checks::symbols(GREATEST_ENTRY, entries)?;
    symbols_checked(alphabet, n, coefficients)?;
    Ok(proposal_within::is_yes(alphabet, entries, n, k - 1, degree, coefficients))
}

pub fn check_proposal_of_matrix(
    m: Matrix,
    k: usize,
    degree: usize,
    coefficients: &[u8],
) -> Result<bool, Refusal>
    ensures { told_proposed result ≡ held_proposal_answer sixteen (held_by m) k degree coefficients.now }
{
    check_proposal_of_parts(
        Alphabet::Sixteen,
        m.n,
        m.cost,
        &m.totals,
        &m.entries,
        k,
        degree,
        coefficients,
    )
}

pub fn list_of_proposal(
    alphabet: Alphabet,
    n: usize,
    k: usize,
    limit: usize,
    degree: usize,
    matrix: &[u8],
    coefficients: &[u8],
    rows: &mut [u8],
    scores: &mut [u16],
) -> Result<usize, Refusal>
    ensures answer { told_counted result ≡ proposal_list_answer (code_on alphabet) n k limit degree matrix.now coefficients.now rows.old scores.old }
    ensures row_memory { rows.new ≡ proposal_list_rows (code_on alphabet) n k limit degree matrix.now coefficients.now rows.old scores.old }
    ensures score_memory { scores.new ≡ proposal_list_scores (code_on alphabet) n k limit degree matrix.now coefficients.now rows.old scores.old }
    ensures few { (told_counted result).count ≤ greatest_rows }
{
    checks::sizes(alphabet, n, k)?;
    checks::refuse_if(GREATEST_LIMIT < limit, Refusal::Setting)?;
    let count = bound::degree_checked(k - 1, degree)?;
    coefficients_checked(coefficients.len(), count)?;
    checks::entries(alphabet, matrix.len(), n)?;
    checks::room(rows.len(), GREATEST_ROWS, k)?;
    checks::refuse_if(scores.len() < GREATEST_ROWS, Refusal::Room)?;
    checks::symbols(GREATEST_ENTRY, matrix)?;
    symbols_checked(alphabet, n, coefficients)?;
    let mut entries = [0u8; MOST_PLACES];
    let cost = turning::turn(alphabet, matrix, &mut entries);
    proposal_within::list_proposed(
        alphabet,
        &entries,
        n,
        cost,
        k,
        limit,
        degree,
        coefficients,
        rows,
        scores,
    )
}

// Of a matrix record whose parts are lent.
pub fn list_of_proposal_of_parts(
    alphabet: Alphabet,
    n: usize,
    cost: usize,
    totals: &[u16],
    entries: &[u8],
    k: usize,
    limit: usize,
    degree: usize,
    coefficients: &[u8],
    rows: &mut [u8],
    scores: &mut [u16],
) -> Result<usize, Refusal>
    ensures answer { told_counted result ≡ held_proposal_list_answer (code_on alphabet) (held n cost totals.now entries.now) k limit degree coefficients.now rows.old scores.old }
    ensures row_memory { rows.new ≡ held_proposal_list_rows (code_on alphabet) (held n cost totals.now entries.now) k limit degree coefficients.now rows.old scores.old }
    ensures score_memory { scores.new ≡ held_proposal_list_scores (code_on alphabet) (held n cost totals.now entries.now) k limit degree coefficients.now rows.old scores.old }
    ensures few { (told_counted result).count ≤ greatest_rows }
{
    checks::sizes(alphabet, n, k)?;
    checks::refuse_if(GREATEST_LIMIT < limit, Refusal::Setting)?;
    let count = bound::degree_checked(k - 1, degree)?;
    coefficients_checked(coefficients.len(), count)?;
    checks::refuse_if(
        !matrix::rightly(alphabet, n, cost, totals, entries),
        Refusal::Length,
    )?;
    checks::room(rows.len(), GREATEST_ROWS, k)?;
    checks::refuse_if(scores.len() < GREATEST_ROWS, Refusal::Room)?;
    checks::symbols(GREATEST_ENTRY, entries)?;
    symbols_checked(alphabet, n, coefficients)?;
    proposal_within::list_proposed(
        alphabet,
        entries,
        n,
        cost,
        k,
        limit,
        degree,
        coefficients,
        rows,
        scores,
    )
}

pub fn list_of_proposal_of_matrix(
    m: Matrix,
    k: usize,
    limit: usize,
    degree: usize,
    coefficients: &[u8],
    rows: &mut [u8],
    scores: &mut [u16],
) -> Result<usize, Refusal>
    ensures answer { told_counted result ≡ held_proposal_list_answer sixteen (held_by m) k limit degree coefficients.now rows.old scores.old }
    ensures row_memory { rows.new ≡ held_proposal_list_rows sixteen (held_by m) k limit degree coefficients.now rows.old scores.old }
    ensures score_memory { scores.new ≡ held_proposal_list_scores sixteen (held_by m) k limit degree coefficients.now rows.old scores.old }
    ensures few { (told_counted result).count ≤ greatest_rows }
{
    list_of_proposal_of_parts(
        Alphabet::Sixteen,
        m.n,
        m.cost,
        &m.totals,
        &m.entries,
        k,
        limit,
        degree,
        coefficients,
        rows,
        scores,
    )
}
