// Polynomials that somebody else proposes, for C.
ghost use Rattle.std.specs.Prelude.{◌≡◌, ◌≤◌};
ghost use Rattle.crossing.specs.Crossing.{answer_of};
ghost use Rattle.definitions.specs.Field.{sixteen};
ghost use Rattle.definitions.specs.Held.{held};
ghost use Rattle.definitions.specs.Limits.{greatest_rows};
ghost use Rattle.definitions.specs.Proposals.{proposal_answer, proposal_list_answer, proposal_list_rows, proposal_list_scores, held_proposal_answer, held_proposal_list_answer, held_proposal_list_rows, held_proposal_list_scores};

use alphabet::Alphabet;
use crossing::Answer;

#[unsafe(no_mangle)]
pub extern "C" fn kv_check_proposal(
    n: usize,
    k: usize,
    degree: usize,
    matrix: &[u8],
    coefficients: &[u8],
) -> Answer
    ensures { answer_of result ≡ proposal_answer sixteen n k degree matrix.now coefficients.now }
{
    entries::proposing::check_proposal(Alphabet::Sixteen, n, k, degree, matrix, coefficients)
}

#[unsafe(no_mangle)]
pub extern "C" fn kv_list_of_proposal(
    n: usize,
    k: usize,
    limit: usize,
    degree: usize,
    matrix: &[u8],
    coefficients: &[u8],
    rows: &mut [u8],
    scores: &mut [u16],
) -> Answer
    ensures answer { answer_of result ≡ proposal_list_answer sixteen n k limit degree matrix.now coefficients.now rows.old scores.old }
    ensures row_memory { rows.new ≡ proposal_list_rows sixteen n k limit degree matrix.now coefficients.now rows.old scores.old }
    ensures score_memory { scores.new ≡ proposal_list_scores sixteen n k limit degree matrix.now coefficients.now rows.old scores.old }
    ensures few { (answer_of result).count ≤ greatest_rows }
{
    entries::proposing::list_of_proposal(
        Alphabet::Sixteen,
        n,
        k,
        limit,
        degree,
        matrix,
        coefficients,
        rows,
        scores,
    )
}

#[unsafe(no_mangle)]
pub extern "C" fn kv_matrix_check_proposal(
    n: usize,
    cost: usize,
    totals: &[u16],
    entries: &[u8],
    k: usize,
    degree: usize,
    coefficients: &[u8],
) -> Answer
    ensures { answer_of result ≡ held_proposal_answer sixteen (held n cost totals.now entries.now) k degree coefficients.now }
{
    record_entries::matrix_check_proposal(
        Alphabet::Sixteen,
        n,
        cost,
        totals,
        entries,
        k,
        degree,
        coefficients,
    )
}

#[unsafe(no_mangle)]
pub extern "C" fn kv_matrix_list_of_proposal(
    n: usize,
    cost: usize,
    totals: &[u16],
    entries: &[u8],
    k: usize,
    limit: usize,
    degree: usize,
    coefficients: &[u8],
    rows: &mut [u8],
    scores: &mut [u16],
) -> Answer
    ensures answer { answer_of result ≡ held_proposal_list_answer sixteen (held n cost totals.now entries.now) k limit degree coefficients.now rows.old scores.old }
    ensures row_memory { rows.new ≡ held_proposal_list_rows sixteen (held n cost totals.now entries.now) k limit degree coefficients.now rows.old scores.old }
    ensures score_memory { scores.new ≡ held_proposal_list_scores sixteen (held n cost totals.now entries.now) k limit degree coefficients.now rows.old scores.old }
    ensures few { (answer_of result).count ≤ greatest_rows }
{
    record_entries::matrix_list_of_proposal(
        Alphabet::Sixteen,
        n,
        cost,
        totals,
        entries,
        k,
        limit,
        degree,
        coefficients,
        rows,
        scores,
    )
}
