// Polynomials that somebody else proposes.
ghost use Rattle.std.specs.Prelude.{◌≡◌, ◌≤◌};
ghost use Rattle.alphabet.specs.Codes.{code_on};
ghost use Rattle.crossing.specs.Crossing.{answer_of};
ghost use Rattle.definitions.specs.Limits.{greatest_rows};
ghost use Rattle.definitions.specs.Proposals.{proposal_answer, proposal_list_answer, proposal_list_rows, proposal_list_scores};

use alphabet::Alphabet;
use crossing::Answer;

#[tactic(auto, using(crate::proofs::ProposalFits::proposal_narrow))]
pub fn check_proposal(
    alphabet: Alphabet,
    n: usize,
    k: usize,
    degree: usize,
    matrix: &[u8],
    coefficients: &[u8],
) -> Answer
    ensures { answer_of result ≡ proposal_answer (code_on alphabet) n k degree matrix.now coefficients.now }
{
    crossing::proposed(proposals::check_proposal(alphabet, n, k, degree, matrix, coefficients))
}

#[tactic(auto, using(crossing::proofs::Crossed::few_fit, crossing::proofs::Crossed::list_crosses, crate::proofs::ProposalFits::proposal_list_narrow))]
pub fn list_of_proposal(
    alphabet: Alphabet,
    n: usize,
    k: usize,
    limit: usize,
    degree: usize,
    matrix: &[u8],
    coefficients: &[u8],
    rows: &mut [u8],
    scores: &mut [u16],
) -> Answer
    ensures answer { answer_of result ≡ proposal_list_answer (code_on alphabet) n k limit degree matrix.now coefficients.now rows.old scores.old }
    ensures row_memory { rows.new ≡ proposal_list_rows (code_on alphabet) n k limit degree matrix.now coefficients.now rows.old scores.old }
    ensures score_memory { scores.new ≡ proposal_list_scores (code_on alphabet) n k limit degree matrix.now coefficients.now rows.old scores.old }
    ensures few { (answer_of result).count ≤ greatest_rows }
{
    crossing::counted(proposals::list_of_proposal(
        alphabet,
        n,
        k,
        limit,
        degree,
        matrix,
        coefficients,
        rows,
        scores,
    ))
}
