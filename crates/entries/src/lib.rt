// The entries, one for each function that C calls, over numbers and slices: its alphabet comes first, and its answer crosses by value.

#![tactic(auto)]

ghost use Rattle.std.specs.Prelude.{◌≡◌, ◌≤◌};
ghost use Rattle.alphabet.specs.Codes.{code_on};
ghost use Rattle.crossing.specs.Crossing.{answer_of};
ghost use Rattle.definitions.specs.Answers.{sum_answer, product_answer, inverse_answer, encode_answer, encode_out, multiplicities_answer, multiplicities_out, cost_answer, InterpolationAnswers, roots_answer, roots_out, list_answer, list_rows, list_scores, read_answer, read_rows, read_scores};
ghost use Rattle.definitions.specs.Limits.{greatest_rows};

pub mod judging;
pub mod planning;
pub mod proposing;

use alphabet::Alphabet;
use crossing::Answer;

#[tactic(auto, using(crate::proofs::Fits::sum_narrow))]
pub fn sum(alphabet: Alphabet, a: u8, b: u8) -> Answer
    ensures { answer_of result ≡ sum_answer (code_on alphabet) a b }
{
    crossing::element(field::sum(alphabet, a, b))
}

#[tactic(auto, using(crate::proofs::Fits::product_narrow))]
pub fn product(alphabet: Alphabet, a: u8, b: u8) -> Answer
    ensures { answer_of result ≡ product_answer (code_on alphabet) a b }
{
    crossing::element(field::product(alphabet, a, b))
}

#[tactic(auto, using(crate::proofs::Fits::inverse_narrow))]
pub fn inverse(alphabet: Alphabet, a: u8) -> Answer
    ensures { answer_of result ≡ inverse_answer (code_on alphabet) a }
{
    crossing::element(field::inverse(alphabet, a))
}

#[tactic(auto, using(crate::proofs::Fits::encode_narrow))]
pub fn encode(alphabet: Alphabet, n: usize, k: usize, message: &[u8], out: &mut [u8]) -> Answer
    ensures answer { answer_of result ≡ encode_answer (code_on alphabet) n k message.now out.old }
    ensures memory { out.new ≡ encode_out (code_on alphabet) n k message.now out.old }
{
    crossing::counted(code::encode(alphabet, n, k, message, out))
}

#[tactic(auto, using(crate::proofs::Fits::multiplicities_narrow))]
pub fn multiplicities(
    alphabet: Alphabet,
    n: usize,
    level: usize,
    reliabilities: &[u16],
    out: &mut [u8],
) -> Answer
    ensures answer { answer_of result ≡ multiplicities_answer (code_on alphabet) n level reliabilities.now out.old }
    ensures memory { out.new ≡ multiplicities_out (code_on alphabet) n level reliabilities.now out.old }
{
    crossing::counted(weights::multiplicities(alphabet, n, level, reliabilities, out))
}

#[tactic(auto, using(crate::proofs::Fits::cost_narrow))]
pub fn cost_and_bound(alphabet: Alphabet, n: usize, k: usize, matrix: &[u8]) -> Answer
    ensures { answer_of result ≡ cost_answer (code_on alphabet) n k matrix.now }
{
    crossing::costed(weights::cost_and_bound(alphabet, n, k, matrix))
}

#[tactic(auto, using(crate::proofs::Fits::interpolation_narrow))]
pub fn interpolate(
    alphabet: Alphabet,
    n: usize,
    k: usize,
    limit: usize,
    matrix: &[u8],
    out: &mut [u8],
) -> Answer
    ensures { InterpolationAnswers (code_on alphabet) n k limit matrix.now out.old (answer_of result) out.new }
{
    crossing::interpolated(interpolation::interpolate(alphabet, n, k, limit, matrix, out))
}

#[tactic(auto, using(crate::proofs::Fits::roots_narrow))]
pub fn roots(
    alphabet: Alphabet,
    degree: usize,
    k: usize,
    coefficients: &[u8],
    out: &mut [u8],
) -> Answer
    ensures answer { answer_of result ≡ roots_answer (code_on alphabet) degree k coefficients.now out.old }
    ensures memory { out.new ≡ roots_out (code_on alphabet) degree k coefficients.now out.old }
{
    crossing::counted(roots::roots(alphabet, degree, k, coefficients, out))
}

#[tactic(auto, using(crossing::proofs::Crossed::few_fit, crossing::proofs::Crossed::list_crosses, crate::proofs::Fits::list_narrow))]
pub fn list_of_multiplicities(
    alphabet: Alphabet,
    n: usize,
    k: usize,
    limit: usize,
    matrix: &[u8],
    rows: &mut [u8],
    scores: &mut [u16],
) -> Answer
    ensures answer { answer_of result ≡ list_answer (code_on alphabet) n k limit matrix.now rows.old scores.old }
    ensures row_memory { rows.new ≡ list_rows (code_on alphabet) n k limit matrix.now rows.old scores.old }
    ensures score_memory { scores.new ≡ list_scores (code_on alphabet) n k limit matrix.now rows.old scores.old }
    ensures few { (answer_of result).count ≤ greatest_rows }
{
    crossing::counted(list::list_of_multiplicities(alphabet, n, k, limit, matrix, rows, scores))
}

#[tactic(auto, using(crossing::proofs::Crossed::few_fit, crossing::proofs::Crossed::list_crosses, crate::proofs::Fits::read_narrow))]
pub fn list_of_reliabilities(
    alphabet: Alphabet,
    n: usize,
    k: usize,
    level: usize,
    limit: usize,
    reliabilities: &[u16],
    rows: &mut [u8],
    scores: &mut [u16],
) -> Answer
    ensures answer { answer_of result ≡ read_answer (code_on alphabet) n k level limit reliabilities.now rows.old scores.old }
    ensures row_memory { rows.new ≡ read_rows (code_on alphabet) n k level limit reliabilities.now rows.old scores.old }
    ensures score_memory { scores.new ≡ read_scores (code_on alphabet) n k level limit reliabilities.now rows.old scores.old }
    ensures few { (answer_of result).count ≤ greatest_rows }
{
    crossing::counted(list::list_of_reliabilities(
        alphabet,
        n,
        k,
        level,
        limit,
        reliabilities,
        rows,
        scores,
    ))
}
