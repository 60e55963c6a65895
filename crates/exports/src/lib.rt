// The boundary to C: each entry over numbers and slices, its answer by value in one struct.

#![tactic(auto)]

ghost use Rattle.std.specs.Prelude.{◌≡◌, ◌≤◌};
ghost use Rattle.crossing.specs.Crossing.{answer_of};
ghost use Rattle.definitions.specs.Answers.{sum_answer, product_answer, inverse_answer, encode_answer, encode_out, multiplicities_answer, multiplicities_out, cost_answer, InterpolationAnswers, roots_answer, roots_out, list_answer, list_rows, list_scores, read_answer, read_rows, read_scores};
ghost use Rattle.definitions.specs.Field.{sixteen};
ghost use Rattle.definitions.specs.Limits.{greatest_rows};

pub mod judging;
pub mod planning;
pub mod proposing;
pub mod records;

use alphabet::Alphabet;
use crossing::Answer;

#[unsafe(no_mangle)]
pub extern "C" fn kv_sum(a: u8, b: u8) -> Answer
    ensures { answer_of result ≡ sum_answer sixteen a b }
{
    entries::sum(Alphabet::Sixteen, a, b)
}

#[unsafe(no_mangle)]
pub extern "C" fn kv_product(a: u8, b: u8) -> Answer
    ensures { answer_of result ≡ product_answer sixteen a b }
{
    entries::product(Alphabet::Sixteen, a, b)
}

#[unsafe(no_mangle)]
pub extern "C" fn kv_inverse(a: u8) -> Answer
    ensures { answer_of result ≡ inverse_answer sixteen a }
{
    entries::inverse(Alphabet::Sixteen, a)
}

#[unsafe(no_mangle)]
pub extern "C" fn kv_encode(n: usize, k: usize, message: &[u8], out: &mut [u8]) -> Answer
    ensures answer { answer_of result ≡ encode_answer sixteen n k message.now out.old }
    ensures memory { out.new ≡ encode_out sixteen n k message.now out.old }
{
    entries::encode(Alphabet::Sixteen, n, k, message, out)
}

#[unsafe(no_mangle)]
pub extern "C" fn kv_multiplicities(
    n: usize,
    level: usize,
    reliabilities: &[u16],
    out: &mut [u8],
) -> Answer
    ensures answer { answer_of result ≡ multiplicities_answer sixteen n level reliabilities.now out.old }
    ensures memory { out.new ≡ multiplicities_out sixteen n level reliabilities.now out.old }
{
    entries::multiplicities(Alphabet::Sixteen, n, level, reliabilities, out)
}

#[unsafe(no_mangle)]
pub extern "C" fn kv_cost_and_bound(n: usize, k: usize, matrix: &[u8]) -> Answer
    ensures { answer_of result ≡ cost_answer sixteen n k matrix.now }
{
    entries::cost_and_bound(Alphabet::Sixteen, n, k, matrix)
}

#[unsafe(no_mangle)]
pub extern "C" fn kv_interpolate(
    n: usize,
    k: usize,
    limit: usize,
    matrix: &[u8],
    out: &mut [u8],
) -> Answer
    ensures { InterpolationAnswers sixteen n k limit matrix.now out.old (answer_of result) out.new }
{
    entries::interpolate(Alphabet::Sixteen, n, k, limit, matrix, out)
}

#[unsafe(no_mangle)]
pub extern "C" fn kv_roots(degree: usize, k: usize, coefficients: &[u8], out: &mut [u8]) -> Answer
    ensures answer { answer_of result ≡ roots_answer sixteen degree k coefficients.now out.old }
    ensures memory { out.new ≡ roots_out sixteen degree k coefficients.now out.old }
{
    entries::roots(Alphabet::Sixteen, degree, k, coefficients, out)
}

#[unsafe(no_mangle)]
pub extern "C" fn kv_list_of_multiplicities(
    n: usize,
    k: usize,
    limit: usize,
    matrix: &[u8],
    rows: &mut [u8],
    scores: &mut [u16],
) -> Answer
    ensures answer { answer_of result ≡ list_answer sixteen n k limit matrix.now rows.old scores.old }
    ensures row_memory { rows.new ≡ list_rows sixteen n k limit matrix.now rows.old scores.old }
    ensures score_memory { scores.new ≡ list_scores sixteen n k limit matrix.now rows.old scores.old }
    ensures few { (answer_of result).count ≤ greatest_rows }
{
    entries::list_of_multiplicities(Alphabet::Sixteen, n, k, limit, matrix, rows, scores)
}

#[unsafe(no_mangle)]
pub extern "C" fn kv_list_of_reliabilities(
    n: usize,
    k: usize,
    level: usize,
    limit: usize,
    reliabilities: &[u16],
    rows: &mut [u8],
    scores: &mut [u16],
) -> Answer
    ensures answer { answer_of result ≡ read_answer sixteen n k level limit reliabilities.now rows.old scores.old }
    ensures row_memory { rows.new ≡ read_rows sixteen n k level limit reliabilities.now rows.old scores.old }
    ensures score_memory { scores.new ≡ read_scores sixteen n k level limit reliabilities.now rows.old scores.old }
    ensures few { (answer_of result).count ≤ greatest_rows }
{
    entries::list_of_reliabilities(
        Alphabet::Sixteen,
        n,
        k,
        level,
        limit,
        reliabilities,
        rows,
        scores,
    )
}
