// The y-roots of a polynomial: all messages f with Q(x, f(x)) identically zero.

#![tactic(auto)]

ghost use Rattle.std.specs.Prelude.{◌≡◌, ◌<◌};
ghost use Rattle.alphabet.specs.Codes.{code_on};
ghost use Rattle.definitions.specs.Answers.{roots_answer, roots_out};
ghost use Rattle.refusals.specs.Told.{told_counted};

pub mod inside;

use alphabet::Alphabet;
use refusals::{Refusal, checks};

pub fn roots(
    alphabet: Alphabet,
    degree: usize,
    k: usize,
    coefficients: &[u8],
    out: &mut [u8],
) -> Result<usize, Refusal>
    ensures answer { told_counted result ≡ roots_answer (code_on alphabet) degree k coefficients.now out.old }
    ensures memory { out.new ≡ roots_out (code_on alphabet) degree k coefficients.now out.old }
{
    checks::size(alphabet, k)?;
    let stated = bound::degree_checked(k - 1, degree)?;
    checks::refuse_if(coefficients.len() != stated, Refusal::Length)?;
    checks::room(out.len(), k, degree / (k - 1))?;
    checks::symbols_of(alphabet, coefficients)?;
    checks::refuse_if(memory::all_zero(coefficients), Refusal::Zero)?;
    Ok(inside::roots_into(alphabet, degree, k, coefficients, out))
}
