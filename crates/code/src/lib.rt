// Messages and their codewords.

#![tactic(auto)]

ghost use Rattle.std.specs.Prelude.{◌≡◌};
ghost use Rattle.alphabet.specs.Codes.{code_on};
ghost use Rattle.refusals.specs.Told.{told_counted};
ghost use Rattle.definitions.specs.Answers.{encode_answer, encode_out};

pub mod inside;

use alphabet::Alphabet;
use refusals::{Refusal, checks};

pub fn encode(
    alphabet: Alphabet,
    n: usize,
    k: usize,
    message: &[u8],
    out: &mut [u8],
) -> Result<usize, Refusal>
    ensures answer { told_counted result ≡ encode_answer (code_on alphabet) n k message.now out.old }
    ensures memory { out.new ≡ encode_out (code_on alphabet) n k message.now out.old }
{
    checks::sizes(alphabet, n, k)?;
    checks::refuse_if(message.len() != k, Refusal::Length)?;
    checks::refuse_if(out.len() < n, Refusal::Room)?;
    checks::symbols_of(alphabet, message)?;
    inside::encode_into(alphabet, message, n, out);
    Ok(n)
}
