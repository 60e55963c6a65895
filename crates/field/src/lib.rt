// The field of an alphabet: sum, product and inverse, each refusing what is no symbol.

#![tactic(auto)]

ghost use Rattle.std.specs.Prelude.{OnOk, [], ◌∷◌, ◌≡◌, ◌<◌};
ghost use Rattle.alphabet.specs.Codes.{code_on};
ghost use Rattle.definitions.specs.Answers.{sum_answer, product_answer, inverse_answer};
ghost use Rattle.definitions.specs.Refusals.{symbols};
ghost use Rattle.field.specs.Element.{told_element};
ghost use Rattle.refusals.specs.Tries.{Tries};

use alphabet::Alphabet;
use refusals::{Refusal, checks};

// Both operands are symbols.
fn operands_checked(alphabet: Alphabet, a: u8, b: u8) -> Result<(), Refusal>
    ensures tried { Tries (symbols (code_on alphabet) (a ∷ b ∷ [])) result }
    ensures symbols { OnOk result ((a < (code_on alphabet).symbols) × (b < (code_on alphabet).symbols)) }
{
    checks::symbols_of(alphabet, &[a, b])
}

#[tactic(auto, unfolding(definitions::specs::Field::sum_of))]
pub fn sum(alphabet: Alphabet, a: u8, b: u8) -> Result<u8, Refusal>
    ensures { told_element result ≡ sum_answer (code_on alphabet) a b }
{
    operands_checked(alphabet, a, b)?;
    Ok(a ^ b)
}

pub fn product(alphabet: Alphabet, a: u8, b: u8) -> Result<u8, Refusal>
    ensures { told_element result ≡ product_answer (code_on alphabet) a b }
{
    operands_checked(alphabet, a, b)?;
    Ok(tables::look(alphabet, a, b))
}

#[tactic(auto, unfolding(definitions::specs::Polynomial::is_zero))]
pub fn inverse(alphabet: Alphabet, a: u8) -> Result<u8, Refusal>
    ensures { told_element result ≡ inverse_answer (code_on alphabet) a }
{
    checks::symbols_of(alphabet, &[a])?;
    checks::refuse_if(a == 0, Refusal::Zero)?;
    Ok(tables::inverses(alphabet)[usize::from(a)])
}
