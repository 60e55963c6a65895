// The reliabilities of each position: summed, and checked against 4,096.

#![tactic(auto)]

ghost use Rattle.std.specs.Prelude.{◌≡◌, ◌+◌, ◌*◌, ◌≤◌, ◌<◌, length, sum};
ghost use Rattle.alphabet.specs.Codes.{code_on};
ghost use Rattle.definitions.specs.Refusals.{columns};
ghost use Rattle.definitions.specs.Weights.{sum_of_column};
ghost use Rattle.refusals.specs.Tries.{Tries};

use alphabet::{Alphabet, MOST_SYMBOLS};
use refusals::limits::GREATEST_SUM;
use refusals::{Refusal, checks};

// Up to 32 times 65,535.
fn sum_of(column: &[u16]) -> usize
    requires { length column.now ≤ MOST_SYMBOLS }
    ensures { result ≡ sum column.now }
{
    column.iter().map(|&x| usize::from(x)).sum()
}

// The reliabilities of position i, summed. The list may end within them.
fn column_sum(alphabet: Alphabet, reliabilities: &[u16], i: usize) -> usize
    requires { (code_on alphabet).symbols * i ≤ length reliabilities.now }
    ensures { result ≡ sum_of_column (code_on alphabet) reliabilities.now i }
{
    let symbols = alphabet.symbols();
    let first = symbols * i;
    if first + symbols <= reliabilities.len() {
        sum_of(&reliabilities[first..first + symbols])
    } else {
        sum_of(&reliabilities[first..])
    }
}

// Refused at the first position whose reliabilities sum to more than 4,096. Behind the end of the list a position has none.
#[tactic(auto, using(crate::proofs::Passed::columns_ended, alphabet::proofs::Sizes::sized))]
pub fn columns_checked(alphabet: Alphabet, reliabilities: &[u16], n: usize) -> Result<(), Refusal>
    ensures { Tries (columns (code_on alphabet) n reliabilities.now) result }
{
    let reached = reliabilities.len().div_ceil(alphabet.symbols());
    for position in 0..n.min(reached) {
        let sum = column_sum(alphabet, reliabilities, position);
        checks::refuse_if(GREATEST_SUM < sum, Refusal::Column(position))?;
    }
    Ok(())
}
