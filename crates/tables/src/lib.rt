// The tables of all products and inverses of either alphabet, each tested once, and their readers: what they are given is within limits already.

#![tactic(auto)]

ghost use Rattle.std.specs.Prelude.{◌≡◌, ◌<◌};
ghost use Rattle.alphabet.specs.Codes.{code_on};
ghost use Rattle.tables.specs.Table.{Tabled, Inverses};

pub mod constants;

use crate::constants::{
    INVERSES_OF_SIXTEEN, INVERSES_OF_THIRTY_TWO, PRODUCTS_OF_SIXTEEN, PRODUCTS_OF_THIRTY_TWO,
};
use alphabet::{Alphabet, MOST_SYMBOLS};

// The α of either code: a root of x⁴+x+1, and of x⁵+x²+1.
pub const ALPHA: u8 = 2;

// All products of an alphabet's symbols: the product of a and b is at a times the number of symbols, plus b.
pub fn products(alphabet: Alphabet) -> &'static [u8]
    ensures { Tabled (code_on alphabet) result.now }
{
    match alphabet {
        Alphabet::Sixteen => &PRODUCTS_OF_SIXTEEN,
        Alphabet::ThirtyTwo => &PRODUCTS_OF_THIRTY_TWO,
    }
}

pub fn look(alphabet: Alphabet, a: u8, b: u8) -> u8
    requires { (a < (code_on alphabet).symbols) × (b < (code_on alphabet).symbols) }
    ensures { result ≡ (code_on alphabet).times a b }
{
    products(alphabet)[usize::from(a) * alphabet.symbols() + usize::from(b)]
}

pub fn inverses(alphabet: Alphabet) -> &'static [u8; MOST_SYMBOLS]
    ensures { Inverses (code_on alphabet) result.now }
{
    match alphabet {
        Alphabet::Sixteen => &INVERSES_OF_SIXTEEN,
        Alphabet::ThirtyTwo => &INVERSES_OF_THIRTY_TWO,
    }
}
