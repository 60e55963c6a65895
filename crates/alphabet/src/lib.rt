// Which symbols a call is about: those of document 01, or those of document 02, order 13.

#![tactic(auto)]

ghost use Rattle.std.specs.Prelude.{◌≡◌, ◌-◌};
ghost use Rattle.alphabet.specs.Codes.{code_on, modulus_on};
ghost use Rattle.definitions.specs.Held.{places};

#[derive(Clone, Copy)]
pub enum Alphabet {
    Sixteen,
    ThirtyTwo,
}

// The most symbols, positions and places of a matrix that an alphabet has.
pub const MOST_SYMBOLS: usize = 32;

pub const MOST_POSITIONS: usize = 31;

pub const MOST_PLACES: usize = MOST_SYMBOLS * MOST_POSITIONS;

impl Alphabet {
    pub fn symbols(self) -> usize
        ensures { result ≡ (code_on self).symbols }
    {
        match self {
            Alphabet::Sixteen => 16,
            Alphabet::ThirtyTwo => 32,
        }
    }

    pub fn positions(self) -> usize
        ensures { result ≡ (code_on self).positions }
    {
        match self {
            Alphabet::Sixteen => 15,
            Alphabet::ThirtyTwo => 31,
        }
    }

    // The entries of all columns of a matrix.
    pub fn places(self) -> usize
        ensures { result ≡ places (code_on self) }
    {
        match self {
            Alphabet::Sixteen => 240,
            Alphabet::ThirtyTwo => 992,
        }
    }

    pub fn greatest_symbol(self) -> u8
        ensures { result ≡ (code_on self).symbols - 1 }
    {
        match self {
            Alphabet::Sixteen => 15,
            Alphabet::ThirtyTwo => 31,
        }
    }

    // The bits of the polynomial that products are taken modulo.
    pub fn modulus(self) -> u8
        ensures { result ≡ modulus_on self }
    {
        match self {
            Alphabet::Sixteen => 19,
            Alphabet::ThirtyTwo => 37,
        }
    }
}
