// Encoding of what is within limits already.
ghost use Rattle.std.specs.Prelude.{◌++◌, ◌≡◌, ◌≤◌, ◌<◌, length, drop};
ghost use Rattle.alphabet.specs.Codes.{code_on};
ghost use Rattle.definitions.specs.Code.{Symbols, codeword};
ghost use Rattle.definitions.specs.Field.{numbers, value};

use alphabet::Alphabet;
use tables::ALPHA;

// The value of the polynomial f at x.
pub fn value_at(alphabet: Alphabet, f: &[u8], x: u8) -> u8
    requires symbols { Symbols (code_on alphabet) f.now }
    requires x_bound { x < (code_on alphabet).symbols }
    ensures { result ≡ value (numbers (code_on alphabet)) x f.now }
{
    let mut y = 0u8;
    for &c in f.iter().rev() {
        y = c ^ tables::look(alphabet, x, y);
    }
    y
}

// The n symbols of the codeword of f, to the front of out.
pub fn encode_into(alphabet: Alphabet, f: &[u8], n: usize, out: &mut [u8])
    requires symbols { Symbols (code_on alphabet) f.now }
    requires n_in_bounds { n ≤ length out.old }
    ensures { out.new ≡ codeword (code_on alphabet) n f.now ++ drop n out.old }
{
    let mut x = 1u8;
    for symbol in out[..n].iter_mut() {
        *symbol = value_at(alphabet, f, x);
        x = tables::look(alphabet, ALPHA, x);
    }
}
