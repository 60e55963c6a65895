// The first monomials: their powers, and their values at a point; for inner use: what it is given is within limits already.

#![tactic(auto)]

ghost use Rattle.std.specs.Prelude.{◌≡◌, ◌≤◌, ◌<◌};
ghost use Rattle.alphabet.specs.Codes.{code_on};
ghost use Rattle.definitions.specs.Code.{Symbols};
ghost use Rattle.monomials.specs.Rows.{exponent_rows, Places, powers_row, values_row};
ghost use Rattle.blocks.specs.Row.{width, ZeroFrom};

use alphabet::Alphabet;
use blocks::WIDTH;

// The powers of x that the first monomials have, in their order, and those of y.
#[tactic(auto, using(crate::proofs::Walk::walked_le))]
pub fn exponents(v: usize, count: usize) -> [[u8; WIDTH]; 2]
    requires { (0 < v) × (count ≤ width) }
    ensures { result ≡ exponent_rows v count }
{
    let mut xs = [0u8; WIDTH];
    let mut ys = [0u8; WIDTH];
    let mut x = 0;
    let mut y = 0usize;
    let mut degree = 0;
    for step in 0..count {
        xs[step] = x as u8;
        ys[step] = y as u8;
        if v <= x {
            x -= v;
            y += 1;
        } else {
            degree += 1;
            x = degree;
            y = 0;
        }
    }
    [xs, ys]
}

// The first n powers of x, to the front of a row.
pub fn powers(alphabet: Alphabet, x: u8, n: usize, row: &mut [u8; WIDTH])
    requires { (x < (code_on alphabet).symbols) × (n ≤ width) × ZeroFrom n row.old }
    ensures { row.new ≡ powers_row (code_on alphabet) n x }
{
    let mut next = 1u8;
    for entry in &mut row[..n] {
        *entry = next;
        next = tables::look(alphabet, x, next);
    }
}

// The monomials' values at a point, in their order, of the powers of its coordinates, to the front of a row.
fn values_by(
    alphabet: Alphabet,
    px: &[u8; WIDTH],
    py: &[u8; WIDTH],
    es: &[[u8; WIDTH]; 2],
    count: usize,
    row: &mut [u8; WIDTH],
)
    requires symbols { Symbols (code_on alphabet) px.now × Symbols (code_on alphabet) py.now }
    requires places { Places es.now × (count ≤ width) × ZeroFrom count row.old }
    ensures { row.new ≡ values_row (code_on alphabet) count px.now py.now es.now }
{
    for place in 0..count {
        let x = usize::from(es[0][place]);
        let y = usize::from(es[1][place]);
        row[place] = tables::look(alphabet, px[x], py[y]);
    }
}

// Each alphabet passes its own constant on.
pub fn values(
    alphabet: Alphabet,
    px: &[u8; WIDTH],
    py: &[u8; WIDTH],
    es: &[[u8; WIDTH]; 2],
    count: usize,
    row: &mut [u8; WIDTH],
)
    requires symbols { Symbols (code_on alphabet) px.now × Symbols (code_on alphabet) py.now }
    requires places { Places es.now × (count ≤ width) × ZeroFrom count row.old }
    ensures { row.new ≡ values_row (code_on alphabet) count px.now py.now es.now }
{
    if let Alphabet::ThirtyTwo = alphabet {
        values_by(Alphabet::ThirtyTwo, px, py, es, count, row);
    } else {
        values_by(Alphabet::Sixteen, px, py, es, count, row);
    }
}
