// Interpolation: the polynomial with the smallest leading monomial.

#![tactic(auto)]

ghost use Rattle.alphabet.specs.Codes.{code_on};
ghost use Rattle.definitions.specs.Answers.{InterpolationAnswers};
ghost use Rattle.definitions.specs.Editing.{HeldInterpolationAnswers};
ghost use Rattle.definitions.specs.Field.{sixteen};
ghost use Rattle.definitions.specs.Held.{held};
ghost use Rattle.interpolation.specs.Interpolated.{told_interpolated};
ghost use Rattle.matrix.specs.Record.{held_by};

pub mod inside;

use alphabet::{Alphabet, MOST_PLACES};
use matrix::Matrix;
use refusals::limits::{COEFFICIENT_ROOM, GREATEST_ENTRY, GREATEST_LIMIT};
use refusals::{Refusal, checks};

// Of a polynomial that is found: its bound, and how many coefficients are written.
#[derive(Clone, Copy)]
pub struct Interpolated {
    pub bound: usize,
    pub count: usize,
}

pub fn interpolate(
    alphabet: Alphabet,
    n: usize,
    k: usize,
    limit: usize,
    matrix: &[u8],
    out: &mut [u8],
) -> Result<Interpolated, Refusal>
    ensures { InterpolationAnswers (code_on alphabet) n k limit matrix.now out.old (told_interpolated result) out.new }
{
    checks::sizes(alphabet, n, k)?;
    checks::refuse_if(GREATEST_LIMIT < limit, Refusal::Setting)?;
    checks::entries(alphabet, matrix.len(), n)?;
    checks::refuse_if(out.len() < COEFFICIENT_ROOM, Refusal::Room)?;
    checks::symbols(GREATEST_ENTRY, matrix)?;
    let mut entries = [0u8; MOST_PLACES];
    let cost = turning::turn(alphabet, matrix, &mut entries);
    inside::interpolate_priced(alphabet, &entries, n, cost, k, limit, out)
}

// Of a matrix record whose parts are lent.
pub fn interpolate_parts(
    alphabet: Alphabet,
    n: usize,
    cost: usize,
    totals: &[u16],
    entries: &[u8],
    k: usize,
    limit: usize,
    out: &mut [u8],
) -> Result<Interpolated, Refusal>
    ensures { HeldInterpolationAnswers (code_on alphabet) (held n cost totals.now entries.now) k limit out.old (told_interpolated result) out.new }
{
    checks::sizes(alphabet, n, k)?;
    checks::refuse_if(GREATEST_LIMIT < limit, Refusal::Setting)?;
    checks::refuse_if(
        !matrix::rightly(alphabet, n, cost, totals, entries),
        Refusal::Length,
    )?;
    checks::refuse_if(out.len() < COEFFICIENT_ROOM, Refusal::Room)?;
    checks::symbols(GREATEST_ENTRY, entries)?;
    inside::interpolate_priced(alphabet, entries, n, cost, k, limit, out)
}

pub fn interpolate_matrix(
    m: Matrix,
    k: usize,
    limit: usize,
    out: &mut [u8],
) -> Result<Interpolated, Refusal>
    ensures { HeldInterpolationAnswers sixteen (held_by m) k limit out.old (told_interpolated result) out.new }
{
    interpolate_parts(
        Alphabet::Sixteen,
        m.n,
        m.cost,
        &m.totals,
        &m.entries,
        k,
        limit,
        out,
    )
}
