// The polynomial of what passed the checks before the cost.
ghost use Rattle.std.specs.Prelude.{[], ◌∷◌, ◌*◌, length, take};
ghost use Rattle.alphabet.specs.Codes.{code_on};
ghost use Rattle.definitions.specs.Refusals.{cost_within};
ghost use Rattle.interpolation.specs.Answered.{Fit, Answered};
ghost use Rattle.interpolation.specs.Interpolated.{told_interpolated};
ghost use Rattle.matrix.specs.Columns.{FrontCosts};

use crate::Interpolated;
use alphabet::Alphabet;
use refusals::{Refusal, checks};

// What passed the checks of its table is interpolated, where it costs no more than the limit.
pub fn interpolate_priced(
    alphabet: Alphabet,
    entries: &[u8],
    n: usize,
    cost: usize,
    k: usize,
    limit: usize,
    out: &mut [u8],
) -> Result<Interpolated, Refusal>
    requires fit { Fit (code_on alphabet) n k limit (length out.old) }
    requires front_costs { FrontCosts (code_on alphabet) n cost entries.now }
    ensures { Answered (code_on alphabet) (cost_within limit (take ((code_on alphabet).symbols * n) entries.now) ∷ []) n k (take ((code_on alphabet).symbols * n) entries.now) out.old (told_interpolated result) out.new }
{
    checks::refuse_if(limit < cost, Refusal::Cost)?;
    let columns = matrix::in_columns(alphabet, entries, n);
    let v = k - 1;
    let bound = bound::bound(v, cost);
    let count = bound::count(v, bound);
    polynomial::polynomial(alphabet, &columns, v, bound, count, cost, out);
    Ok(Interpolated { bound, count })
}
