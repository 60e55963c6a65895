// How many monomials lie up to a weighted degree, and the bound: what is given is within limits already, but for a degree that is checked.

#![tactic(auto)]

ghost use Rattle.std.specs.Prelude.{IfOk, ◌≡◌, ◌<◌};
ghost use Rattle.definitions.specs.Bound.{count, bound};
ghost use Rattle.definitions.specs.Refusals.{degree};
ghost use Rattle.refusals.specs.Tries.{Tries};

use refusals::limits::GREATEST_COUNT;
use refusals::{Refusal, checks};

// N(D): how many monomials have weighted degree at most d.
#[tactic(auto, using(definitions::proofs::Loops::sum_none, definitions::proofs::Loops::sum_more))]
pub fn count(v: usize, d: usize) -> usize
    requires { (0 < v) × (d < 65536) }
    ensures { result ≡ count v d }
{
    let mut total = 0;
    for b in 0..=d / v {
        total += d + 1 - v * b;
    }
    total
}

// N(D), which is counted only for a degree that leaves it short.
pub fn degree_checked(v: usize, d: usize) -> Result<usize, Refusal>
    requires { 0 < v }
    ensures tried { Tries (degree v d) result }
    ensures count { IfOk result (λ n. n ≡ count v d) }
{
    checks::refuse_if(GREATEST_COUNT <= d, Refusal::Setting)?;
    let n = count(v, d);
    checks::refuse_if(GREATEST_COUNT < n, Refusal::Setting)?;
    Ok(n)
}

// The smallest degree with more monomials than the cost, by its direct form: the whole part of cost/m + v (m - 1)/2,
// with m the largest whole number such that v m (m - 1) is at most twice the cost.
#[tactic(auto, using(crate::proofs::Powers::number_found))]
pub fn bound(v: usize, cost: usize) -> usize
    requires { (0 < v) × (cost < 65536) }
    ensures { result ≡ bound v cost }
{
    let most = 2 * cost / v;
    let mut m = 1;

    // A `while`, since the first number that fails the test ends the search.
    while (m + 1) * m <= most {
        m += 1;
    }
    (2 * cost + v * (m * (m - 1))) / (2 * m)
}
