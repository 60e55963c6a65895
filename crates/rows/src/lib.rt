// Lists of rows that come in: their shape, their order and their messages.

#![tactic(auto)]

ghost use Rattle.std.specs.Prelude.{◌≡◌, ◌+◌, ◌*◌, ◌≤◌, ◌<◌, length};
ghost use Rattle.definitions.specs.Listing.{row_at};
ghost use Rattle.definitions.specs.Tools.{every};
ghost use Rattle.refusals.specs.Tries.{Tries};
ghost use Rattle.rows.specs.Rows.{comes_before, same, row_before, in_order, is_new, is_list, list_line};

use refusals::{Refusal, checks};

pub fn row<'a>(k: usize, rows: &'a [u8], i: usize) -> &'a [u8]
    requires { k * i + k ≤ length rows.now }
    ensures symbols { result.now ≡ row_at k rows.now i }
    ensures place { result.ref_ptr ≡ (rows.entry.ref_ptr.0, k * i + rows.entry.ref_ptr.1) }
{
    let from = k * i;
    let to = from + k;
    &rows[from..to]
}

#[tactic(auto, using(crate::proofs::Messages::same_tested))]
pub fn same(f: &[u8], g: &[u8]) -> bool
    requires { length f.now ≡ length g.now }
    ensures { result ≡ same f.now g.now }
{
    f == g
}

#[tactic(auto, using(crate::proofs::Messages::before_compared))]
fn comes_before(f: &[u8], g: &[u8]) -> bool
    requires { length f.now ≡ length g.now }
    ensures { result ≡ comes_before f.now g.now }
{
    f < g
}

fn row_before(k: usize, rows: &[u8], scores: &[u16], i: usize, j: usize) -> bool
    requires { (k * i + k ≤ length rows.now) × (k * j + k ≤ length rows.now) × (i < length scores.now) × (j < length scores.now) }
    ensures { result ≡ row_before k rows.now scores.now i j }
{
    let one = scores[i];
    let other = scores[j];
    if one != other {
        return other < one;
    }
    comes_before(row(k, rows, i), row(k, rows, j))
}

fn in_order(k: usize, rows: &[u8], scores: &[u16]) -> bool
    requires { k * length scores.now ≤ length rows.now }
    ensures { result ≡ in_order k rows.now scores.now }
{
    for j in 1..scores.len() {
        if !row_before(k, rows, scores, j - 1, j) {
            return false;
        }
    }
    true
}

// No row before row j has its message.
fn is_new(k: usize, rows: &[u8], j: usize) -> bool
    requires { (0 < j) × (k * j + k ≤ length rows.now) }
    ensures { result ≡ is_new k rows.now j }
{
    let message = row(k, rows, j);
    for i in 0..j {
        if same(row(k, rows, i), message) {
            return false;
        }
    }
    true
}

fn all_new(k: usize, rows: &[u8], count: usize) -> bool
    requires { k * count ≤ length rows.now }
    ensures { result ≡ every count (is_new k rows.now) }
{
    for j in 1..count {
        if !is_new(k, rows, j) {
            return false;
        }
    }
    true
}

fn is_list(k: usize, rows: &[u8], scores: &[u16]) -> bool
    ensures { result ≡ is_list k rows.now scores.now }
{
    refusals::is_product(rows.len(), k, scores.len())
        && in_order(k, rows, scores)
        && all_new(k, rows, scores.len())
}

pub fn list_checked(k: usize, rows: &[u8], scores: &[u16]) -> Result<(), Refusal>
    ensures { Tries (list_line k rows.now scores.now) result }
{
    checks::refuse_if(!is_list(k, rows, scores), Refusal::Length)
}
