// Lists of bytes: copied into lent memory, cleared, tested for zeros, and compared.

#![tactic(auto)]

ghost use Rattle.std.specs.Prelude.{◌≡◌, ◌+◌, ◌≤◌, length, replicate};
ghost use Rattle.definitions.specs.Polynomial.{is_zero};
ghost use Rattle.memory.specs.Laid.{laid};
ghost use Rattle.memory.specs.Same.{same_up_to};

// The part, in place of what lies from a place on; by a loop, since `copy_from_slice` would call for memory that may overlap.
pub fn put(out: &mut [u8], at: usize, part: &[u8])
    requires { at + length part.now ≤ length out.old }
    ensures { out.new ≡ laid out.old at part.now }
{
    for j in 0..part.len() {
        out[at + j] = part[j];
    }
}

// Zeros, so many in place of what lies from a place on.
pub fn clear(out: &mut [u8], at: usize, many: usize)
    requires { at + many ≤ length out.old }
    ensures { out.new ≡ laid out.old at (replicate many 0) }
{
    out[at..at + many].fill(0);
}

pub fn all_zero(list: &[u8]) -> bool
    ensures { result ≡ is_zero list.now }
{
    list.iter().all(|&x| x == 0)
}

#[tactic(auto, using(crate::proofs::Same::same_front))]
pub fn same_up_to(n: usize, list: &[u8], other: &[u8]) -> bool
    requires { (n ≤ length list.now) × (n ≤ length other.now) }
    ensures { result ≡ same_up_to n list.now other.now }
{
    list[..n] == other[..n]
}
