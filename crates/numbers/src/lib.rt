// Numbers of sixteen bits from bytes, low byte first.

#![tactic(auto)]

ghost use Rattle.std.specs.Prelude.{◌++◌, ◌≡◌, ◌+◌, ◌*◌, ◌≤◌, length, drop};
ghost use Rattle.numbers.specs.Numbers.{numbers_of};

fn number(low: u8, high: u8) -> u16
    ensures { result ≡ low + 256 * high }
{
    u16::from(low) + 256 * u16::from(high)
}

// The numbers of the bytes, to the front of out; answers how many.
#[tactic(auto, using(definitions::proofs::Loops::map_none, definitions::proofs::Loops::map_more))]
pub fn read(bytes: &[u8], out: &mut [u16]) -> usize
    requires { length bytes.now ≤ 2 * length out.old }
    ensures count { result ≡ length (numbers_of bytes.now) }
    ensures memory { out.new ≡ numbers_of bytes.now ++ drop (length (numbers_of bytes.now)) out.old }
{
    if bytes.len() % 2 != 0 {
        return 0;
    }
    let count = bytes.len() / 2;
    for i in 0..count {
        out[i] = number(bytes[2 * i], bytes[2 * i + 1]);
    }
    count
}
