// Weights of what is within limits already.
ghost use Rattle.std.specs.Prelude.{◌++◌, ◌≡◌, ◌≤◌, length, drop};
ghost use Rattle.alphabet.specs.Codes.{code_on, most_places};
ghost use Rattle.definitions.specs.Held.{places};
ghost use Rattle.definitions.specs.Limits.{greatest_level};
ghost use Rattle.definitions.specs.Weights.{multiplicity, matrix};
ghost use Rattle.turning.specs.Turned.{Turned};

use alphabet::Alphabet;
use refusals::limits::GREATEST_SUM;

fn multiplicity_of(level: usize, reliability: u16) -> u8
    requires { level ≤ greatest_level }
    ensures { result ≡ multiplicity level reliability }
{
    // In 32 bits, of which the machine multiplies more at a time.
    (level as u32 * u32::from(reliability) / GREATEST_SUM as u32) as u8
}

// The multiplicity of each reliability, to the front of out.
#[tactic(auto, using(crate::proofs::Weighing::multiplicity_more))]
pub fn multiplicities_into(level: usize, reliabilities: &[u16], out: &mut [u8])
    requires { (level ≤ greatest_level) × (length reliabilities.now ≤ length out.old) }
    ensures { out.new ≡ matrix level reliabilities.now ++ drop (length reliabilities.now) out.old }
{
    for (i, &reliability) in reliabilities.iter().enumerate() {
        out[i] = multiplicity_of(level, reliability);
    }
}

// Reliabilities are turned into the record of their multiplicities, whose entries stand in the room that is lent; answers its cost.
pub fn weigh(alphabet: Alphabet, level: usize, reliabilities: &[u16], entries: &mut [u8]) -> usize
    requires { (level ≤ greatest_level) × (length reliabilities.now ≤ places (code_on alphabet)) × (most_places ≤ length entries.old) }
    ensures { Turned (matrix level reliabilities.now) result entries.new }
{
    multiplicities_into(level, reliabilities, entries);
    turning::turn_in_place(alphabet, reliabilities.len(), entries)
}
