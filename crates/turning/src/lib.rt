// A matrix that is lent as bytes, turned into a record: the bytes, zeros behind them, their totals and their cost.

#![tactic(auto)]

ghost use Rattle.std.specs.Prelude.{◌≡◌, ◌≤◌, length, take};
ghost use Rattle.alphabet.specs.Codes.{code_on, most_places};
ghost use Rattle.definitions.specs.Held.{places, totals_of, filled};
ghost use Rattle.definitions.specs.Weights.{cost};
ghost use Rattle.turning.specs.Turned.{Turned};

use alphabet::{Alphabet, MOST_POSITIONS};

// The totals of the entries; answers their cost.
pub fn count(alphabet: Alphabet, entries: &[u8], totals: &mut [u16]) -> usize
    requires { (length totals.old ≡ (code_on alphabet).positions) × (length entries.now ≡ places (code_on alphabet)) }
    ensures { (result ≡ cost entries.now) × (totals.new ≡ totals_of (code_on alphabet) entries.now) }
{
    matrix::lay_totals(alphabet, entries, totals);
    matrix::cost(entries)
}

// The bytes, zeros behind them, and their totals; answers their cost.
pub fn lay(alphabet: Alphabet, bytes: &[u8], totals: &mut [u16], entries: &mut [u8]) -> usize
    requires { (length bytes.now ≤ places (code_on alphabet)) × (length totals.old ≡ (code_on alphabet).positions) × (length entries.old ≡ places (code_on alphabet)) }
    ensures { (result ≡ cost (filled (code_on alphabet) bytes.now)) × (totals.new ≡ totals_of (code_on alphabet) (filled (code_on alphabet) bytes.now)) × (entries.new ≡ filled (code_on alphabet) bytes.now) }
{
    memory::put(entries, 0, bytes);
    memory::clear(entries, bytes.len(), entries.len() - bytes.len());
    count(alphabet, entries, totals)
}

// So many first entries are a matrix's bytes: zeros behind them make it a record; answers its cost.
pub fn turn_in_place(alphabet: Alphabet, used: usize, entries: &mut [u8]) -> usize
    requires { (used ≤ places (code_on alphabet)) × (most_places ≤ length entries.old) }
    ensures { Turned (take used entries.old) result entries.new }
{
    let mut totals = [0u16; MOST_POSITIONS];
    let positions = alphabet.positions();
    let places = alphabet.places();
    memory::clear(entries, used, places - used);
    count(alphabet, &entries[..places], &mut totals[..positions])
}

// A matrix that is lent as bytes is turned into a record, whose entries stand in the room that is lent; answers its cost.
pub fn turn(alphabet: Alphabet, bytes: &[u8], entries: &mut [u8]) -> usize
    requires { (length bytes.now ≤ places (code_on alphabet)) × (most_places ≤ length entries.old) }
    ensures { Turned bytes.now result entries.new }
{
    memory::put(entries, 0, bytes);
    turn_in_place(alphabet, bytes.len(), entries)
}
