// The edits of a record that is rightly held: what is left of their tables is whether an entry is above 5.

#![tactic(auto)]

ghost use Rattle.std.specs.Prelude.{true, [], ◌∷◌, ◌≡◌, ◌+◌, ◌*◌, ◌≤◌, ◌<◌, length, set};
ghost use Rattle.alphabet.specs.Codes.{code_on};
ghost use Rattle.definitions.specs.Editing.{position, in_or_out};
ghost use Rattle.definitions.specs.Held.{held, places, held_of, with_entry, without_column, with_added, rightly};
ghost use Rattle.edits.specs.Edits.{Edits, Lowest, LowSum};
ghost use Rattle.edits.specs.Priced.{told_priced};
ghost use Rattle.refusals.specs.Tries.{Tries};

use alphabet::Alphabet;
use refusals::limits::{GREATEST_ENTRY, GREATEST_LEVEL};
use refusals::{Refusal, checks};

// A position of n.
pub fn position_checked(n: usize, at: usize) -> Result<(), Refusal>
    ensures { Tries (position n at) result }
{
    checks::refuse_if(n <= at, Refusal::Sizes)
}

// The lowest place of an entry above 5 before or after one is set.
fn lowest_set(entries: &[u8], at: usize, entry: u8) -> Option<usize>
    requires { at < length entries.now }
    ensures { Lowest entries.now (set entries.now at entry ∷ []) result }
{
    let first = refusals::first_above(GREATEST_ENTRY, entries);
    if entry <= GREATEST_ENTRY {
        return first;
    }
    match first {
        Some(bad) => Some(bad.min(at)),
        None => Some(at),
    }
}

pub fn set_right(
    alphabet: Alphabet,
    n: usize,
    cost: usize,
    totals: &mut [u16],
    entries: &mut [u8],
    position: usize,
    symbol: usize,
    entry: u8,
) -> Result<usize, Refusal>
    requires n_bound { (n ≤ (code_on alphabet).positions) × (position < n) × (symbol < (code_on alphabet).symbols) }
    requires entries_value { rightly (code_on alphabet) (held n cost totals.old entries.old) ≡ true }
    ensures { Edits (in_or_out (code_on alphabet) (entries.old ∷ with_entry (code_on alphabet) entries.old position symbol entry ∷ []) ∷ []) (held n cost totals.old entries.old) (held_of (code_on alphabet) n (with_entry (code_on alphabet) entries.old position symbol entry)) (told_priced result) totals.new entries.new }
{
    let at = alphabet.symbols() * position + symbol;
    if let Some(bad) = lowest_set(entries, at, entry) {
        return Err(Refusal::Symbol(bad));
    }
    let old = entries[at];
    let total = totals[position];
    entries[at] = entry;
    totals[position] = total + u16::from(entry) - u16::from(old);
    Ok(cost + matrix::entry_cost(entry) - matrix::entry_cost(old))
}

pub fn clear_right(
    alphabet: Alphabet,
    n: usize,
    cost: usize,
    totals: &mut [u16],
    entries: &mut [u8],
    position: usize,
) -> Result<usize, Refusal>
    requires n_bound { (n ≤ (code_on alphabet).positions) × (position < n) }
    requires entries_value { rightly (code_on alphabet) (held n cost totals.old entries.old) ≡ true }
    ensures { Edits (in_or_out (code_on alphabet) (entries.old ∷ without_column (code_on alphabet) entries.old position ∷ []) ∷ []) (held n cost totals.old entries.old) (held_of (code_on alphabet) n (without_column (code_on alphabet) entries.old position)) (told_priced result) totals.new entries.new }
{
    if let Some(bad) = refusals::first_above(GREATEST_ENTRY, entries) {
        return Err(Refusal::Symbol(bad));
    }
    let symbols = alphabet.symbols();
    let from = symbols * position;
    let to = from + symbols;
    let of_column = matrix::cost(&entries[from..to]);
    memory::clear(entries, from, symbols);
    totals[position] = 0;
    Ok(cost - of_column)
}

// The lowest place where the sum of both entries is above 5.
fn lowest_sum(entries: &[u8], others: &[u8]) -> Option<usize>
    requires { length entries.now ≤ length others.now }
    ensures { Lowest entries.now (others.now ∷ with_added entries.now others.now ∷ []) result }
{
    for j in 0..entries.len() {
        if GREATEST_LEVEL < usize::from(entries[j]) + usize::from(others[j]) {
            return Some(j);
        }
    }
    None
}

fn add_entries(entries: &mut [u8], others: &[u8])
    requires entries_in_bounds { length entries.old ≤ length others.now }
    requires low_sum { LowSum entries.old others.now }
    ensures { entries.new ≡ with_added entries.old others.now }
{
    for (j, x) in entries.iter_mut().enumerate() {
        *x += others[j];
    }
}

pub fn add_right(
    alphabet: Alphabet,
    n: usize,
    cost: usize,
    totals: &mut [u16],
    entries: &mut [u8],
    others: &[u8],
) -> Result<usize, Refusal>
    requires entries_value { rightly (code_on alphabet) (held n cost totals.old entries.old) ≡ true }
    requires others_len { length others.now ≡ places (code_on alphabet) }
    ensures { Edits (in_or_out (code_on alphabet) (entries.old ∷ others.now ∷ with_added entries.old others.now ∷ []) ∷ []) (held n cost totals.old entries.old) (held_of (code_on alphabet) n (with_added entries.old others.now)) (told_priced result) totals.new entries.new }
{
    if let Some(bad) = lowest_sum(entries, others) {
        return Err(Refusal::Symbol(bad));
    }
    add_entries(entries, others);
    Ok(turning::count(alphabet, entries, totals))
}
