// A matrix that is edited: fresh, an entry set, a column cleared, another matrix added. The stored numbers stay those of the entries.

#![tactic(auto)]

ghost use Rattle.std.specs.Prelude.{◌≡◌};
ghost use Rattle.definitions.specs.Editing.{fresh_held, fresh_answer, bytes_held, bytes_answer, set_held, set_answer, clear_held, clear_answer, add_held, add_answer};
ghost use Rattle.definitions.specs.Field.{sixteen};
ghost use Rattle.editing.specs.After.{record_after};
ghost use Rattle.edits.specs.Priced.{told_priced};
ghost use Rattle.matrix.specs.Record.{held_by};

pub mod parts;

use alphabet::Alphabet;
use matrix::{Matrix, PLACES, POSITIONS};
use refusals::Refusal;

// The outcome, and the record after it: where it is refused the one that went in.
#[derive(Clone, Copy)]
pub struct Edited {
    pub outcome: Result<usize, Refusal>,
    pub matrix: Matrix,
}

// The record of n with the new cost, or the one of the old n and cost.
fn recorded(
    outcome: Result<usize, Refusal>,
    old_n: usize,
    old_cost: usize,
    n: usize,
    totals: [u16; POSITIONS],
    entries: [u8; PLACES],
) -> Edited
    ensures { (result.outcome ≡ outcome) × (held_by result.matrix ≡ record_after outcome old_n old_cost n totals entries) }
{
    match outcome {
        Ok(cost) => Edited {
            outcome,
            matrix: Matrix {
                n,
                cost,
                totals,
                entries,
            },
        },
        Err(_) => Edited {
            outcome,
            matrix: Matrix {
                n: old_n,
                cost: old_cost,
                totals,
                entries,
            },
        },
    }
}

pub fn fresh(n: usize) -> Edited
    ensures answer { told_priced result.outcome ≡ fresh_answer sixteen n }
    ensures matrix { held_by result.matrix ≡ fresh_held sixteen n }
{
    let mut totals = [0u16; POSITIONS];
    let mut entries = [0u8; PLACES];
    let outcome = parts::fresh(Alphabet::Sixteen, n, &mut totals, &mut entries);
    recorded(outcome, 2, 0, n, totals, entries)
}

pub fn of_bytes(n: usize, bytes: &[u8]) -> Edited
    ensures answer { told_priced result.outcome ≡ bytes_answer sixteen n bytes.now }
    ensures matrix { held_by result.matrix ≡ bytes_held sixteen n bytes.now }
{
    let mut totals = [0u16; POSITIONS];
    let mut entries = [0u8; PLACES];
    let outcome = parts::of_bytes(Alphabet::Sixteen, n, bytes, &mut totals, &mut entries);
    recorded(outcome, 2, 0, n, totals, entries)
}

pub fn set_entry(m: Matrix, position: usize, symbol: usize, entry: u8) -> Edited
    ensures answer { told_priced result.outcome ≡ set_answer sixteen (held_by m) position symbol entry }
    ensures matrix { held_by result.matrix ≡ set_held sixteen (held_by m) position symbol entry }
{
    let n = m.n;
    let cost = m.cost;
    let mut totals = m.totals;
    let mut entries = m.entries;
    let outcome = parts::set_entry(
        Alphabet::Sixteen,
        n,
        cost,
        &mut totals,
        &mut entries,
        position,
        symbol,
        entry,
    );
    recorded(outcome, n, cost, n, totals, entries)
}

pub fn clear_column(m: Matrix, position: usize) -> Edited
    ensures answer { told_priced result.outcome ≡ clear_answer sixteen (held_by m) position }
    ensures matrix { held_by result.matrix ≡ clear_held sixteen (held_by m) position }
{
    let n = m.n;
    let cost = m.cost;
    let mut totals = m.totals;
    let mut entries = m.entries;
    let outcome = parts::clear_column(
        Alphabet::Sixteen,
        n,
        cost,
        &mut totals,
        &mut entries,
        position,
    );
    recorded(outcome, n, cost, n, totals, entries)
}

// Both entry by entry, in place of the first.
pub fn add(first: Matrix, second: Matrix) -> Edited
    ensures answer { told_priced result.outcome ≡ add_answer sixteen (held_by first) (held_by second) }
    ensures matrix { held_by result.matrix ≡ add_held sixteen (held_by first) (held_by second) }
{
    let n = first.n;
    let cost = first.cost;
    let mut totals = first.totals;
    let mut entries = first.entries;
    let second_totals = second.totals;
    let second_entries = second.entries;
    let outcome = parts::add(
        Alphabet::Sixteen,
        n,
        cost,
        &mut totals,
        &mut entries,
        second.n,
        second.cost,
        &second_totals,
        &second_entries,
    );
    recorded(outcome, n, cost, n, totals, entries)
}
