// The edits of a record that is lent in parts: n and cost as numbers, totals and entries as memory that is written in place.
ghost use Rattle.std.specs.Prelude.{◌≡◌};
ghost use Rattle.alphabet.specs.Codes.{code_on};
ghost use Rattle.definitions.specs.Editing.{lent_fresh_held, lent_fresh_answer, lent_bytes_held, lent_bytes_answer, set_held, set_answer, clear_held, clear_answer, add_held, add_answer};
ghost use Rattle.definitions.specs.Held.{held};
ghost use Rattle.edits.specs.Priced.{told_priced};

use alphabet::Alphabet;
use refusals::limits::GREATEST_ENTRY;
use refusals::{Refusal, checks};

pub fn fresh(
    alphabet: Alphabet,
    n: usize,
    totals: &mut [u16],
    entries: &mut [u8],
) -> Result<usize, Refusal>
    ensures answer { told_priced result ≡ lent_fresh_answer (code_on alphabet) n totals.old entries.old }
    ensures total_memory { totals.new ≡ (lent_fresh_held (code_on alphabet) n totals.old entries.old).totals }
    ensures entry_memory { entries.new ≡ (lent_fresh_held (code_on alphabet) n totals.old entries.old).entries }
{
    checks::size(alphabet, n)?;
    checks::refuse_if(totals.len() != alphabet.positions(), Refusal::Length)?;
    checks::refuse_if(entries.len() != alphabet.places(), Refusal::Length)?;
    memory::clear(entries, 0, entries.len());
    Ok(turning::count(alphabet, entries, totals))
}

pub fn of_bytes(
    alphabet: Alphabet,
    n: usize,
    bytes: &[u8],
    totals: &mut [u16],
    entries: &mut [u8],
) -> Result<usize, Refusal>
    ensures answer { told_priced result ≡ lent_bytes_answer (code_on alphabet) n bytes.now totals.old entries.old }
    ensures total_memory { totals.new ≡ (lent_bytes_held (code_on alphabet) n bytes.now totals.old entries.old).totals }
    ensures entry_memory { entries.new ≡ (lent_bytes_held (code_on alphabet) n bytes.now totals.old entries.old).entries }
{
    checks::size(alphabet, n)?;
    checks::refuse_if(totals.len() != alphabet.positions(), Refusal::Length)?;
    checks::refuse_if(entries.len() != alphabet.places(), Refusal::Length)?;
    checks::entries(alphabet, bytes.len(), n)?;
    checks::symbols(GREATEST_ENTRY, bytes)?;
    Ok(turning::lay(alphabet, bytes, totals, entries))
}

pub fn set_entry(
    alphabet: Alphabet,
    n: usize,
    cost: usize,
    totals: &mut [u16],
    entries: &mut [u8],
    position: usize,
    symbol: usize,
    entry: u8,
) -> Result<usize, Refusal>
    ensures answer { told_priced result ≡ set_answer (code_on alphabet) (held n cost totals.old entries.old) position symbol entry }
    ensures total_memory { totals.new ≡ (set_held (code_on alphabet) (held n cost totals.old entries.old) position symbol entry).totals }
    ensures entry_memory { entries.new ≡ (set_held (code_on alphabet) (held n cost totals.old entries.old) position symbol entry).entries }
{
    checks::size(alphabet, n)?;
    edits::position_checked(n, position)?;
    checks::refuse_if(alphabet.symbols() <= symbol, Refusal::Sizes)?;
    let right = matrix::rightly(alphabet, n, cost, totals, entries);
    checks::refuse_if(!right, Refusal::Length)?;
    edits::set_right(alphabet, n, cost, totals, entries, position, symbol, entry)
}

pub fn clear_column(
    alphabet: Alphabet,
    n: usize,
    cost: usize,
    totals: &mut [u16],
    entries: &mut [u8],
    position: usize,
) -> Result<usize, Refusal>
    ensures answer { told_priced result ≡ clear_answer (code_on alphabet) (held n cost totals.old entries.old) position }
    ensures total_memory { totals.new ≡ (clear_held (code_on alphabet) (held n cost totals.old entries.old) position).totals }
    ensures entry_memory { entries.new ≡ (clear_held (code_on alphabet) (held n cost totals.old entries.old) position).entries }
{
    checks::size(alphabet, n)?;
    edits::position_checked(n, position)?;
    let right = matrix::rightly(alphabet, n, cost, totals, entries);
    checks::refuse_if(!right, Refusal::Length)?;
    edits::clear_right(alphabet, n, cost, totals, entries, position)
}

pub fn add(
    alphabet: Alphabet,
    n: usize,
    cost: usize,
    totals: &mut [u16],
    entries: &mut [u8],
    other_n: usize,
    other_cost: usize,
    other_totals: &[u16],
    other_entries: &[u8],
) -> Result<usize, Refusal>
    ensures answer { told_priced result ≡ add_answer (code_on alphabet) (held n cost totals.old entries.old) (held other_n other_cost other_totals.now other_entries.now) }
    ensures total_memory { totals.new ≡ (add_held (code_on alphabet) (held n cost totals.old entries.old) (held other_n other_cost other_totals.now other_entries.now)).totals }
    ensures entry_memory { entries.new ≡ (add_held (code_on alphabet) (held n cost totals.old entries.old) (held other_n other_cost other_totals.now other_entries.now)).entries }
{
    checks::size(alphabet, n)?;
    checks::refuse_if(n != other_n, Refusal::Sizes)?;
    let right = matrix::rightly(alphabet, n, cost, totals, entries);
    checks::refuse_if(!right, Refusal::Length)?;
    let other_right = matrix::rightly(alphabet, other_n, other_cost, other_totals, other_entries);
    checks::refuse_if(!other_right, Refusal::Length)?;
    edits::add_right(alphabet, n, cost, totals, entries, other_entries)
}
