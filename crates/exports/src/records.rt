// The entries for C of a matrix record: n and cost cross as numbers, totals and entries as lent memory that an edit writes in place.
ghost use Rattle.std.specs.Prelude.{◌≡◌, ◌≤◌};
ghost use Rattle.crossing.specs.Crossing.{answer_of};
ghost use Rattle.definitions.specs.Editing.{lent_fresh_held, lent_fresh_answer, lent_bytes_held, lent_bytes_answer, set_held, set_answer, clear_held, clear_answer, add_held, add_answer, held_cost_answer, HeldInterpolationAnswers, held_list_answer, held_list_rows, held_list_scores};
ghost use Rattle.definitions.specs.Field.{sixteen};
ghost use Rattle.definitions.specs.Held.{held};
ghost use Rattle.definitions.specs.Limits.{greatest_rows};

use alphabet::Alphabet;
use crossing::Answer;

#[unsafe(no_mangle)]
pub extern "C" fn kv_matrix_fresh(n: usize, totals: &mut [u16], entries: &mut [u8]) -> Answer
    ensures answer { answer_of result ≡ lent_fresh_answer sixteen n totals.old entries.old }
    ensures total_memory { totals.new ≡ (lent_fresh_held sixteen n totals.old entries.old).totals }
    ensures entry_memory { entries.new ≡ (lent_fresh_held sixteen n totals.old entries.old).entries }
{
    record_entries::matrix_fresh(Alphabet::Sixteen, n, totals, entries)
}

#[unsafe(no_mangle)]
pub extern "C" fn kv_matrix_of_bytes(
    n: usize,
    bytes: &[u8],
    totals: &mut [u16],
    entries: &mut [u8],
) -> Answer
    ensures answer { answer_of result ≡ lent_bytes_answer sixteen n bytes.now totals.old entries.old }
    ensures total_memory { totals.new ≡ (lent_bytes_held sixteen n bytes.now totals.old entries.old).totals }
    ensures entry_memory { entries.new ≡ (lent_bytes_held sixteen n bytes.now totals.old entries.old).entries }
{
    record_entries::matrix_of_bytes(Alphabet::Sixteen, n, bytes, totals, entries)
}

#[unsafe(no_mangle)]
pub extern "C" fn kv_matrix_set_entry(
    n: usize,
    cost: usize,
    totals: &mut [u16],
    entries: &mut [u8],
    position: usize,
    symbol: usize,
    entry: u8,
) -> Answer
    ensures answer { answer_of result ≡ set_answer sixteen (held n cost totals.old entries.old) position symbol entry }
    ensures total_memory { totals.new ≡ (set_held sixteen (held n cost totals.old entries.old) position symbol entry).totals }
    ensures entry_memory { entries.new ≡ (set_held sixteen (held n cost totals.old entries.old) position symbol entry).entries }
{
    record_entries::matrix_set_entry(
        Alphabet::Sixteen,
        n,
        cost,
        totals,
        entries,
        position,
        symbol,
        entry,
    )
}

#[unsafe(no_mangle)]
pub extern "C" fn kv_matrix_clear_column(
    n: usize,
    cost: usize,
    totals: &mut [u16],
    entries: &mut [u8],
    position: usize,
) -> Answer
    ensures answer { answer_of result ≡ clear_answer sixteen (held n cost totals.old entries.old) position }
    ensures total_memory { totals.new ≡ (clear_held sixteen (held n cost totals.old entries.old) position).totals }
    ensures entry_memory { entries.new ≡ (clear_held sixteen (held n cost totals.old entries.old) position).entries }
{
    record_entries::matrix_clear_column(Alphabet::Sixteen, n, cost, totals, entries, position)
}

#[unsafe(no_mangle)]
pub extern "C" fn kv_matrix_add(
    n: usize,
    cost: usize,
    totals: &mut [u16],
    entries: &mut [u8],
    other_n: usize,
    other_cost: usize,
    other_totals: &[u16],
    other_entries: &[u8],
) -> Answer
    ensures answer { answer_of result ≡ add_answer sixteen (held n cost totals.old entries.old) (held other_n other_cost other_totals.now other_entries.now) }
    ensures total_memory { totals.new ≡ (add_held sixteen (held n cost totals.old entries.old) (held other_n other_cost other_totals.now other_entries.now)).totals }
    ensures entry_memory { entries.new ≡ (add_held sixteen (held n cost totals.old entries.old) (held other_n other_cost other_totals.now other_entries.now)).entries }
{
    record_entries::matrix_add(
        Alphabet::Sixteen,
        n,
        cost,
        totals,
        entries,
        other_n,
        other_cost,
        other_totals,
        other_entries,
    )
}

#[unsafe(no_mangle)]
pub extern "C" fn kv_matrix_cost_and_bound(
    n: usize,
    cost: usize,
    totals: &[u16],
    entries: &[u8],
    k: usize,
) -> Answer
    ensures { answer_of result ≡ held_cost_answer sixteen (held n cost totals.now entries.now) k }
{
    record_entries::matrix_cost_and_bound(Alphabet::Sixteen, n, cost, totals, entries, k)
}

#[unsafe(no_mangle)]
pub extern "C" fn kv_matrix_interpolate(
    n: usize,
    cost: usize,
    totals: &[u16],
    entries: &[u8],
    k: usize,
    limit: usize,
    out: &mut [u8],
) -> Answer
    ensures { HeldInterpolationAnswers sixteen (held n cost totals.now entries.now) k limit out.old (answer_of result) out.new }
{
    record_entries::matrix_interpolate(Alphabet::Sixteen, n, cost, totals, entries, k, limit, out)
}

#[unsafe(no_mangle)]
pub extern "C" fn kv_matrix_list(
    n: usize,
    cost: usize,
    totals: &[u16],
    entries: &[u8],
    k: usize,
    limit: usize,
    rows: &mut [u8],
    scores: &mut [u16],
) -> Answer
    ensures answer { answer_of result ≡ held_list_answer sixteen (held n cost totals.now entries.now) k limit rows.old scores.old }
    ensures row_memory { rows.new ≡ held_list_rows sixteen (held n cost totals.now entries.now) k limit rows.old scores.old }
    ensures score_memory { scores.new ≡ held_list_scores sixteen (held n cost totals.now entries.now) k limit rows.old scores.old }
    ensures few { (answer_of result).count ≤ greatest_rows }
{
    record_entries::matrix_list(
        Alphabet::Sixteen,
        n,
        cost,
        totals,
        entries,
        k,
        limit,
        rows,
        scores,
    )
}
