// The rows of the Hasse conditions, for inner use: what they are made of is within limits already.

#![tactic(auto)]

ghost use Rattle.std.specs.Prelude.{◌≡◌, ◌+◌, ◌*◌, ◌≤◌, ◌<◌, length};
ghost use Rattle.std.proofs.lemmas.List.Edits.{sets};
ghost use Rattle.alphabet.specs.Codes.{code_on};
ghost use Rattle.definitions.specs.Code.{Symbols};
ghost use Rattle.monomials.specs.Rows.{Places};
ghost use Rattle.conditions.specs.MaskedRows.{Clear, asked_at, base_at, kept_order, kept_orders, masked_point, masked_column, masked_rows};
ghost use Rattle.blocks.specs.Row.{width, block};

use alphabet::{Alphabet, MOST_POSITIONS, MOST_SYMBOLS};
use blocks::{BLOCK, WIDTH};
use tables::ALPHA;

// At y = 0 the power of y has to be the order itself.
fn asked_at(b: u8, t: u8) -> u8
    ensures { result ≡ asked_at b t }
{
    if b == 0 { 255 } else { t }
}

fn base_at(b: u8) -> u8
    ensures { result ≡ base_at b }
{
    if b == 0 { 1 } else { b }
}

// The conditions of one order by x: the orders by y below m. Answers the place after them.
fn order_rows(
    rows: &mut [[u8; WIDTH]],
    at: usize,
    row: &[u8; WIDTH],
    ys: &[u8; WIDTH],
    b: u8,
    m: u8,
    blocks: usize,
) -> usize
    requires { (at + m ≤ length rows.old) × (blocks * block ≤ width) × Clear at (blocks * block) rows.old }
    ensures value { result ≡ at + m }
    ensures rows_after { rows.new ≡ sets rows.old at (kept_order blocks row.now ys.now b m) }
{
    for t in 0..m {
        masks::keep(
            row,
            ys,
            asked_at(b, t),
            t,
            blocks,
            &mut rows[at + usize::from(t)],
        );
    }
    at + usize::from(m)
}

// The conditions of all orders below m, of the monomials' values. Answers the place after them.
fn orders_rows(
    rows: &mut [[u8; WIDTH]],
    at: usize,
    row: &[u8; WIDTH],
    es: &[[u8; WIDTH]; 2],
    b: u8,
    m: u8,
    blocks: usize,
) -> usize
    requires { (at + length (kept_orders blocks row.now es.now b m) ≤ length rows.old) × (blocks * block ≤ width) × Clear at (blocks * block) rows.old }
    ensures value { result ≡ at + length (kept_orders blocks row.now es.now b m) }
    ensures rows_after { rows.new ≡ sets rows.old at (kept_orders blocks row.now es.now b m) }
{
    let mut part = [0u8; WIDTH];
    let mut next = at;
    for s in 0..m {
        masks::keep(row, &es[0], s, s, blocks, &mut part);
        next = order_rows(rows, next, &part, &es[1], b, m - s, blocks);
    }
    next
}

// The conditions of one point, of the powers of its x.
fn point_rows(
    alphabet: Alphabet,
    rows: &mut [[u8; WIDTH]],
    at: usize,
    px: &[u8; WIDTH],
    es: &[[u8; WIDTH]; 2],
    b: u8,
    m: u8,
    n: usize,
    blocks: usize,
) -> usize
    requires symbols { Symbols (code_on alphabet) px.now × Places es.now }
    requires b_bound { (b < (code_on alphabet).symbols) × (n ≤ width) × (blocks * block ≤ width) }
    requires m_in_bounds { (at + length (masked_point (code_on alphabet) px.now n blocks es.now b m) ≤ length rows.old) × Clear at (blocks * block) rows.old }
    ensures value { result ≡ at + length (masked_point (code_on alphabet) px.now n blocks es.now b m) }
    ensures rows_after { rows.new ≡ sets rows.old at (masked_point (code_on alphabet) px.now n blocks es.now b m) }
{
    if m == 0 {
        return at;
    }
    let mut py = [0u8; WIDTH];
    monomials::powers(alphabet, base_at(b), n, &mut py);
    let mut row = [0u8; WIDTH];
    monomials::values(alphabet, px, &py, es, blocks * BLOCK, &mut row);
    orders_rows(rows, at, &row, es, b, m, blocks)
}

// The conditions of one position.
fn column_rows(
    alphabet: Alphabet,
    rows: &mut [[u8; WIDTH]],
    at: usize,
    px: &[u8; WIDTH],
    es: &[[u8; WIDTH]; 2],
    column: &[u8; MOST_SYMBOLS],
    n: usize,
    blocks: usize,
) -> usize
    requires symbols { Symbols (code_on alphabet) px.now × Places es.now }
    requires n_le_width { (n ≤ width) × (blocks * block ≤ width) }
    requires column_in_bounds { (at + length (masked_column (code_on alphabet) px.now n blocks es.now column.now) ≤ length rows.old) × Clear at (blocks * block) rows.old }
    ensures value { result ≡ at + length (masked_column (code_on alphabet) px.now n blocks es.now column.now) }
    ensures rows_after { rows.new ≡ sets rows.old at (masked_column (code_on alphabet) px.now n blocks es.now column.now) }
{
    let mut next = at;
    for b in 0..=alphabet.greatest_symbol() {
        let m = column[usize::from(b)];
        next = point_rows(alphabet, rows, next, px, es, b, m, n, blocks);
    }
    next
}

// The conditions of a whole matrix, from the first row on, in so many blocks of columns. Answers how many there are.
pub fn matrix_rows(
    alphabet: Alphabet,
    rows: &mut [[u8; WIDTH]],
    matrix: &[[u8; MOST_SYMBOLS]; MOST_POSITIONS],
    v: usize,
    d: usize,
    blocks: usize,
) -> usize
    requires v_nonzero { (0 < v) × (d < width) × (blocks * block ≤ width) }
    requires matrix_in_bounds { (length (masked_rows (code_on alphabet) v d blocks matrix.now) ≤ length rows.old) × Clear 0 (blocks * block) rows.old }
    ensures value { result ≡ length (masked_rows (code_on alphabet) v d blocks matrix.now) }
    ensures rows_after { rows.new ≡ sets rows.old 0 (masked_rows (code_on alphabet) v d blocks matrix.now) }
{
    let es = monomials::exponents(v, blocks * BLOCK);
    let mut px = [0u8; WIDTH];
    let mut next = 0;
    let mut a = 1u8;
    for column in &matrix[..alphabet.positions()] {
        monomials::powers(alphabet, a, d + 1, &mut px);
        next = column_rows(alphabet, rows, next, &px, &es, column, d / v + 1, blocks);
        a = tables::look(alphabet, ALPHA, a);
    }
    next
}
