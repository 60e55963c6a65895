// Numbers and rows as text: text is put in memory at a place, and the place where it ends is answered.

#![tactic(auto)]

ghost use Rattle.std.specs.Prelude.{◌≡◌, ◌+◌, ◌*◌, ◌≤◌, ◌<◌, length};
ghost use Rattle.alphabet.specs.Codes.{code_on};
ghost use Rattle.definitions.specs.Limits.{greatest_rows};
ghost use Rattle.text.specs.Rooms.{greatest_digits, listed_room, refused_room, row_room, longest_row_room, rows_room};
ghost use Rattle.text.specs.Text.{hex_digit, symbol_text, message_text, decimal, listed_line, row_line, refused_line, line_of, row_lines, Puts};

pub mod rooms;

use alphabet::Alphabet;
use rooms::{
    AT_WORD, GREATEST_DIGITS, LINE_FEED, LISTED_WORD, MESSAGE_WORD, REFUSED_WORD, SCORE_WORD,
};

const BASE: u8 = 16;

const DIGITS: u8 = b'0';

const LETTERS: u8 = b'a' - 10;

fn put(out: &mut [u8], at: usize, words: &[u8]) -> usize
    requires { at + length words.now ≤ length out.old }
    ensures { Puts out.old at words.now result out.new }
{
    memory::put(out, at, words);
    at + words.len()
}

fn put_decimal(out: &mut [u8], at: usize, x: usize) -> usize
    requires { at + greatest_digits ≤ length out.old }
    ensures text { Puts out.old at (decimal x) result out.new }
    ensures short { result ≤ at + greatest_digits }
{
    let mut digits = [0u8; GREATEST_DIGITS];
    let count = io::decimal(x as u64, &mut digits);
    put(out, at, &digits[..count])
}

fn digit(x: u8) -> u8
    ensures { result ≡ hex_digit x }
{
    let last = x % BASE;
    if last < 10 {
        return DIGITS + last;
    }
    LETTERS + last
}

// One digit of sixteen symbols, two of thirty-two.
fn put_symbol(alphabet: Alphabet, out: &mut [u8], at: usize, x: u8) -> usize
    requires { at + 2 ≤ length out.old }
    ensures text { Puts out.old at (symbol_text (code_on alphabet) x) result out.new }
    ensures short { result ≤ at + 2 }
{
    if let Alphabet::ThirtyTwo = alphabet {
        let first = digit(x / BASE);
        let two = [first, digit(x)];
        return put(out, at, &two);
    }
    let one = [digit(x)];
    put(out, at, &one)
}

fn put_symbols(alphabet: Alphabet, out: &mut [u8], at: usize, message: &[u8]) -> usize
    requires { at + 2 * length message.now ≤ length out.old }
    ensures text { Puts out.old at (message_text (code_on alphabet) message.now) result out.new }
    ensures short { result ≤ at + 2 * length message.now }
{
    let mut end = at;
    for &x in message {
        end = put_symbol(alphabet, out, end, x);
    }
    end
}

// The line that says how many rows are listed.
pub fn put_listed(out: &mut [u8], at: usize, count: usize) -> usize
    requires { at + listed_room ≤ length out.old }
    ensures text { Puts out.old at (listed_line count) result out.new }
    ensures short { result ≤ at + listed_room }
{
    let named = put(out, at, &LISTED_WORD);
    let counted = put_decimal(out, named, count);
    put(out, counted, &LINE_FEED)
}

// The line of a refusal.
pub fn put_refused(out: &mut [u8], at: usize, number: usize, place: usize) -> usize
    requires { at + refused_room ≤ length out.old }
    ensures { Puts out.old at (refused_line number place) result out.new }
{
    let named = put(out, at, &REFUSED_WORD);
    let numbered = put_decimal(out, named, number);
    let joined = put(out, numbered, &AT_WORD);
    let placed = put_decimal(out, joined, place);
    put(out, placed, &LINE_FEED)
}

// The line of a row.
pub fn put_row(alphabet: Alphabet, out: &mut [u8], at: usize, score: usize, message: &[u8]) -> usize
    requires { at + row_room (length message.now) ≤ length out.old }
    ensures text { Puts out.old at (row_line (code_on alphabet) score message.now) result out.new }
    ensures short { result ≤ at + row_room (length message.now) }
{
    let named = put(out, at, &SCORE_WORD);
    let scored = put_decimal(out, named, score);
    let joined = put(out, scored, &MESSAGE_WORD);
    let written = put_symbols(alphabet, out, joined, message);
    put(out, written, &LINE_FEED)
}

// The line of row j of k symbols.
fn put_row_of(
    alphabet: Alphabet,
    out: &mut [u8],
    at: usize,
    k: usize,
    j: usize,
    rows: &[u8],
    scores: &[u16],
) -> usize
    requires { (k ≤ (code_on alphabet).positions) × (j < greatest_rows) × (k * j + k ≤ length rows.now) × (j < length scores.now) × (at + longest_row_room ≤ length out.old) }
    ensures text { Puts out.old at (line_of (code_on alphabet) k rows.now scores.now j) result out.new }
    ensures short { result ≤ at + longest_row_room }
{
    let from = k * j;
    let score = usize::from(scores[j]);
    put_row(alphabet, out, at, score, &rows[from..from + k])
}

// The lines of the first `count` rows of k symbols.
pub fn put_rows(
    alphabet: Alphabet,
    out: &mut [u8],
    at: usize,
    k: usize,
    count: usize,
    rows: &[u8],
    scores: &[u16],
) -> usize
    requires { (k ≤ (code_on alphabet).positions) × (count ≤ greatest_rows) × (k * count ≤ length rows.now) × (count ≤ length scores.now) × (at + rows_room ≤ length out.old) }
    ensures { Puts out.old at (row_lines (code_on alphabet) k rows.now scores.now count) result out.new }
{
    let mut end = at;
    for j in 0..count {
        end = put_row_of(alphabet, out, end, k, j, rows, scores);
    }
    end
}
