// From the program's input to its output.

#![tactic(auto)]

ghost use Rattle.std.specs.Prelude.{◌++◌, ◌≡◌, ◌*◌, ◌≤◌, length};
ghost use Rattle.alphabet.specs.Codes.{code_on};
ghost use Rattle.definitions.specs.Limits.{greatest_rows};
ghost use Rattle.refusals.specs.Told.{told_counted};
ghost use Rattle.io.specs.Counts.{IsPrefixLen};
ghost use Rattle.output.specs.Program.{answer_to, output, answer_text, Holds};
ghost use Rattle.output.specs.Rooms.{longest_of, longest, answer_room};
ghost use Rattle.text.specs.Text.{listed_line, row_lines, Puts};

use alphabet::{Alphabet, MOST_PLACES, MOST_POSITIONS};
use matrix::PLACES;
use refusals::Refusal;
use refusals::limits::GREATEST_ROWS;
use text::rooms::{LISTED_ROOM, ROWS_ROOM};

const HEADER: usize = 4;

// One more than any list takes.
const NUMBERS: usize = MOST_PLACES + 1;

// The header, and two bytes for each number that a list takes, and for one more.
pub const LONGEST_OF_SIXTEEN: usize = HEADER + 2 * (PLACES + 1);

pub const LONGEST_OF_THIRTY_TWO: usize = HEADER + 2 * NUMBERS;

const SYMBOLS_OF_ROWS: usize = GREATEST_ROWS * MOST_POSITIONS;

pub const ROOM: usize = LISTED_ROOM + ROWS_ROOM;

fn put_list(
    alphabet: Alphabet,
    out: &mut [u8],
    k: usize,
    count: usize,
    rows: &[u8],
    scores: &[u16],
) -> usize
    requires { (k ≤ (code_on alphabet).positions) × (count ≤ greatest_rows) × (k * count ≤ length rows.now) × (count ≤ length scores.now) × (answer_room ≤ length out.old) }
    ensures { Puts out.old 0 (listed_line count ++ row_lines (code_on alphabet) k rows.now scores.now count) result out.new }
{
    let end = text::put_listed(out, 0, count);
    text::put_rows(alphabet, out, end, k, count, rows, scores)
}

fn put_answer(
    alphabet: Alphabet,
    out: &mut [u8],
    k: usize,
    answer: Result<usize, Refusal>,
    rows: &[u8],
    scores: &[u16],
) -> usize
    requires holds { Holds (code_on alphabet) k (told_counted answer) rows.now scores.now }
    requires answer_room_in_bounds { answer_room ≤ length out.old }
    ensures { Puts out.old 0 (answer_text (code_on alphabet) k (told_counted answer) rows.now scores.now) result out.new }
{
    match answer {
        Ok(count) => put_list(alphabet, out, k, count, rows, scores),
        Err(r) => text::put_refused(out, 0, r.number(), r.place()),
    }
}

fn answer(
    alphabet: Alphabet,
    n: usize,
    k: usize,
    level: usize,
    limit: usize,
    reliabilities: &[u16],
    out: &mut [u8],
) -> usize
    requires { answer_room ≤ length out.old }
    ensures { Puts out.old 0 (answer_to (code_on alphabet) n k level limit reliabilities.now) result out.new }
{
    let mut rows = [0u8; SYMBOLS_OF_ROWS];
    let mut scores = [0u16; GREATEST_ROWS];
    let told = list::list_of_reliabilities(
        alphabet,
        n,
        k,
        level,
        limit,
        reliabilities,
        &mut rows,
        &mut scores,
    );
    put_answer(alphabet, out, k, told, &rows, &scores)
}

// The answer to an input of which no more than one number too many was read.
fn answer_to(alphabet: Alphabet, input: &[u8], out: &mut [u8]) -> usize
    requires { (length input.now ≤ longest) × (answer_room ≤ length out.old) }
    ensures { Puts out.old 0 (output (code_on alphabet) input.now) result out.new }
{
    if input.len() < HEADER {
        let r = Refusal::Length;
        return text::put_refused(out, 0, r.number(), r.place());
    }
    let n = usize::from(input[0]);
    let k = usize::from(input[1]);
    let level = usize::from(input[2]);
    let limit = usize::from(input[3]);
    let mut numbers = [0u16; NUMBERS];
    let count = numbers::read(&input[HEADER..], &mut numbers);
    answer(alphabet, n, k, level, limit, &numbers[..count], out)
}

// So many bytes of an input tell its answer.
fn longest(alphabet: Alphabet) -> usize
    ensures { result ≡ longest_of (code_on alphabet) }
{
    match alphabet {
        Alphabet::Sixteen => LONGEST_OF_SIXTEEN,
        Alphabet::ThirtyTwo => LONGEST_OF_THIRTY_TWO,
    }
}

// What the program writes for its input: at most ROOM bytes, in front of out.
pub fn write(alphabet: Alphabet, input: &[u8], out: &mut [u8]) -> usize
    requires { answer_room ≤ length out.old }
    ensures text { Puts out.old 0 (output (code_on alphabet) input.now) result out.new }
    ensures within { IsPrefixLen result out.new }
{
    let most = longest(alphabet);
    if most < input.len() {
        return answer_to(alphabet, &input[..most], out);
    }
    answer_to(alphabet, input, out)
}
