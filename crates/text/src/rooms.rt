// The words of the lines, and the most bytes that each line takes.
use alphabet::MOST_POSITIONS;
use refusals::limits::GREATEST_ROWS;

pub const LISTED_WORD: [u8; 7] = *b"listed ";

pub const SCORE_WORD: [u8; 6] = *b"score ";

pub const MESSAGE_WORD: [u8; 9] = *b" message ";

pub const REFUSED_WORD: [u8; 8] = *b"refused ";

pub const AT_WORD: [u8; 4] = *b" at ";

pub const LINE_FEED: [u8; 1] = *b"\n";

// The most digits of a machine number in decimal.
pub const GREATEST_DIGITS: usize = 20;

pub const LISTED_ROOM: usize = LISTED_WORD.len() + GREATEST_DIGITS + LINE_FEED.len();

// The line of the longest row, of two digits a symbol.
pub const ROW_ROOM: usize = SCORE_WORD.len()
    + GREATEST_DIGITS
    + MESSAGE_WORD.len()
    + 2 * MOST_POSITIONS
    + LINE_FEED.len();

pub const ROWS_ROOM: usize = GREATEST_ROWS * ROW_ROOM;
