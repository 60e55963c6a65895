// The limits, each named once: the numbers are those of definitions/specs/Limits. Those of a code are its alphabet's.
pub const GREATEST_SUM: usize = 4096;

pub const GREATEST_LEVEL: usize = 5;

pub const GREATEST_ENTRY: u8 = GREATEST_LEVEL as u8;

pub const GREATEST_LIMIT: usize = 225;

pub const GREATEST_COUNT: usize = 256;

pub const COEFFICIENT_ROOM: usize = 246;

pub const GREATEST_ROWS: usize = 20;

pub const GREATEST_STEPS: usize = 75;
