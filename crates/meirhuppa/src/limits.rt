// Limits of document 01 that the public functions themselves judge, or that their callers ask for, each named once.
pub const MOST_BUDGET: u32 = table::MOST_BUDGET;

// Words of the table, 32 bits each.
pub const WORDS_PER_UNIT: usize = table::WORDS_PER_UNIT;

// Bytes.
pub const MOST_IMAGE: usize = numbers::Cursor::MOST_IMAGE;
