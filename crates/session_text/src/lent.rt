// What a session lends at most, and what stands in it before a call.
use book::{HEADER_WORDS, MOST_PRICES, MOST_RECORDS, RECORD_WORDS};

// Every word of an answer and of a list before a call: a number that no case has elsewhere.
pub const LENT: u64 = 9009;

// The most words and entries: those of a store of one record more than the most, and one entry more than it can need.
pub const MOST_WORDS: usize = HEADER_WORDS + RECORD_WORDS * (MOST_RECORDS + 1);

pub const MOST_ELECTED: usize = MOST_RECORDS + 1;

pub const MOST_MOVED: usize = 2 * MOST_RECORDS + 1;

pub const MOST_LISTED: usize = MOST_RECORDS + 1;

// The most places for turning points: one more than a run can need.
pub const MOST_PLACES: usize = MOST_PRICES + 1;
