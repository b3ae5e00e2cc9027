// The words of the calls for hosts: what the words of an argument stand for, and those of what a call answers.
#![tactic(auto)]

use book::DATA_WORDS;

// What a call returns where a kind, a side, a change, a selector or a flag of the path is no known value.
pub const UNKNOWN: u64 = 255;

// The words of a holder; of a selector; and of what a search answers.
pub const HOLDER_WORDS: usize = 4;

pub const SELECTOR_WORDS: usize = 1 + HOLDER_WORDS;

pub const FOUND_WORDS: usize = 1 + DATA_WORDS;

pub type HolderWords = [u64; HOLDER_WORDS];

pub type SelectorWords = [u64; SELECTOR_WORDS];

pub type FoundWords = [u64; FOUND_WORDS];
