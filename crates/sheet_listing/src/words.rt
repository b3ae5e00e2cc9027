// The words of a stop as a line takes them.
use book::StopWords;
use host_words::{FOUND_WORDS, FoundWords};

// Whether a holder's words name one.
pub fn is_held(holder: &[u64]) -> bool {
    holder.iter().any(|w| *w != 0)
}

// The number of the line, and a stop's words behind it.
pub fn lined(line: u64, stop: &StopWords) -> FoundWords {
    let mut words = [line; FOUND_WORDS];
    words[1..].copy_from_slice(stop);
    words
}
