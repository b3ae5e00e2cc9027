// Entries of a list, each printed if a call wrote it.
use session_text::lent::LENT;
use session_text::printing;

// An entry, with its place, if some word of it is not as it was lent.
fn entry(name: &[u8], i: usize, words: &[u64]) {
    if words.iter().any(|w| *w != LENT) {
        printing::text(name);
        printing::number(i as u64);
        printing::text(b":");
        printing::words(words);
    }
}

// The entries of a list that a call wrote.
pub fn entries<const N: usize>(name: &[u8], list: &[[u64; N]]) {
    for (i, words) in list.iter().enumerate() {
        entry(name, i, words);
    }
}
