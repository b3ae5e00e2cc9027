// What a session lends, and the lines that set it.
use session_text::names::Name;
use session_text::printing;
use word_groups::{copy, first_words, set, word};

// How many words and entries are lent, and what is shown of the store after a call: none and nothing before the first
// line.
#[derive(Clone, Copy, Default)]
pub struct Desk {
    pub words: usize,
    pub elected: usize,
    pub moved: usize,
    pub listed: usize,
    pub show: u64,
}

// Lines that set words.
fn set_words(call: Name, words: &mut [u64], n: &[u64]) {
    match call {
        Name::Words => words.fill(word(n, 1)),
        Name::Set => set(words, word(n, 0) as usize, word(n, 1)),
        Name::Store => copy(n, words),
        Name::Book => printing::number(session_store::book(words, n)),
        _ => {}
    }
}

// A line that sets what is lent, and what is lent after it.
pub fn run(call: Name, words: &mut [u64], path: &mut [u64; 4], n: &[u64], desk: Desk) -> Desk {
    set_words(call, words, n);
    match call {
        Name::Words => Desk {
            words: word(n, 0) as usize,
            ..desk
        },
        Name::Store => Desk {
            words: n.len(),
            ..desk
        },
        Name::Lists => Desk {
            elected: word(n, 0) as usize,
            moved: word(n, 1) as usize,
            listed: word(n, 2) as usize,
            ..desk
        },
        Name::Show => Desk {
            show: word(n, 0),
            ..desk
        },
        Name::Path => {
            *path = first_words(n);
            desk
        }
        _ => desk,
    }
}
