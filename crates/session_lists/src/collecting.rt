// Lines that collect stops, and cancel those that they collected.
use crate::entries::entries;
use book::{DATA_WORDS, StopWords};
use session_text::lent::{LENT, MOST_LISTED};
use session_text::names::Name;
use session_text::printing;
use word_groups::first_words;
use yubtomiq::{yubtomiq_collect, yubtomiq_mass_cancel};

fn collect_of(s: &[u64], n: &[u64], list: &mut [StopWords], answer: &mut [u64; 1]) -> u64 {
    yubtomiq_collect(s, &first_words(n), list, answer)
}

fn mass_cancel_of(s: &mut [u64], n: &[u64], list: &mut [StopWords], answer: &mut [u64; 1]) -> u64 {
    yubtomiq_mass_cancel(s, &first_words(n), list, answer)
}

fn returned(
    call: Name,
    s: &mut [u64],
    n: &[u64],
    list: &mut [StopWords],
    answer: &mut [u64; 1],
) -> u64 {
    match call {
        Name::Collect => collect_of(&s[..], n, list, answer),
        _ => mass_cancel_of(s, n, list, answer),
    }
}

// A call on the list, and what it wrote there.
fn on_list(call: Name, s: &mut [u64], n: &[u64], list: &mut [StopWords]) {
    let mut answer = [LENT; 1];
    let r = returned(call, s, n, list, &mut answer);
    printing::answer(r, &answer);
    entries(b", collected ", &list[..]);
}

// Lends a list of so many entries, at most one more than a store can need.
pub fn collect(call: Name, s: &mut [u64], n: &[u64], many: usize) {
    let mut room = [[LENT; DATA_WORDS]; MOST_LISTED];
    let list: &mut [StopWords] = &mut room;
    if many <= list.len() {
        on_list(call, s, n, &mut list[0..many]);
    }
}
