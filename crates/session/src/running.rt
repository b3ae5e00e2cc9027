// One line: read, run, and answered by one line.
use crate::lending;
use crate::lending::Desk;
use copying::copy_start;
use session_text::lent::MOST_WORDS;
use session_text::names::{Name, named};
use session_text::{numbers, printing, shown};

// A call that may alter the store.
fn alter(call: Name, s: &mut [u64], path: &mut [u64; 4], n: &[u64], desk: Desk) {
    if call < Name::Segment {
        session_store::alter(call, s, path, n);
        return;
    }
    if call < Name::Collect || call == Name::Ask {
        session_lists::run(call, s, path, n, desk.elected, desk.moved);
        return;
    }
    match call {
        Name::Ladder => session_lists::ladder(&s[..], n, desk.listed),
        Name::Turns => session_lists::turns(n, desk.listed),
        Name::Commit => session_lists::commit(s, n),
        _ => session_lists::collect(call, s, n, desk.listed),
    }
}

// The same, and what it did to the store.
fn watch(call: Name, s: &mut [u64], path: &mut [u64; 4], n: &[u64], desk: Desk) {
    let mut before = [0u64; MOST_WORDS];
    copy_start(&mut before, &s[..]);
    alter(call, s, path, n, desk);
    shown::show(desk.show, &s[..], &before);
}

// A call on the words that are lent.
fn on_store(call: Name, s: &mut [u64], path: &mut [u64; 4], n: &[u64], desk: Desk) {
    if call < Name::Layout {
        session_store::read(call, &s[..], n);
    } else {
        watch(call, s, path, n, desk);
    }
}

// A call, or a line that sets what is lent. What is lent after it.
fn call(call: Name, words: &mut [u64], path: &mut [u64; 4], n: &[u64], desk: Desk) -> Desk {
    if call < Name::WellFormed {
        session_values::run(call, path, n);
        return desk;
    }
    if call >= Name::Words && call != Name::Ask && call != Name::Commit {
        return lending::run(call, words, path, n, desk);
    }
    let size = desk.words;
    if size <= words.len() {
        on_store(call, &mut words[0..size], path, n, desk);
    }
    desk
}

// The name that a line starts with, and what is behind it, from the space on.
fn name_and_rest(text: &[u8]) -> (&[u8], &[u8]) {
    match text.iter().position(|c| *c == b' ') {
        Some(end) => text.split_at(end),
        None => (text, &[]),
    }
}

// Reads a name and numbers, and calls; a text that is no name does nothing.
fn read(text: &[u8], words: &mut [u64], path: &mut [u64; 4], desk: Desk) -> Desk {
    let (name, arguments) = name_and_rest(text);
    let Some(name) = named(name) else {
        return desk;
    };
    let mut room = [0u64; MOST_WORDS];
    let n: &mut [u64] = &mut room;
    let count = numbers::read(arguments, n);
    let all = &n[..];
    call(name, words, path, &all[0..count], desk)
}

// Whether a line is only printed.
fn is_text(line: &[u8]) -> bool {
    line.is_empty() || line[0] == b'#'
}

// Runs a line, or prints it.
fn answer(text: &[u8], words: &mut [u64], path: &mut [u64; 4], desk: Desk) -> Desk {
    if is_text(text) {
        printing::text(text);
        return desk;
    }
    read(text, words, path, desk)
}

// Answers a line by a line.
pub fn line(text: &[u8], words: &mut [u64], path: &mut [u64; 4], desk: Desk) -> Desk {
    let after = answer(text, words, path, desk);
    printing::text(b"\n");
    after
}
