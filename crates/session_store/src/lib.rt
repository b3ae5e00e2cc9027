// Lines that lay out, ask and change a store.
#![tactic(auto)]

use book::{DATA_WORDS, MOST_RECORDS, StopWords};
use host_words::{FOUND_WORDS, HolderWords};
use session_text::lent::LENT;
use session_text::names::Name;
use session_text::printing;
use word_groups::{first_words, rest, set, word};
use yubtomiq::{
    yubtomiq_admit_trailing_stop, yubtomiq_cancel_pending_stop, yubtomiq_clear,
    yubtomiq_layout_store, yubtomiq_pending_stop_order, yubtomiq_pending_stop_quantity,
    yubtomiq_update_pending_stop, yubtomiq_well_formed,
};

fn find(s: &[u64], n: &[u64]) {
    let mut answer = [LENT; FOUND_WORDS];
    let r = yubtomiq_pending_stop_order(s, &first_words(n), &mut answer);
    printing::answer(r, &answer);
}

fn quantity(s: &[u64]) {
    let mut answer = [LENT; 4];
    let r = yubtomiq_pending_stop_quantity(s, &mut answer);
    printing::answer(r, &answer);
}

// Lines that only read the store.
pub fn read(call: Name, s: &[u64], n: &[u64]) {
    match call {
        Name::Find => find(s, n),
        Name::Quantity => quantity(s),
        _ => printing::number(yubtomiq_well_formed(s)),
    }
}

// Admits a stop, which is identity, terms and quantity, for a holder.
fn admit_stop(
    s: &mut [u64],
    path: &mut [u64; 4],
    kill: u64,
    trade: &[u64; 2],
    stop: &[u64],
    holder: &HolderWords,
    answer: &mut [u64; 1],
) -> u64 {
    let id = first_words(stop);
    let terms = first_words(rest(stop, 3));
    yubtomiq_admit_trailing_stop(
        s,
        path,
        kill,
        trade,
        &id,
        &terms,
        word(stop, 7),
        holder,
        answer,
    )
}

fn admit(s: &mut [u64], path: &mut [u64; 4], n: &[u64]) {
    let mut answer = [LENT; 1];
    let r = admit_stop(
        s,
        path,
        word(n, 0),
        &first_words(rest(n, 1)),
        rest(n, 3),
        &first_words(rest(n, 11)),
        &mut answer,
    );
    printing::answer(r, &answer);
    printing::path(path);
}

fn update_of(s: &mut [u64], n: &[u64], answer: &mut StopWords) -> u64 {
    yubtomiq_update_pending_stop(
        s,
        &first_words(n),
        &first_words(rest(n, 3)),
        &first_words(rest(n, 7)),
        answer,
    )
}

fn update(s: &mut [u64], n: &[u64]) {
    let mut answer = [LENT; DATA_WORDS];
    let r = update_of(s, n, &mut answer);
    printing::answer(r, &answer);
}

fn cancel_of(s: &mut [u64], n: &[u64], answer: &mut StopWords) -> u64 {
    yubtomiq_cancel_pending_stop(s, &first_words(n), answer)
}

fn cancel(s: &mut [u64], n: &[u64]) {
    let mut answer = [LENT; DATA_WORDS];
    let r = cancel_of(s, n, &mut answer);
    printing::answer(r, &answer);
}

fn clear(s: &mut [u64], path: &mut [u64; 4]) {
    let r = yubtomiq_clear(s, path);
    printing::number(r);
    printing::path(path);
}

fn layout_of(s: &mut [u64], n: u64, tick: u64) -> u64 {
    yubtomiq_layout_store(s, n, tick)
}

fn layout(s: &mut [u64], n: &[u64]) {
    printing::number(layout_of(s, word(n, 0), word(n, 1)));
}

// Lines that may alter the store.
pub fn alter(call: Name, s: &mut [u64], path: &mut [u64; 4], n: &[u64]) {
    match call {
        Name::Layout => layout(s, n),
        Name::Admit => admit(s, path, n),
        Name::Update => update(s, n),
        Name::Cancel => cancel(s, n),
        _ => clear(s, path),
    }
}

// Admits a stop under a sequence, which follows its quantity; then comes its holder.
fn admit_under(s: &mut [u64], stop: &[u64]) -> u64 {
    let mut answer = [LENT; 1];
    let mut path = [0u64; 4];
    set(s, 2, word(stop, 8));
    admit_stop(
        s,
        &mut path,
        0,
        &[0, 0],
        stop,
        &first_words(rest(stop, 9)),
        &mut answer,
    )
}

fn first_refusal(a: u64, b: u64) -> u64 {
    if a == 0 { b } else { a }
}

// Lays out a store of one record more than a book has stops, and admits these. Answers the first refusal, or 0.
pub fn book(s: &mut [u64], n: &[u64]) -> u64 {
    let count = word(n, 2);
    if count > MOST_RECORDS as u64 {
        return 2;
    }
    let mut r = layout_of(s, count + 1, word(n, 0));
    let mut stops = rest(n, 3);
    for _ in 0..count {
        r = first_refusal(r, admit_under(s, stops));
        stops = rest(stops, DATA_WORDS);
    }
    set(s, 2, word(n, 1));
    r
}
