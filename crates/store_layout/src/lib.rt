// An empty store laid out: every word of header and records written, the free chain rising.
#![tactic(auto)]

ghost use Rattle.std.specs.Prelude.{◌≡◌, ◌&&◌, ◌+◌, ◌-◌, ◌≤◌, ◌<◌, leb};
ghost use Rattle.book.specs.Lists.{rising};
ghost use Rattle.book.specs.Store.{stored, empty_book, lay_out};
ghost use Rattle.book.specs.Words.{next_in, header};
ghost use Rattle.book.specs.Sizes.{most_records, store_length};
ghost use Rattle.chains.specs.Records.{Room};
ghost use Rattle.error.specs.Answer.{told_answer};

use book::{HEADER_WORDS, MOST_RECORDS, RECORD_WORDS};
use error::Refusal;
use record_writer::write_free;
use records::put_words;

// The header of an empty store.
fn empty_header(n: u64, tick: u64) -> [u64; HEADER_WORDS]
    requires { 1 ≤ n }
    ensures { result ≡ header (empty_book n tick) }
{
    [n, 0, 0, tick, 0, 0, 0, 0, 1]
}

// The record after i in the free chain of an empty store of n records.
fn next_free(n: u64, i: u64) -> u64
    requires { 1 ≤ i }
    ensures { result ≡ next_in (rising 1 n) i }
{
    if i < n {
        return i + 1;
    }
    0
}

// Lays out an empty store of n records: all words of the header and the records are written, the free chain rises from
// 1 to n.
pub fn lay_out(s: &mut [u64], n: u64, tick: u64)
    requires { (1 ≤ n) × Room n s.old }
    ensures { s.new ≡ stored n (empty_book n tick) s.old }
{
    put_words(s, 0, &empty_header(n, tick));
    for i in 1..n + 1 {
        let next = next_free(n, i);
        write_free(s, n, i, next);
    }
}

// Whether n is from 1 to MOST_RECORDS, and so many words have room for n records.
fn has_room(n: u64, words: usize) -> bool
    ensures { result ≡ (leb 1 n && (leb n most_records && leb (store_length n) words)) }
{
    if n < 1 {
        return false;
    }
    if n > MOST_RECORDS as u64 {
        return false;
    }
    HEADER_WORDS + RECORD_WORDS * (n as usize) <= words
}

// Lays out an empty store of n records. Refused: n is not from 1 to MOST_RECORDS, or the slice is too short for them (2).
pub fn layout_store(s: &mut [u64], n: u64, tick: u64) -> Result<(), Refusal>
    ensures result_value { told_answer result ≡ (lay_out n tick s.old).answer }
    ensures s_after { s.new ≡ (lay_out n tick s.old).words }
{
    if !has_room(n, s.len()) {
        return Err(Refusal::LayoutOutOfRange);
    }
    lay_out(s, n, tick);
    Ok(())
}
