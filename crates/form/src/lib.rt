// The form check of the store: whether lent words are those of a valid book. Each record is looked at by itself, and
// each chain is walked for as many steps as it should have records, so that the check ends on any words. Stops are told
// apart by buckets of their keys, in two local tables, the only memory of its own.
#![tactic(auto)]

ghost use Rattle.std.specs.Prelude.{◌≡◌, ◌+◌, ◌-◌, ◌<◌};
ghost use Rattle.book.specs.Words.{well_formed};

use book::{HEADER_WORDS, MOST_RECORDS, RECORD_WORDS};
use chain_form::chains_formed;
use key_form::all_differ;
use record_form::records_formed;

// Whether the words are a well-formed store.
pub fn well_formed(s: &[u64]) -> bool
    ensures { result ≡ well_formed s.now }
{
    if s.len() < HEADER_WORDS {
        return false;
    }
    let n = s[0];
    if n < 1 {
        return false;
    }
    if n > MOST_RECORDS as u64 {
        return false;
    }
    if s.len() < HEADER_WORDS + RECORD_WORDS * (n as usize) {
        return false;
    }
    if !records_formed(s, n) {
        return false;
    }
    if !chains_formed(s, n) {
        return false;
    }
    all_differ(s, n)
}
