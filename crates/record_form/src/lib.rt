// The form check of each record by itself: a stop's words stand for consistent terms, and a free record holds none.
#![tactic(auto)]

ghost use Rattle.std.specs.Prelude.{◌≡◌, ◌+◌, ◌-◌, ◌≤◌, ◌<◌, get_or};
ghost use Rattle.book.specs.Book.{held};
ghost use Rattle.book.specs.Lists.{every, rising};
ghost use Rattle.book.specs.Words.{record_word, entry_at, consistent, sound_stop};
ghost use Rattle.chains.specs.Records.{Room, Record};
ghost use Rattle.form_check.specs.Check.{blank_at, blank, record_formed};
ghost use Rattle.book.specs.Sizes.{record_length};

use book::{NEXT_BY_STOP, RECORD_WORDS};
use pricelevel::on_tick;
use records::word;
use stop_terms::StopTerms;
use stored_stops::terms_at;

// Whether a stop's terms have no inconsistency.
fn is_consistent(terms: StopTerms) -> bool
    ensures { result ≡ consistent terms }
{
    terms.inconsistency().is_none()
}

// Whether the stop in record i is sound.
fn sound_stop(s: &[u64], n: u64, i: u64) -> bool
    requires fact { Record n s.now i }
    requires bound { 1 ≤ record_word s.now i 7 }
    ensures { result ≡ sound_stop (get_or s.now 2 0) (get_or s.now 3 0) (held (entry_at s.now i)) }
{
    let seq = word(s, n, i, 8);
    if s[2] <= seq {
        return false;
    }
    let terms = terms_at(s, n, i);
    if !is_consistent(terms) {
        return false;
    }
    let tick = s[3];
    on_tick(tick, terms.trail)
}

// Whether word k of a record is zero, or the link of a free one.
fn is_blank_at(s: &[u64], n: u64, i: u64, k: usize) -> bool
    requires { Record n s.now i × (k < record_length) }
    ensures { result ≡ blank_at s.now i k }
{
    if k == NEXT_BY_STOP {
        return true;
    }
    word(s, n, i, k) == 0
}

// Whether the words of record i, but for its link, are zero.
fn is_blank(s: &[u64], n: u64, i: u64) -> bool
    requires { Record n s.now i }
    ensures { result ≡ blank s.now i }
{
    for k in 0..RECORD_WORDS {
        if !is_blank_at(s, n, i, k) {
            return false;
        }
    }
    true
}

// Whether record i is right by itself.
fn record_formed(s: &[u64], n: u64, i: u64) -> bool
    requires { Record n s.now i }
    ensures { result ≡ record_formed s.now i }
{
    let quantity = word(s, n, i, 7);
    if quantity == 0 {
        return is_blank(s, n, i);
    }
    let kind = word(s, n, i, 0);
    if kind > 2 {
        return false;
    }
    let side = word(s, n, i, 3);
    if side > 1 {
        return false;
    }
    sound_stop(s, n, i)
}

// Whether every record is right by itself.
pub fn records_formed(s: &[u64], n: u64) -> bool
    requires { Room n s.now }
    ensures { result ≡ every (record_formed s.now) (rising 1 n) }
{
    for i in 1..n + 1 {
        if !record_formed(s, n, i) {
            return false;
        }
    }
    true
}
