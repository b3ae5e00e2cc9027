// A stop read from its record, and the record of an identity found along the stop chains.
#![tactic(auto)]

ghost use Rattle.std.specs.Prelude.{◌≡◌, true, List, ℕ, ◌≤◌, length, get_or};
ghost use Rattle.book.specs.Store.{lookup};
ghost use Rattle.book.specs.Words.{kind_of, side_from, entry_at, book_of, well_formed};
ghost use Rattle.book.specs.Sizes.{next_by_stop};
ghost use Rattle.chains.specs.Links.{Linked};
ghost use Rattle.chains.specs.Records.{Room, Record};
ghost use Rattle.store_words.specs.Search.{first_named, index_or0};

use book::{Chain, NEXT_BY_STOP, StopEntry};
use pricelevel::{Holder, Id, IdKind, Price, Quantity, Seq, Side};
use records::{head_of, word};
use stop_terms::StopTerms;

// What a kind's word stands for.
pub fn kind_of(k: u64) -> IdKind
    ensures { result ≡ kind_of k }
{
    match k {
        0 => IdKind::Uuid,
        1 => IdKind::Ulid,
        _ => IdKind::Sequential,
    }
}

// What a side's word stands for.
pub fn side_from(k: u64) -> Side
    ensures { result ≡ side_from k }
{
    match k {
        0 => Side::Buy,
        _ => Side::Sell,
    }
}

// The identity in record i.
fn id_at(s: &[u64], n: u64, i: u64) -> Id
    requires { Record n s.now i }
    ensures { result ≡ (entry_at s.now i).id }
{
    let kind = kind_of(word(s, n, i, 0));
    let high = word(s, n, i, 1);
    let low = word(s, n, i, 2);
    Id {
        kind: kind,
        high: high,
        low: low,
    }
}

// The terms in record i.
pub fn terms_at(s: &[u64], n: u64, i: u64) -> StopTerms
    requires { Record n s.now i }
    ensures { result ≡ (entry_at s.now i).terms }
{
    let side = side_from(word(s, n, i, 3));
    let stop = word(s, n, i, 4);
    let watermark = word(s, n, i, 5);
    let trail = word(s, n, i, 6);
    StopTerms {
        side: side,
        stop: Price(stop),
        watermark: Price(watermark),
        trail: trail,
    }
}

// The holder in record i.
fn holder_at(s: &[u64], n: u64, i: u64) -> Holder
    requires { Record n s.now i }
    ensures { result ≡ (entry_at s.now i).holder }
{
    let first = word(s, n, i, 11);
    let second = word(s, n, i, 12);
    let third = word(s, n, i, 13);
    let fourth = word(s, n, i, 14);
    Holder(first, second, third, fourth)
}

// The stop in record i.
pub fn entry_at(s: &[u64], n: u64, i: u64) -> StopEntry
    requires { Record n s.now i }
    ensures { result ≡ entry_at s.now i }
{
    let id = id_at(s, n, i);
    let terms = terms_at(s, n, i);
    let quantity = word(s, n, i, 7);
    let seq = word(s, n, i, 8);
    let holder = holder_at(s, n, i);
    StopEntry {
        id: id,
        terms: terms,
        quantity: Quantity(quantity),
        seq: Seq(seq),
        holder: holder,
    }
}

// The first record with this identity from record i on, by the links of a stop chain that has at most left records to
// go; 0 for none. What is left is the measure by which the calls end; a chain ends by its 0.
fn find_from(s: &[u64], n: u64, i: u64, left: u64, id: Id) -> u64
    requires room { Room n s.now }
    requires by_index { (p : ℕ) × (l : List ℕ) × (get_or s.now p 0 ≡ i) × Linked n s.now next_by_stop p l × (length l ≤ left) }
    ensures { (p : ℕ) (l : List ℕ) → get_or s.now p 0 ≡ i → Linked n s.now next_by_stop p l
        → result ≡ first_named s.now id l }
{
    if i == 0 {
        return 0;
    }
    let here = id_at(s, n, i);
    if id.eq(here) {
        return i;
    }
    let next = word(s, n, i, NEXT_BY_STOP);
    find_from(s, n, next, left - 1, id)
}

// The record that holds an identity: along the sell stop chain, then the buy stop chain; 0 for none.
pub fn find_id(s: &[u64], n: u64, id: Id) -> u64
    requires { (well_formed s.now ≡ true) × (n ≡ get_or s.now 0 0) }
    ensures { result ≡ index_or0 (lookup id (book_of s.now)) }
{
    let sell = s[head_of(Chain::ByStop(Side::Sell))];
    let i = find_from(s, n, sell, n, id);
    if i != 0 {
        return i;
    }
    let buy = s[head_of(Chain::ByStop(Side::Buy))];
    find_from(s, n, buy, n, id)
}
