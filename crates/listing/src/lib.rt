// The lists that an evaluation is lent, as entries of words: the stops that a print moves, those that it elects, and
// the limits and child orders of the elected. The store is only read.
//
//     moved:   kind high low stop
//     elected: kind high low side stop quantity seq trigger | limit present, high, low, child high, low, child pending
#![tactic(auto)]

ghost use Rattle.std.specs.Prelude.{List, map, ◌≡◌, ℕ, ◌+◌, ◌≤◌, ◌<◌, length, set};
ghost use Rattle.std.proofs.lemmas.List.Edits.{sets};
ghost use Rattle.book.specs.Steps.{elected_in};
ghost use Rattle.book.specs.Book.{Book};
ghost use Rattle.book.specs.Evaluation.{moved_on, fill_at};
ghost use Rattle.book.specs.Words.{entry_at};
ghost use Rattle.chains.specs.Records.{Record};
ghost use Rattle.book.specs.Entries.{moved_words};
ghost use Rattle.listing.specs.ChainEntries.{fill_words, moves_of, fill_of};
ghost use Rattle.pending_stops.specs.Stored.{Stored};

use book::{Chain, ElectedWords, MovedWords};
use pricelevel::{Price, Side};
use records::{head_of, link_of, word};
use stop_terms::is_behind;
use stored_stops::{entry_at, terms_at};

// ---------------------------------------------------------------------
// The stops that a print moves

// Writes the move of the stop in record i, if a trade at the price changes its stop; answers where the list goes on.
fn list_move(s: &[u64], n: u64, i: u64, price: Price, list: &mut [MovedWords], at: usize) -> usize
    requires { Record n s.now i × (at + length (moves_of price (entry_at s.now i)) ≤ length list.old) }
    ensures { (result ≡ at + length (moves_of price (entry_at s.now i)))
        × (list.new ≡ sets list.old at (moves_of price (entry_at s.now i))) }
{
    let t = entry_at(s, n, i);
    let id = t.id;
    let kind = id.kind;
    let terms = t.terms;
    let stop = terms.stop;
    let after = terms.trailed(price);
    let new_stop = after.stop;
    if new_stop.0 == stop.0 {
        return at;
    }
    list[at] = [kind.number() as u64, id.high, id.low, new_stop.0];
    at + 1
}

// Writes the moves of the stops of a side at a price into the list, from a place on, in watermark chain order: those
// whose watermark is behind the price come first. Answers where the list goes on.
pub fn list_moved(
    s: &[u64],
    n: u64,
    side: Side,
    price: Price,
    list: &mut [MovedWords],
    at: usize,
) -> usize
    requires { (b : Book) × (r : List ℕ) × Stored n s.now b r × (at + length (moved_on price side b) ≤ length list.old) }
    ensures { (b : Book) (r : List ℕ) → Stored n s.now b r
        → (result ≡ at + length (moved_on price side b))
        × (list.new ≡ sets list.old at (map moved_words (moved_on price side b))) }
{
    let c = Chain::ByWatermark(side);
    let mut i = s[head_of(c)];
    let mut m = at;
    let mut left = n;
    while i != 0 {
        let terms = terms_at(s, n, i);
        let watermark = terms.watermark;
        if !is_behind(side, watermark, price) {
            return m;
        }
        m = list_move(s, n, i, price, list, m);
        i = word(s, n, i, link_of(c));
        left -= 1;
    }
    m
}

// ---------------------------------------------------------------------
// The stops that a print elects

// Writes the fill of the stop in record i at a price; the words of limit, child and pending are zero. Answers where the
// list goes on.
fn list_fill(s: &[u64], n: u64, i: u64, price: Price, list: &mut [ElectedWords], at: usize) -> usize
    requires { Record n s.now i × (at < length list.old) }
    ensures { (result ≡ at + 1) × (list.new ≡ set list.old at (fill_of price (entry_at s.now i))) }
{
    let t = entry_at(s, n, i);
    let id = t.id;
    let kind = id.kind;
    let terms = t.terms;
    let side = terms.side;
    let stop = terms.stop;
    let quantity = t.quantity;
    let seq = t.seq;
    list[at] = [
        kind.number() as u64,
        id.high,
        id.low,
        side.number() as u64,
        stop.0,
        quantity.0,
        seq.0,
        price.0,
        0,
        0,
        0,
        0,
        0,
        0,
    ];
    at + 1
}

// Writes the fills of the stops of a side that a price elects into the list, from a place on, in stop chain order: they
// come first. Answers where the list goes on.
pub fn list_elected(
    s: &[u64],
    n: u64,
    side: Side,
    price: Price,
    list: &mut [ElectedWords],
    at: usize,
) -> usize
    requires { (b : Book) × (r : List ℕ) × Stored n s.now b r × (at + length (elected_in side price b) ≤ length list.old) }
    ensures { (b : Book) (r : List ℕ) → Stored n s.now b r
        → (result ≡ at + length (elected_in side price b))
        × (list.new ≡ sets list.old at (map (λ p. fill_words (fill_at price p)) (elected_in side price b))) }
{
    let c = Chain::ByStop(side);
    let mut i = s[head_of(c)];
    let mut m = at;
    let mut left = n;
    while i != 0 {
        let terms = terms_at(s, n, i);
        if !terms.elected_by(price) {
            return m;
        }
        m = list_fill(s, n, i, price, list, m);
        i = word(s, n, i, link_of(c));
        left -= 1;
    }
    m
}
