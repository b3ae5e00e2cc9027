// The elected stops of a side leave a store. They are the first of its stop chain; one pass takes them out of its
// watermark chain, then each goes from the head of the stop chain to that of the free chain.
#![tactic(auto)]

ghost use Rattle.std.specs.Prelude.{List, ◌≡◌, ℕ, length};
ghost use Rattle.book.specs.Steps.{elected_in, taken_on};
ghost use Rattle.book.specs.Book.{Book};
ghost use Rattle.chains.specs.Chained.{Chained, Kept, upd};
ghost use Rattle.book.specs.declared.StoreChain.{StoreChain};
ghost use Rattle.book.specs.declared.StoreChain.TheVariants.{Ordered};
ghost use Rattle.electing.specs.Elected.{first_elected, unelected, Dropped};
ghost use Rattle.pending_stops.specs.Stored.{Stored};

use book::Chain;
use pricelevel::{Price, Side};
use record_writer::write_free;
use records::{cell, head_of, link_of};
use store_chains::{push, take_out};
use stored_stops::terms_at;

// The first of a side's stop chain, if the price elects it; 0 otherwise.
fn first_elected(s: &[u64], n: u64, side: Side, price: Price) -> u64
    requires { (ch : StoreChain → List ℕ) × Chained n s.now ch }
    ensures { result ≡ first_elected side price s.now }
{
    let head = head_of(Chain::ByStop(side));
    let i = s[head];
    if i == 0 {
        return 0;
    }
    let terms = terms_at(s, n, i);
    if terms.elected_by(price) {
        return i;
    }
    0
}

// Takes every record whose stop the price elects out of a chain. Their own links stay as they are.
fn drop_elected(s: &mut [u64], n: u64, c: Chain, price: Price)
    requires { (ch : StoreChain → List ℕ) × Chained n s.old ch }
    ensures kept { Kept n s.old s.new }
    ensures by_index { (ch : StoreChain → List ℕ) → Chained n s.old ch
        → Chained n s.new (upd (Ordered c) (unelected price s.old (ch (Ordered c))) ch) }
{
    let link = link_of(c);
    let mut p = head_of(c);
    let mut left = n;
    loop {
        let i = s[p];
        if i == 0 {
            return;
        }
        let at = cell(i, link);
        let terms = terms_at(&s[..], n, i);
        left = left - 1;
        if terms.elected_by(price) {
            let next = s[at];
            s[p] = next;
            continue;
        }
        p = at;
    }
}

// Takes the elected from the head of a side's stop chain, one after the other, makes their records free and answers how
// many.
fn free_elected(s: &mut [u64], n: u64, side: Side, price: Price) -> u64
    requires { (b : Book) × (r : List ℕ) × (count : ℕ) × Dropped side price n s.old count b r }
    ensures { (b : Book) (r : List ℕ) (count : ℕ) → Dropped side price n s.old count b r
        → (result ≡ length (elected_in side price b)) × Dropped side price n s.new count (taken_on side price b) r }
{
    let mut m: u64 = 0;
    loop {
        let i = first_elected(&s[..], n, side, price);
        if i == 0 {
            return m;
        }
        take_out(s, n, Chain::ByStop(side), i);
        write_free(s, n, i, 0);
        push(s, n, i);
        m += 1;
    }
}

// Takes the elected stops of a side out of the store, and answers how many.
pub fn take_elected(s: &mut [u64], n: u64, side: Side, price: Price) -> u64
    requires { (b : Book) × (r : List ℕ) × Stored n s.old b r }
    ensures { (b : Book) (r : List ℕ) → Stored n s.old b r
        → (result ≡ length (elected_in side price b)) × Stored n s.new (taken_on side price b) r }
{
    if first_elected(&s[..], n, side, price) == 0 {
        return 0;
    }
    drop_elected(s, n, Chain::ByWatermark(side), price);
    let m = free_elected(s, n, side, price);
    let count = s[1];
    s[1] = count - m;
    m
}
