// The form check's walk of a chain: it ascends, holds the records of its side and no other, and ends after as many as
// there are.
#![tactic(auto)]

ghost use Rattle.std.specs.Prelude.{◌≡◌, ◌+◌, ◌-◌, ◌≤◌, ◌<◌};
ghost use Rattle.pricelevel.specs.Side.{side_number};
ghost use Rattle.book.specs.Words.{slots_at};
ghost use Rattle.chains.specs.Records.{Room, Record};
ghost use Rattle.form_check.specs.Check.{group_count, may_follow, walk_formed, side_formed, chains_formed};
ghost use Rattle.book.specs.Chains.{start_of};

use book::{Chain, StoreChain};
use pricelevel::Side;
use record_groups::{count_sides, group_in, group_of, next_of, start_of};
use records::{cell, is_before, rank_of};

// Whether record j may come after record q in a chain, or first, where q is 0.
fn may_follow(s: &[u64], n: u64, k: StoreChain, q: u64, j: u64) -> bool
    requires { Record n s.now j × (q ≤ n) }
    ensures { result ≡ may_follow k s.now q j }
{
    let StoreChain::Ordered(c) = k else {
        return true;
    };
    if q == 0 {
        return true;
    }
    is_before(rank_of(s, n, c, q), rank_of(s, n, c, j))
}

// Whether a chain has so many records and no more, each of its group and in order.
fn walk_formed(s: &[u64], n: u64, k: StoreChain, count: u64) -> bool
    requires { Room n s.now }
    ensures { result ≡ walk_formed k s.now n count (start_of k) 0 }
{
    let g = group_in(k);
    let link = next_of(k);
    let mut p = start_of(k);
    let mut q: u64 = 0;
    for _seen in 0..count {
        let j = s[p];
        if j < 1 {
            return false;
        }
        if j > n {
            return false;
        }
        let h = group_of(s, n, j);
        if h != g {
            return false;
        }
        if !may_follow(s, n, k, q, j) {
            return false;
        }
        p = cell(j, link);
        q = j;
    }
    s[p] == 0
}

// Whether the two chains of a side hold its records, of which there are so many.
fn side_formed(s: &[u64], n: u64, side: Side, count: u64) -> bool
    requires room { Room n s.now }
    requires count_value { count ≡ group_count (side_number side) (slots_at s.now 1 n) }
    ensures { result ≡ side_formed side s.now n }
{
    let stops = StoreChain::Ordered(Chain::ByStop(side));
    if !walk_formed(s, n, stops, count) {
        return false;
    }
    let watermarks = StoreChain::Ordered(Chain::ByWatermark(side));
    walk_formed(s, n, watermarks, count)
}

// Whether the count and the five chains are right.
pub fn chains_formed(s: &[u64], n: u64) -> bool
    requires { Room n s.now }
    ensures { result ≡ chains_formed s.now n }
{
    let sides = count_sides(s, n);
    let sells = sides.sells;
    let buys = sides.buys;
    let pending = sells + buys;
    if s[1] != pending {
        return false;
    }
    if !side_formed(s, n, Side::Sell, sells) {
        return false;
    }
    if !side_formed(s, n, Side::Buy, buys) {
        return false;
    }
    walk_formed(s, n, StoreChain::Free, n - pending)
}
