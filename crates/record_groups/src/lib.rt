// The three groups of records, sells, buys and free: to which a record belongs, how many each has, and where its chain
// starts.
#![tactic(auto)]

ghost use Rattle.std.specs.Prelude.{◌≡◌, ◌+◌, ◌-◌};
ghost use Rattle.book.specs.Book.{chain_side};
ghost use Rattle.book.specs.Words.{slot_at};
ghost use Rattle.chains.specs.Records.{Room, Record};
ghost use Rattle.form_check.specs.Check.{SidesCounted};
ghost use Rattle.book.specs.Chains.{start_of, next_of, group_of, slot_group};

use book::{Chain, NEXT_BY_STOP, StoreChain};
use form_check::Sides;
use pricelevel::Side;
use records::{head_of, link_of, word};

// What record i is in: 0 or 1, the chains of a side, or 2, that of the vacant records.
pub fn group_of(s: &[u64], n: u64, i: u64) -> u64
    requires { Record n s.now i }
    ensures { result ≡ slot_group (slot_at s.now i) }
{
    let quantity = word(s, n, i, 7);
    if quantity == 0 {
        return 2;
    }
    let side = word(s, n, i, 3);
    if side == 0 {
        return 0;
    }
    1
}

// How many records each side has.
pub fn count_sides(s: &[u64], n: u64) -> Sides
    requires { Room n s.now }
    ensures { SidesCounted result s.now n }
{
    let mut sells: u64 = 0;
    let mut buys: u64 = 0;
    for i in 1..n + 1 {
        let g = group_of(s, n, i);
        if g == 1 {
            sells = sells + 1;
        }
        if g == 0 {
            buys = buys + 1;
        }
    }
    Sides {
        sells: sells,
        buys: buys,
    }
}

// The header word that starts a chain.
pub fn start_of(k: StoreChain) -> usize
    ensures { result ≡ start_of k }
{
    match k {
        StoreChain::Ordered(c) => head_of(c),
        StoreChain::Free => 8,
    }
}

// The word of a record that links it to the next of a chain.
pub fn next_of(k: StoreChain) -> usize
    ensures { result ≡ next_of k }
{
    match k {
        StoreChain::Ordered(c) => link_of(c),
        StoreChain::Free => NEXT_BY_STOP,
    }
}

// The side of a chain in order.
fn side_of(c: Chain) -> Side
    ensures { result ≡ chain_side c }
{
    match c {
        Chain::ByStop(side) => side,
        Chain::ByWatermark(side) => side,
    }
}

// The group of the records that a chain holds.
pub fn group_in(k: StoreChain) -> u64
    ensures { result ≡ group_of k }
{
    match k {
        StoreChain::Ordered(c) => {
            let side = side_of(c);
            side.number() as u64
        }
        StoreChain::Free => 2,
    }
}
