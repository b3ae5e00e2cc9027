// A point at each price of a walk, on the words of a store.
#![tactic(auto)]

ghost use Rattle.std.specs.Prelude.{List, map, ◌≡◌, ℕ, ◌+◌, ◌≤◌, length};
ghost use Rattle.std.proofs.lemmas.List.Edits.{sets};
ghost use Rattle.book.specs.Book.{Book, pending_count};
ghost use Rattle.book.specs.Sizes.{most_prices};
ghost use Rattle.book.specs.Evaluation.{point, walk};
ghost use Rattle.listing.specs.ChainEntries.{fill_words};
ghost use Rattle.pending_stops.specs.Stored.{Stored};
ghost use Rattle.pricelevel.specs.Price.{to_price};

use book::ElectedWords;
use points::{Points, point};
use pricelevel::Price;
use side_order::{falls_to, sells_first};

// ---------------------------------------------------------------------
// A walk

// The points of a walk along prices, whose fills go into the list.
pub fn walk_points(
    s: &mut [u64],
    n: u64,
    kill: bool,
    prev: Option<Price>,
    prices: &[u64],
    list: &mut [ElectedWords],
) -> Points
    requires by_index { (b : Book) × (r : List ℕ) × Stored n s.old b r × (pending_count b.slots ≤ length list.old) }
    requires in_bounds { (1 ≤ length prices.now) × (length prices.now ≤ most_prices) }
    ensures { (b : Book) (r : List ℕ) → Stored n s.old b r
        → (result.moves ≡ length (walk kill prev (map to_price prices.now) b).moved)
        × (result.at ≡ length (walk kill prev (map to_price prices.now) b).fills)
        × (list.new ≡ sets list.old 0 (map fill_words (walk kill prev (map to_price prices.now) b).fills))
        × Stored n s.new (walk kill prev (map to_price prices.now) b).book r }
{
    let count = prices.len();
    let falls = falls_to(Price(prices[0]), Price(prices[count - 1]));
    let mut from = prev;
    let mut moves: u64 = 0;
    let mut at: usize = 0;
    for i in 0..count {
        let price = Price(prices[i]);
        let p = point(s, n, kill, sells_first(falls, from, price), price, list, at);
        moves += p.moves;
        at = p.at;
        from = Some(price);
    }
    Points {
        moves: moves,
        at: at,
    }
}
