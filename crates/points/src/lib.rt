// A point, and the points of a segment and of a walk, on the words of a store.
#![tactic(auto)]

ghost use Rattle.std.specs.Prelude.{List, map, ◌≡◌, ℕ, ◌+◌, ◌≤◌, length};
ghost use Rattle.std.proofs.lemmas.List.Edits.{sets};
ghost use Rattle.book.specs.Steps.{elected_in, taken_on, other, trailed_both, elected_both, taken_both};
ghost use Rattle.book.specs.Book.{Book, pending_count};
ghost use Rattle.book.specs.Evaluation.{moved_by, fill_at, point};
ghost use Rattle.listing.specs.ChainEntries.{fill_words};
ghost use Rattle.pending_stops.specs.Stored.{Stored};

use book::ElectedWords;
use electing::take_elected;
use listing::list_elected;
use pricelevel::{Price, Side};
use side_order::{first_side, other};
use trailing::trail;

// ---------------------------------------------------------------------
// The steps of a point

// The stops of both sides trail at a price, the sells first. Answers how many stop prices are others than they were.
fn trail_both(s: &mut [u64], n: u64, price: Price) -> u64
    requires { (b : Book) × (r : List ℕ) × Stored n s.old b r }
    ensures { (b : Book) (r : List ℕ) → Stored n s.old b r
        → (result ≡ length (moved_by price b)) × Stored n s.new (trailed_both price b) r }
{
    let sells = trail(s, n, Side::Sell, price);
    let buys = trail(s, n, Side::Buy, price);
    sells + buys
}

// The elected stops of a side leave the store, and their fills go into the list, from a place on. Answers where the
// list goes on.
fn elect_on(
    s: &mut [u64],
    n: u64,
    side: Side,
    price: Price,
    list: &mut [ElectedWords],
    at: usize,
) -> usize
    requires { (b : Book) × (r : List ℕ) × Stored n s.old b r × (at + length (elected_in side price b) ≤ length list.old) }
    ensures { (b : Book) (r : List ℕ) → Stored n s.old b r
        → (result ≡ at + length (elected_in side price b))
        × (list.new ≡ sets list.old at (map (λ p. fill_words (fill_at price p)) (elected_in side price b)))
        × Stored n s.new (taken_on side price b) r }
{
    let end = list_elected(&s[..], n, side, price, list, at);
    take_elected(s, n, side, price);
    end
}

// The elected stops of both sides leave, one side first.
fn elect_both(
    s: &mut [u64],
    n: u64,
    first: Side,
    price: Price,
    list: &mut [ElectedWords],
    at: usize,
) -> usize
    requires { (b : Book) × (r : List ℕ) × Stored n s.old b r × (at + length (elected_both first price b) ≤ length list.old) }
    ensures { (b : Book) (r : List ℕ) → Stored n s.old b r
        → (result ≡ at + length (elected_both first price b))
        × (list.new ≡ sets list.old at (map (λ p. fill_words (fill_at price p)) (elected_both first price b)))
        × Stored n s.new (taken_both first price b) r }
{
    let second = other(first);
    let middle = elect_on(s, n, first, price, list, at);
    elect_on(s, n, second, price, list, middle)
}

// ---------------------------------------------------------------------
// A point

// What points did: how many times a stop price became another, and where the list of the elected goes on.
#[derive(Clone, Copy)]
pub struct Points {
    pub moves: u64,
    pub at: usize,
}

// A point at a price: the stops trail, and then, unless the kill switch is on, the elected leave and their fills go
// into the list.
pub fn point(
    s: &mut [u64],
    n: u64,
    kill: bool,
    sells: bool,
    price: Price,
    list: &mut [ElectedWords],
    at: usize,
) -> Points
    requires { (b : Book) × (r : List ℕ) × Stored n s.old b r × (at + pending_count b.slots ≤ length list.old) }
    ensures { (b : Book) (r : List ℕ) → Stored n s.old b r
        → (result.moves ≡ length (point kill sells price b).moved)
        × (result.at ≡ at + length (point kill sells price b).fills)
        × (list.new ≡ sets list.old at (map fill_words (point kill sells price b).fills))
        × Stored n s.new (point kill sells price b).book r }
{
    let moves = trail_both(s, n, price);
    if kill {
        return Points {
            moves: moves,
            at: at,
        };
    }
    let end = elect_both(s, n, first_side(sells), price, list, at);
    Points {
        moves: moves,
        at: end,
    }
}
