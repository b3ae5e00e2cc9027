// The points of a segment, at its first print and at its last if that differs, and the lists that they fill.
#![tactic(auto)]

ghost use Rattle.std.specs.Prelude.{List, map, ◌≡◌, ℕ, ◌+◌, ◌*◌, ◌≤◌, length};
ghost use Rattle.std.proofs.lemmas.List.Edits.{sets};
ghost use Rattle.book.specs.Book.{Book, pending_count};
ghost use Rattle.book.specs.Evaluation.{moved_by, point, segment};
ghost use Rattle.book.specs.Entries.{moved_words};
ghost use Rattle.listing.specs.ChainEntries.{fill_words};
ghost use Rattle.pending_stops.specs.Stored.{Stored};
ghost use Rattle.segments.specs.Segments.{second_point};

use book::{ElectedWords, MovedWords, PrintSegment};
use listing::list_moved;
use points::{Points, point};
use pricelevel::{Price, Side};
use side_order::{falls_to, sells_first};

// ---------------------------------------------------------------------
// A point

// Writes the moves of the stops of both sides at a price into the list, from a place on, the sells first. Answers where
// the list goes on.
pub fn list_moves(s: &[u64], n: u64, price: Price, moved: &mut [MovedWords], at: usize) -> usize
    requires { (b : Book) × (r : List ℕ) × Stored n s.now b r × (at + length (moved_by price b) ≤ length moved.old) }
    ensures { (b : Book) (r : List ℕ) → Stored n s.now b r
        → (result ≡ at + length (moved_by price b))
        × (moved.new ≡ sets moved.old at (map moved_words (moved_by price b))) }
{
    let middle = list_moved(s, n, Side::Sell, price, moved, at);
    list_moved(s, n, Side::Buy, price, moved, middle)
}

// ---------------------------------------------------------------------
// A segment

// A segment has a second point, at its last print, if that differs from the first.
fn second_point(first: Price, last: Price) -> Option<Price>
    ensures { result ≡ second_point first last }
{
    if first.0 == last.0 {
        return None;
    }
    Some(last)
}

// The points of a segment, whose fills go into the list, from a place on.
pub fn segment_points(
    s: &mut [u64],
    n: u64,
    kill: bool,
    prints: PrintSegment,
    list: &mut [ElectedWords],
    at: usize,
) -> Points
    requires { (b : Book) × (r : List ℕ) × Stored n s.old b r × (at + pending_count b.slots ≤ length list.old) }
    ensures { (b : Book) (r : List ℕ) → Stored n s.old b r
        → (result.moves ≡ length (segment kill prints b).moved)
        × (result.at ≡ at + length (segment kill prints b).fills)
        × (list.new ≡ sets list.old at (map fill_words (segment kill prints b).fills))
        × Stored n s.new (segment kill prints b).book r }
{
    let prev = prints.prev;
    let first = prints.first;
    let last = prints.last;
    let falls = falls_to(first, last);
    let one = point(s, n, kill, sells_first(falls, prev, first), first, list, at);
    let Some(end) = second_point(first, last) else {
        return one;
    };
    let sells = sells_first(falls, Some(first), end);
    let two = point(s, n, kill, sells, end, list, one.at);
    Points {
        moves: one.moves + two.moves,
        at: two.at,
    }
}

// The points of a segment, whose fills go into the list, and whose moves go into the list of the moved.
pub fn segment_listed(
    s: &mut [u64],
    n: u64,
    kill: bool,
    prints: PrintSegment,
    list: &mut [ElectedWords],
    moved: &mut [MovedWords],
) -> Points
    requires { (b : Book) × (r : List ℕ) × Stored n s.old b r × (pending_count b.slots ≤ length list.old)
        × (2 * pending_count b.slots ≤ length moved.old) }
    ensures { (b : Book) (r : List ℕ) → Stored n s.old b r
        → (result.moves ≡ length (segment kill prints b).moved)
        × (result.at ≡ length (segment kill prints b).fills)
        × (list.new ≡ sets list.old 0 (map fill_words (segment kill prints b).fills))
        × (moved.new ≡ sets moved.old 0 (map moved_words (segment kill prints b).moved))
        × Stored n s.new (segment kill prints b).book r }
{
    let prev = prints.prev;
    let first = prints.first;
    let last = prints.last;
    let falls = falls_to(first, last);
    let middle = list_moves(&s[..], n, first, moved, 0);
    let one = point(s, n, kill, sells_first(falls, prev, first), first, list, 0);
    let Some(end) = second_point(first, last) else {
        return one;
    };
    list_moves(&s[..], n, end, moved, middle);
    let sells = sells_first(falls, Some(first), end);
    let two = point(s, n, kill, sells, end, list, one.at);
    Points {
        moves: one.moves + two.moves,
        at: two.at,
    }
}
