// A pass on the words of a store: the segments of a queue, one after another, with the script that stands for the
// matching of the children.
#![tactic(auto)]

ghost use Rattle.std.specs.Prelude.{true, List, map, ◌≡◌, ℕ, ◌+◌, ◌≤◌, length};
ghost use Rattle.std.proofs.lemmas.List.Edits.{sets};
ghost use Rattle.book.specs.Book.{Book, pending_count};
ghost use Rattle.book.specs.Calls.{pass};
ghost use Rattle.book.specs.Script.{script_formed};
ghost use Rattle.book.specs.Entries.{elected_words};
ghost use Rattle.pending_stops.specs.Stored.{Stored};

use book::{ElectedWords, MOST_RECORDS, PrintSegment, Settings};
use pass_segments::pass_segment;
use pricelevel::Price;
use segment_queue::segment_at;

// What the places of the queue hold before a segment stands there.
const NO_SEGMENT: PrintSegment = PrintSegment {
    prev: None,
    first: Price(0),
    last: Price(0),
};

// What a pass did: how many times a stop price became another, where the list of the elected goes on, and the script
// entries used.
#[derive(Clone, Copy)]
pub struct Passed {
    pub moves: u64,
    pub at: usize,
    pub used: u64,
}

// A pass from one segment on: takes the segments of the queue, from head up to tail, until it or the store is empty.
// Each segment but the first stems from an elected stop, so that the queue has room for all.
pub fn pass(
    s: &mut [u64],
    n: u64,
    settings: Settings,
    script: &[u64],
    prints: PrintSegment,
    list: &mut [ElectedWords],
) -> Passed
    requires script_value { script_formed script.now ≡ true }
    requires by_index { (b : Book) × (r : List ℕ) × Stored n s.old b r × (pending_count b.slots ≤ length list.old) }
    ensures { (b : Book) (r : List ℕ) → Stored n s.old b r
        → (result.moves ≡ (pass settings script.now prints b).moves)
        × (result.at ≡ length (pass settings script.now prints b).entries)
        × (result.used ≡ (pass settings script.now prints b).used)
        × (list.new ≡ sets list.old 0 (map elected_words (pass settings script.now prints b).entries))
        × Stored n s.new (pass settings script.now prints b).book r }
{
    let mut queue = [NO_SEGMENT; MOST_RECORDS + 1];
    queue[0] = prints;
    let mut head: usize = 0;
    let mut tail: usize = 1;
    let mut moves: u64 = 0;
    let mut at: usize = 0;
    let mut used: usize = 0;
    loop {
        let Some(next) = segment_at(&queue[..], head, tail) else {
            break;
        };
        if s[1] == 0 {
            break;
        }
        let run = pass_segment(
            s,
            n,
            settings,
            next,
            &script[5 * used..],
            &mut queue[..],
            tail,
            list,
            at,
        );
        head += 1;
        tail = run.tail;
        moves += run.moves;
        at = run.at;
        used += run.used;
    }
    Passed {
        moves: moves,
        at: at,
        used: used as u64,
    }
}
