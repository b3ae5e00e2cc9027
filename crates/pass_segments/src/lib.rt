// One segment of a pass: its points, the children of what it elected, and the script entries that they use.
#![tactic(auto)]

ghost use Rattle.std.specs.Prelude.{true, List, map, ◌≡◌, ℕ, ◌+◌, ◌≤◌, length};
ghost use Rattle.std.proofs.lemmas.List.Edits.{sets};
ghost use Rattle.book.specs.Book.{Book, pending_count};
ghost use Rattle.book.specs.Calls.{elected_entries, evaluated_in, executed_in};
ghost use Rattle.book.specs.Script.{script_formed};
ghost use Rattle.book.specs.Entries.{elected_words};
ghost use Rattle.pending_stops.specs.Stored.{Stored};
ghost use Rattle.script.specs.Queue.{Enqueued};

use book::{ElectedWords, PrintSegment, Settings};
use children::complete;
use script::execute;
use segments::segment_points;

// What a segment of a pass did: how many times a stop price became another, where the list of the elected goes on, the
// script entries used, and the queue's tail.
#[derive(Clone, Copy)]
pub struct SegmentPassed {
    pub moves: u64,
    pub at: usize,
    pub used: usize,
    pub tail: usize,
}

// A segment of a pass: its elected go into the list, from a place on, and execute on the script; the segments that they
// print go behind the queue's tail.
pub fn pass_segment(
    s: &mut [u64],
    n: u64,
    settings: Settings,
    prints: PrintSegment,
    script: &[u64],
    queue: &mut [PrintSegment],
    tail: usize,
    list: &mut [ElectedWords],
    at: usize,
) -> SegmentPassed
    requires script_value { script_formed script.now ≡ true }
    requires by_index { (b : Book) × (r : List ℕ) × Stored n s.old b r × (tail + pending_count b.slots ≤ length queue.old)
        × (at + pending_count b.slots ≤ length list.old) }
    ensures { (b : Book) (r : List ℕ) → Stored n s.old b r
        → (result.moves ≡ length (evaluated_in settings prints b).moved)
        × (result.at ≡ at + length (elected_entries settings (evaluated_in settings prints b)))
        × (result.used ≡ (executed_in settings script.now prints b).used)
        × Enqueued (executed_in settings script.now prints b).segments queue.old tail queue.new result.tail
        × (list.new ≡ sets list.old at (map elected_words (elected_entries settings (evaluated_in settings prints b))))
        × Stored n s.new (evaluated_in settings prints b).book r }
{
    let o = segment_points(s, n, settings.kill, prints, list, at);
    complete(&s[..], n, settings, list, at, o.at);
    let run = execute(&list[..], at, o.at, script, queue, tail);
    SegmentPassed {
        moves: o.moves,
        at: o.at,
        used: run.used,
        tail: run.tail,
    }
}
