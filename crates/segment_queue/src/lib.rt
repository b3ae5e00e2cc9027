// The queue of a pass: the segments that children print.
#![tactic(auto)]

ghost use Rattle.std.specs.Prelude.{List, ◌≡◌};
ghost use Rattle.book.specs.declared.PrintSegment.{PrintSegment};
ghost use Rattle.script.specs.Queue.{Queued, first_of};

use book::PrintSegment;

// The next segment of the queue that stands from head up to tail.
pub fn segment_at(queue: &[PrintSegment], head: usize, tail: usize) -> Option<PrintSegment>
    requires { (q : List PrintSegment) × Queued queue.now head tail q }
    ensures { (q : List PrintSegment) → Queued queue.now head tail q → result ≡ first_of q }
{
    if head == tail {
        return None;
    }
    Some(queue[head])
}
