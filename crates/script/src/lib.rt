// The script of a pass, which stands for the matching of the children, and the queue of the segments that they print.
//
//     script entry: printed (0, 1), prev present (0, 1), prev, first, last
#![tactic(auto)]

ghost use Rattle.std.specs.Prelude.{true, List, ◌≡◌, ◌+◌, ◌*◌, ◌≤◌, ◌<◌, length, drop};
ghost use Rattle.book.specs.Script.{script_formed, script_segment, execute_one, executed};
ghost use Rattle.book.specs.Sizes.{script_entry_length};
ghost use Rattle.book.specs.declared.Elected.{Elected};
ghost use Rattle.script.specs.Execute.{pending_word, Flags, Advanced};
ghost use Rattle.script.specs.Queue.{Enqueued};

use book::{ElectedWords, PENDING_PLACE, PrintSegment, SCRIPT_ENTRY_WORDS};
use pricelevel::Price;

// Whether a script is of whole entries, with both flags of each 0 or 1.
pub fn script_formed(script: &[u64]) -> bool
    ensures { result ≡ script_formed script.now }
{
    if script.len() % SCRIPT_ENTRY_WORDS != 0 {
        return false;
    }
    for k in 0..script.len() / SCRIPT_ENTRY_WORDS {
        let at = SCRIPT_ENTRY_WORDS * k;
        if script[at] > 1 {
            return false;
        }
        if script[at + 1] > 1 {
            return false;
        }
    }
    true
}

// Puts the segment that an entry of the script printed, if it printed one, behind the queue, and answers the tail after
// it.
fn put_printed(script: &[u64], at: usize, queue: &mut [PrintSegment], tail: usize) -> usize
    requires { (at + script_entry_length ≤ length script.now) × (tail < length queue.old) }
    ensures { Enqueued (script_segment (drop at script.now)) queue.old tail queue.new result }
{
    if script[at] != 1 {
        return tail;
    }
    let mut prev = None;
    if script[at + 1] == 1 {
        prev = Some(Price(script[at + 2]));
    }
    queue[tail] = PrintSegment {
        prev: prev,
        first: Price(script[at + 3]),
        last: Price(script[at + 4]),
    };
    tail + 1
}

// How far a segment's elected came: the entries of the script that they used, and the queue's tail.
#[derive(Clone, Copy)]
pub struct Execution {
    pub used: usize,
    pub tail: usize,
}

// Executes one elected, with the word that says whether its child identity is pending, behind the used entries of the
// script.
fn execute_one(
    pending: u64,
    script: &[u64],
    used: usize,
    queue: &mut [PrintSegment],
    tail: usize,
) -> Execution
    requires { (script_formed script.now ≡ true) × (script_entry_length * used ≤ length script.now) × (tail < length queue.old) }
    ensures { (e : Elected) → pending ≡ pending_word e
        → Advanced (execute_one (drop (script_entry_length * used) script.now) e)
        used queue.old tail result.used queue.new result.tail }
{
    let at = SCRIPT_ENTRY_WORDS * used;
    if pending == 1 {
        return Execution {
            used: used,
            tail: tail,
        };
    }
    if at == script.len() {
        return Execution {
            used: used,
            tail: tail,
        };
    }
    let end = put_printed(script, at, queue, tail);
    Execution {
        used: used + 1,
        tail: end,
    }
}

// Executes the elected of a list from one entry up to another, in turn: each whose child identity is free uses the next
// entry of the script, and the segment that it printed, if it printed one, goes behind the queue.
pub fn execute(
    list: &[ElectedWords],
    from: usize,
    to: usize,
    script: &[u64],
    queue: &mut [PrintSegment],
    tail: usize,
) -> Execution
    requires script_value { script_formed script.now ≡ true }
    requires flags { (es : List Elected) × Flags list.now from es × (to ≡ from + length es) × (to ≤ length list.now)
        × (tail + length es ≤ length queue.old) }
    ensures used_value { (es : List Elected) → Flags list.now from es → to ≡ from + length es
        → (result.used ≡ (executed script.now es).used)
        × Enqueued (executed script.now es).segments queue.old tail queue.new result.tail }
    ensures used_in_bounds { (script_entry_length * result.used ≤ length script.now) × (result.tail + from ≤ tail + to) }
{
    let mut used: usize = 0;
    let mut end = tail;
    for i in from..to {
        let pending = list[i][PENDING_PLACE];
        let after = execute_one(pending, script, used, queue, end);
        used = after.used;
        end = after.tail;
    }
    Execution {
        used: used,
        tail: end,
    }
}
