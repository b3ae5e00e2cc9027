// The argument of a child: no price, the first and the last, or a start as well.
ghost use Rattle.std.specs.Prelude.{◌≤◌, ◌≡◌, length};
ghost use Rattle.sheet_words.specs.Words.{range_at, started_at, child_at};

use text_numbers::{Step, got, number_at};
use text_words::{next_word, same};

// FIRST LAST, behind what is known of the start.
#[tactic(auto, unfolding(crate::specs::Words::range_at))]
fn range_at(given: u64, start: u64, line: &[u8], at: usize) -> Step
    requires { at ≤ length line.now }
    ensures { (result ≡ range_at given start line.now at) × (result.next ≤ length line.now) }
{
    let first = number_at(line, at);
    if first.fault != 0 {
        return first;
    }
    let last = number_at(line, first.next);
    if last.fault != 0 {
        return last;
    }
    got(5, 1, given, start, first.a, last.a, last.next)
}

// P FIRST LAST, behind `from`.
#[tactic(auto, unfolding(crate::specs::Words::started_at))]
fn started_at(line: &[u8], at: usize) -> Step
    requires { at ≤ length line.now }
    ensures { (result ≡ started_at line.now at) × (result.next ≤ length line.now) }
{
    let start = number_at(line, at);
    if start.fault != 0 {
        return start;
    }
    range_at(1, start.a, line, start.next)
}

// `none`, or FIRST LAST, or `from` P FIRST LAST.
#[tactic(auto, unfolding(crate::specs::Words::child_at, crate::specs::Words::none_text, crate::specs::Words::from_text))]
pub fn child_at(line: &[u8], at: usize) -> Step
    requires { at ≤ length line.now }
    ensures { (result ≡ child_at line.now at) × (result.next ≤ length line.now) }
{
    let w = next_word(line, at);
    let start = w.start;
    let end = w.end;
    if same(&line[start..end], b"none") {
        return got(5, 0, 0, 0, 0, 0, end);
    }
    if same(&line[start..end], b"from") {
        return started_at(line, end);
    }
    range_at(0, 0, line, at)
}
