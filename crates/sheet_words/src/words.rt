// Arguments that are words of the language, or numbers in their place.
ghost use Rattle.std.specs.Prelude.{◌≤◌, ◌≡◌, length};
ghost use Rattle.sheet_words.specs.Words.{optional_at, either_at};

use text_numbers::{Step, bad, got, number_at};
use text_words::{next_word, same};

// A number or `none`.
#[tactic(auto, unfolding(crate::specs::Words::optional_at, crate::specs::Words::none_text))]
pub fn optional_at(line: &[u8], at: usize) -> Step
    requires { at ≤ length line.now }
    ensures { (result ≡ optional_at line.now at) × (result.next ≤ length line.now) }
{
    let w = next_word(line, at);
    let start = w.start;
    let end = w.end;
    if same(&line[start..end], b"none") {
        return got(2, 0, 0, 0, 0, 0, end);
    }
    let n = number_at(line, at);
    if n.fault != 0 {
        return n;
    }
    got(2, 1, n.a, 0, 0, 0, n.next)
}

// One word or another.
#[tactic(auto, unfolding(crate::specs::Words::either_at))]
pub fn either_at(one: &[u8], other: &[u8], fault: u64, line: &[u8], at: usize) -> Step
    requires { at ≤ length line.now }
    ensures { (result ≡ either_at one.now other.now fault line.now at) × (result.next ≤ length line.now) }
{
    let w = next_word(line, at);
    let start = w.start;
    let end = w.end;
    if start == end {
        return bad(1, start + 1, end);
    }
    if same(&line[start..end], one) {
        return got(1, 1, 0, 0, 0, 0, end);
    }
    if same(&line[start..end], other) {
        return got(1, 0, 0, 0, 0, 0, end);
    }
    bad(fault, start + 1, end)
}
