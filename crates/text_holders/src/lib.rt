// A holder of a line: a word of up to 32 bytes as four words.
#![tactic(auto)]

ghost use Rattle.std.specs.Prelude.{◌≤◌, ◌<◌, ◌≡◌, length, get_or};
ghost use Rattle.text_holders.specs.Holders.{word_at, holder_between, holder_at, holder_or_none};

use text_numbers::{Step, bad, got};
use text_words::next_word;

// A byte of a text; 0 behind it.
fn byte_at(text: &[u8], at: usize) -> u64
    ensures { (result ≡ get_or text.now at 0) × (result < 256) }
{
    u64::from(text.get(at).copied().unwrap_or(0))
}

// Eight bytes as a word, the first the highest.
fn word_at(text: &[u8], from: usize) -> u64
    requires { from ≤ 24 }
    ensures { result ≡ word_at text.now from }
{
    let mut v: u64 = 0;
    for at in from..from + 8 {
        v = v % 72057594037927936 * 256 + byte_at(text, at);
    }
    v
}

// The holder between two places; `none` where there is no word.
#[tactic(auto, unfolding(crate::specs::Holders::holder_between))]
fn holder_between(none: Step, line: &[u8], start: usize, end: usize) -> Step
    requires { (start ≤ end) × (end ≤ length line.now) }
    ensures { result ≡ holder_between none line.now start end }
{
    if start == end {
        return none;
    }
    if end - start > 32 {
        return bad(8, start + 1, end);
    }
    let text = &line[start..end];
    let a = word_at(text, 0);
    let b = word_at(text, 8);
    let c = word_at(text, 16);
    let d = word_at(text, 24);
    got(4, a, b, c, d, 0, end)
}

// The next word as a holder; no word is a fault.
pub fn holder_at(line: &[u8], at: usize) -> Step
    requires { at ≤ length line.now }
    ensures { (result ≡ holder_at line.now at) × (result.next ≤ length line.now) }
{
    let w = next_word(line, at);
    let none = bad(1, w.start + 1, w.end);
    holder_between(none, line, w.start, w.end)
}

// The next word as a holder; no word is four zeros.
pub fn holder_or_none(line: &[u8], at: usize) -> Step
    requires { at ≤ length line.now }
    ensures { (result ≡ holder_or_none line.now at) × (result.next ≤ length line.now) }
{
    let w = next_word(line, at);
    let none = got(4, 0, 0, 0, 0, 0, w.end);
    holder_between(none, line, w.start, w.end)
}
