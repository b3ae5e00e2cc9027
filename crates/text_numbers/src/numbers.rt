// Decimal numbers.
ghost use Rattle.std.specs.Prelude.{◌≤◌, ◌≡◌, length};
ghost use Rattle.text_numbers.specs.Numbers.{fault_of, with_digit, number_of, number_between, number_at};

use crate::steps::{bad, got};
use crate::{Step, Unread};
use text_words::next_word;

// The fault that it is.
fn fault_of(why: Unread) -> u64
    ensures { result ≡ fault_of why }
{
    match why {
        Unread::NotNumber => 2,
        Unread::TooLarge => 3,
    }
}

// A number with a digit behind it.
#[tactic(auto, unfolding(crate::specs::Numbers::with_digit))]
fn with_digit(n: u64, b: u8) -> Result<u64, Unread>
    ensures { result ≡ with_digit n b }
{
    let digit = match b {
        b'0'..=b'9' => u64::from(b - b'0'),
        _ => return Err(Unread::NotNumber),
    };
    if n > 1844674407370955161 {
        return Err(Unread::TooLarge);
    }
    let tens = n * 10;
    if digit > 0xffff_ffff_ffff_ffff - tens {
        return Err(Unread::TooLarge);
    }
    Ok(tens + digit)
}

// The number that a text is.
fn number(text: &[u8]) -> Result<u64, Unread>
    ensures { result ≡ number_of text.now }
{
    let mut n = 0;
    for b in text {
        n = with_digit(n, *b)?;
    }
    Ok(n)
}

// The number between two places.
#[tactic(auto, unfolding(crate::specs::Numbers::number_between))]
pub fn number_between(line: &[u8], start: usize, end: usize) -> Step
    requires { (start ≤ end) × (end ≤ length line.now) }
    ensures { result ≡ number_between line.now start end }
{
    if start == end {
        return bad(1, start + 1, end);
    }
    match number(&line[start..end]) {
        Ok(n) => got(1, n, 0, 0, 0, 0, end),
        Err(why) => bad(fault_of(why), start + 1, end),
    }
}

// The next word as a number.
pub fn number_at(line: &[u8], at: usize) -> Step
    requires { at ≤ length line.now }
    ensures { (result ≡ number_at line.now at) × (result.next ≤ length line.now) }
{
    let w = next_word(line, at);
    number_between(line, w.start, w.end)
}
