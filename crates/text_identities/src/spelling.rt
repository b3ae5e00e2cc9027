// A text as 128 bits, by a pattern.
ghost use Rattle.std.specs.Prelude.{◌*◌, ◌^◌, ◌<◌, ◌≡◌};
ghost use Rattle.text_identities.specs.Identities.{place_in, value_of, most_of, behind, with_character, spelled_by};

use crate::Spelled;
use text_words::folded;

// The place of a letter in a text; the text's length where it has none.
#[tactic(auto, unfolding(crate::specs::Identities::place_in))]
fn place_in(text: &[u8], b: u8) -> usize
    ensures { result ≡ place_in text.now b }
{
    for (i, x) in text.iter().enumerate() {
        if *x == b {
            return i;
        }
    }
    text.len()
}

// A digit's value; 32 where it is none.
#[tactic(auto, unfolding(crate::specs::Identities::value_of, crate::specs::Identities::digits))]
fn value_of(b: u8) -> u64
    ensures { result ≡ value_of b }
{
    place_in(b"0123456789abcdefghjkmnpqrstvwxyz", folded(b)) as u64
}

// The largest digit that a pattern's letter lets pass.
#[tactic(auto, unfolding(crate::specs::Identities::most_of))]
fn most_of(p: u8) -> u64
    ensures { (result ≡ most_of p) × (result < 32) }
{
    match p {
        b'7' => 7,
        b'f' => 15,
        _ => 31,
    }
}

// A digit of a base behind the others; `top` is 2^64 by the base.
fn behind(n: Spelled, base: u64, top: u64, d: u64) -> Spelled
    requires whole { top * base ≡ 2 ^ 64 }
    requires digit { d < base }
    ensures { result ≡ behind base top n d }
{
    Spelled {
        high: n.high % top * base + n.low / top,
        low: n.low % top * base + d,
    }
}

// What is read with a character behind it, by the pattern's letter; none where it is another one.
#[tactic(auto, unfolding(crate::specs::Identities::with_character))]
fn with_character(n: Spelled, p: u8, b: u8) -> Option<Spelled>
    ensures { result ≡ with_character n p b }
{
    if p == b'-' {
        return if b == b'-' { Some(n) } else { None };
    }
    let d = value_of(b);
    if d > most_of(p) {
        return None;
    }
    if p == b'f' {
        return Some(behind(n, 16, 1152921504606846976, d));
    }
    Some(behind(n, 32, 576460752303423488, d))
}

// A text by a pattern of its length.
#[tactic(auto, unfolding(crate::specs::Identities::spelled_by))]
pub fn spelled_by(pattern: &[u8], text: &[u8]) -> Option<Spelled>
    ensures { result ≡ spelled_by pattern.now text.now }
{
    if text.len() != pattern.len() {
        return None;
    }
    let mut n = Spelled { high: 0, low: 0 };
    for (i, b) in text.iter().enumerate() {
        n = with_character(n, pattern[i], *b)?;
    }
    Some(n)
}
