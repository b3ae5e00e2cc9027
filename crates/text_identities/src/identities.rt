// The next word as an identity.
ghost use Rattle.std.specs.Prelude.{◌≤◌, ◌≡◌, length};
ghost use Rattle.text_identities.specs.Identities.{uuid_pattern, ulid_pattern, patterned as Identities·patterned, identity_between, identity_at, uuid_between, uuid_at};

use crate::spelling::spelled_by;
use text_numbers::{Step, bad, got, number_between};
use text_words::next_word;

// The kind and the two words between two places, or the fault.
#[tactic(auto, unfolding(crate::specs::Identities::patterned))]
fn patterned(pattern: &[u8], kind: u64, fault: u64, line: &[u8], start: usize, end: usize) -> Step
    requires { (start ≤ end) × (end ≤ length line.now) }
    ensures { result ≡ Identities·patterned pattern.now kind fault line.now start end }
{
    match spelled_by(pattern, &line[start..end]) {
        Some(n) => got(3, kind, n.high, n.low, 0, 0, end),
        None => bad(fault, start + 1, end),
    }
}

#[tactic(auto, unfolding(crate::specs::Identities::uuid_pattern))]
fn uuid_of(line: &[u8], start: usize, end: usize) -> Step
    requires { (start ≤ end) × (end ≤ length line.now) }
    ensures { result ≡ Identities·patterned uuid_pattern 0 4 line.now start end }
{
    patterned(
        b"ffffffff-ffff-ffff-ffff-ffffffffffff",
        0,
        4,
        line,
        start,
        end,
    )
}

#[tactic(auto, unfolding(crate::specs::Identities::ulid_pattern))]
fn ulid_of(line: &[u8], start: usize, end: usize) -> Step
    requires { (start ≤ end) × (end ≤ length line.now) }
    ensures { result ≡ Identities·patterned ulid_pattern 1 5 line.now start end }
{
    patterned(b"7zzzzzzzzzzzzzzzzzzzzzzzzz", 1, 5, line, start, end)
}

// The identity between two places.
#[tactic(auto, unfolding(crate::specs::Identities::identity_between))]
fn identity_between(line: &[u8], start: usize, end: usize) -> Step
    requires { (start ≤ end) × (end ≤ length line.now) }
    ensures { result ≡ identity_between line.now start end }
{
    match end - start {
        36 => return uuid_of(line, start, end),
        26 => return ulid_of(line, start, end),
        _ => {}
    }
    let n = number_between(line, start, end);
    if n.fault != 0 {
        return n;
    }
    got(3, 2, 0, n.a, 0, 0, n.next)
}

// The UUID between two places.
#[tactic(auto, unfolding(crate::specs::Identities::uuid_between))]
fn uuid_between(line: &[u8], start: usize, end: usize) -> Step
    requires { (start ≤ end) × (end ≤ length line.now) }
    ensures { result ≡ uuid_between line.now start end }
{
    if start == end {
        return bad(1, start + 1, end);
    }
    let n = uuid_of(line, start, end);
    if n.fault != 0 {
        return n;
    }
    got(2, n.b, n.c, 0, 0, 0, n.next)
}

// The next word as an identity.
pub fn identity_at(line: &[u8], at: usize) -> Step
    requires { at ≤ length line.now }
    ensures { (result ≡ identity_at line.now at) × (result.next ≤ length line.now) }
{
    let w = next_word(line, at);
    identity_between(line, w.start, w.end)
}

// The next word as a UUID.
pub fn uuid_at(line: &[u8], at: usize) -> Step
    requires { at ≤ length line.now }
    ensures { (result ≡ uuid_at line.now at) × (result.next ≤ length line.now) }
{
    let w = next_word(line, at);
    uuid_between(line, w.start, w.end)
}
