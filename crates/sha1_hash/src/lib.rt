// SHA-1 (FIPS 180-4) of any message.
#![tactic(auto)]

ghost use Rattle.std.specs.Prelude.{◌≡◌, ◌+◌, ◌-◌, ◌/◌, ◌%◌, ◌^◌, ◌≤◌, ◌<◌, ◌++◌, length};
ghost use Rattle.fips180.specs.declared.State.{State};
ghost use Rattle.fips180.specs.Fips.{block_count, pad, schedule, step, steps, sums, block, initial, hash, octets, digest};

use fips180::State;
use sha1_schedule::schedule;
use sha1_step::{step, sums};

// The steps from one on, up to another.
fn steps_to(w: &[u32; 80], from: usize, to: usize, s: State) -> State
    requires { (from ≤ to) × (to ≤ 80) }
    ensures { (q : State) → s ≡ steps w.now from q → result ≡ steps w.now to q }
{
    let mut r = s;
    for t in from..to {
        r = step(t, w[t], r);
    }
    r
}

// The eighty steps, in four parts: the steps of each have the same function and constant, so that its loop needs no
// branch.
fn steps(w: &[u32; 80], s: State) -> State
    ensures { result ≡ steps w.now 80 s }
{
    let first = steps_to(w, 0, 20, s);
    let second = steps_to(w, 20, 40, first);
    let third = steps_to(w, 40, 60, second);
    steps_to(w, 60, 80, third)
}

// The hash value after block i, from the one before it.
fn block(head: &[u8], tail: &[u8], i: usize, s: State) -> State
    requires head_len_bound { length head.now ≤ 65536 }
    requires i_bound { i < block_count (length head.now + length tail.now) }
    ensures { result ≡ block (pad (head.now ++ tail.now)) i s }
{
    let w = schedule(head, tail, i);
    sums(s, steps(&w, s))
}

fn initial() -> State
    ensures { result ≡ initial }
{
    State {
        a: 0x67452301,
        b: 0xefcdab89,
        c: 0x98badcfe,
        d: 0x10325476,
        e: 0xc3d2e1f0,
    }
}

// The hash value of the octets of head and then those of tail. The limit on head keeps the sum of the lengths in a
// usize.
pub fn hash(head: &[u8], tail: &[u8]) -> State
    requires { length head.now ≤ 65536 }
    ensures { result ≡ hash (head.now ++ tail.now) }
{
    let count = (head.len() + tail.len() + 8) / 64 + 1;
    let mut s = initial();
    for i in 0..count {
        s = block(head, tail, i, s);
    }
    s
}

// The octet of x that has s bits below it.
fn octet(x: u32, s: u32) -> u8
    requires { s < 32 }
    ensures { result ≡ x / 2 ^ s % 256 }
{
    ((x >> s) % 256) as u8
}

// The octets of a hash value.
fn octets(s: State) -> [u8; 20]
    ensures { result ≡ octets s }
{
    [
        octet(s.a, 24),
        octet(s.a, 16),
        octet(s.a, 8),
        octet(s.a, 0),
        octet(s.b, 24),
        octet(s.b, 16),
        octet(s.b, 8),
        octet(s.b, 0),
        octet(s.c, 24),
        octet(s.c, 16),
        octet(s.c, 8),
        octet(s.c, 0),
        octet(s.d, 24),
        octet(s.d, 16),
        octet(s.d, 8),
        octet(s.d, 0),
        octet(s.e, 24),
        octet(s.e, 16),
        octet(s.e, 8),
        octet(s.e, 0),
    ]
}

// The message digest.
pub fn digest(message: &[u8]) -> [u8; 20]
    ensures { result ≡ digest message.now }
{
    octets(hash(b"", message))
}
