// One step of SHA-1, and the sum of a block's result with the hash value.
#![tactic(auto)]

ghost use Rattle.std.specs.Prelude.{◌≡◌, ◌+◌, ◌-◌, ◌%◌, ◌^◌, ◌<◌};
ghost use Rattle.fips180.specs.declared.State.{State};
ghost use Rattle.fips180.specs.Fips.{rotl, f, K, step, sums};

use fips180::State;

// x rotated to the left by n places.
pub fn rotl(n: u32, x: u32) -> u32
    requires { (0 < n) × (n < 32) }
    ensures { result ≡ rotl n x }
{
    (x << n) | (x >> (32 - n))
}

// The function of step t.
fn f(t: usize, x: u32, y: u32, z: u32) -> u32
    ensures { result ≡ f t x y z }
{
    if t < 20 {
        return (x & y) ^ (!x & z);
    }
    if t < 40 {
        return x ^ y ^ z;
    }
    if t < 60 {
        return (x & y) ^ (x & z) ^ (y & z);
    }
    x ^ y ^ z
}

// The constant of step t.
fn constant(t: usize) -> u32
    ensures { result ≡ K t }
{
    if t < 20 {
        return 0x5a827999;
    }
    if t < 40 {
        return 0x6ed9eba1;
    }
    if t < 60 {
        return 0x8f1bbcdc;
    }
    0xca62c1d6
}

// The sum of five words, modulo 2^32.
fn sum5(a: u32, b: u32, c: u32, d: u32, e: u32) -> u32
    ensures { result ≡ (a + b + c + d + e) % 2 ^ 32 }
{
    ((a as u64 + b as u64 + c as u64 + d as u64 + e as u64) % 0x1_0000_0000) as u32
}

// The sum of two words, modulo 2^32.
fn sum2(a: u32, b: u32) -> u32
    ensures { result ≡ (a + b) % 2 ^ 32 }
{
    ((a as u64 + b as u64) % 0x1_0000_0000) as u32
}

// Step t, with the word w of the schedule.
pub fn step(t: usize, w: u32, s: State) -> State
    ensures { result ≡ step t w s }
{
    State {
        a: sum5(rotl(5, s.a), f(t, s.b, s.c, s.d), s.e, constant(t), w),
        b: s.a,
        c: rotl(30, s.b),
        d: s.c,
        e: s.d,
    }
}

// The sums at the end of a block.
pub fn sums(s: State, r: State) -> State
    ensures { result ≡ sums s r }
{
    State {
        a: sum2(s.a, r.a),
        b: sum2(s.b, r.b),
        c: sum2(s.c, r.c),
        d: sum2(s.d, r.d),
        e: sum2(s.e, r.e),
    }
}
