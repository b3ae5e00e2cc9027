// Numbers in decimal put into a buffer.
ghost use Rattle.std.specs.Prelude.{ℕ, ◌+◌, ◌^◌, ◌≤◌, ◌<◌, ◌≡◌};
ghost use Rattle.std.proofs.lemmas.List.Edits.{sets};
ghost use Rattle.text_buffer.specs.Writing.{Put};
ghost use Rattle.text_buffer.specs.Digits.{digits, decimal_letter, width, decimal_of};

use crate::put_byte;

// How many digits a number takes.
fn places(n: u64) -> usize
    ensures value { result ≡ width 40 n }
    ensures upper_bound { result ≤ 20 }
{
    let mut rest = n;
    for k in 1..20 {
        if rest < 10 {
            return k;
        }
        rest /= 10;
    }
    20
}

// Puts the last k digits of a number in a base from a place on, each as its letter, the last one first: no digit is written twice.
pub fn put_in_base<F: Fn(u64) -> u8>(
    buf: &mut [u8],
    at: usize,
    k: usize,
    n: u64,
    base: u64,
    letter: F,
)
    requires at_bound { at + k < 2 ^ 64 }
    requires positive { 0 < base }
    requires letters { (d : ℕ) → d < base → F.pre letter d }
    ensures { (f : ℕ → ℕ) → ((d b : ℕ) → d < base → F.post letter d b → b ≡ f d) → buf.new ≡ sets buf.old at (digits f base k n) }
{
    let mut rest = n;
    for i in (0..k).rev() {
        put_byte(buf, at + i, letter(rest % base));
        rest /= base;
    }
}

// Puts the last k decimal digits of a number from a place on.
pub fn put_digits(buf: &mut [u8], at: usize, k: usize, n: u64)
    requires { at + k < 2 ^ 64 }
    ensures { buf.new ≡ sets buf.old at (digits decimal_letter 10 k n) }
{
    put_in_base(buf, at, k, n, 10, |d| 48 + d as u8);
}

// Puts a number in decimal from a place on.
#[tactic(auto, using(crate::proofs::Digits::decimal_put))]
pub fn put_decimal(buf: &mut [u8], at: usize, n: u64) -> usize
    requires { at + 20 < 2 ^ 64 }
    ensures put { Put buf.old at (decimal_of n) buf.new result }
    ensures upper_bound { result ≤ at + 20 }
{
    let k = places(n);
    put_digits(buf, at, k, n);
    at + k
}
