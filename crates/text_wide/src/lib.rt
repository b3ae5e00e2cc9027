// A number of two words, high and low, put in decimal into a lent buffer.
#![tactic(auto)]

ghost use Rattle.std.specs.Prelude.{◌+◌, ◌*◌, ◌^◌, ◌≤◌, ◌<◌, ◌≡◌};
ghost use Rattle.text_buffer.specs.Writing.{Put};
ghost use Rattle.text_wide.specs.Wide.{wide_of};

use text_buffer::{put_decimal, put_digits};

// The quotient of a number of two words by 10^9, and the rest.
#[derive(Clone, Copy)]
struct Quotient {
    high: u64,
    low: u64,
    rest: u64,
}

// Divides by 10^9, word by half word, as on paper.
fn parted(high: u64, low: u64) -> Quotient
    ensures low_value { high * 18446744073709551616 + low ≡ (result.high * 18446744073709551616 + result.low) * 1000000000 + result.rest }
    ensures rest_bound { (result.rest < 1000000000) × (result.high * 1000000000 ≤ high) }
{
    let upper = high % 1000000000 * 0x1_0000_0000 + low / 0x1_0000_0000;
    let lower = upper % 1000000000 * 0x1_0000_0000 + low % 0x1_0000_0000;
    Quotient {
        high: high / 1000000000,
        low: upper / 1000000000 * 0x1_0000_0000 + lower / 1000000000,
        rest: lower % 1000000000,
    }
}

// Puts a number of two words in decimal from a place on: all but its last nine digits, and those.
pub fn put_wide(buf: &mut [u8], at: usize, high: u64, low: u64) -> usize
    requires { at + 50 < 2 ^ 64 }
    ensures put { Put buf.old at (wide_of high low) buf.new result }
    ensures upper_bound { result ≤ at + 41 }
{
    if high == 0 {
        return put_decimal(buf, at, low);
    }
    let p = parted(high, low);
    let next = put_wide(buf, at, p.high, p.low);
    put_digits(buf, next, 9, p.rest);
    next + 9
}
