// A ULID put into a buffer.
ghost use Rattle.std.specs.Prelude.{◌+◌, ◌^◌, ◌≤◌, ◌<◌, ◌≡◌};
ghost use Rattle.text_buffer.specs.Writing.{Put};
ghost use Rattle.text_buffer.specs.Digits.{digits};
ghost use Rattle.identity_text.specs.Identities.{crockford, ulid_of};

use text_buffer::put_in_base;

// The digits of base 32: no I, L, O and U.
const LETTERS: [u8; 32] = *b"0123456789ABCDEFGHJKMNPQRSTVWXYZ";

fn letter(d: u64) -> u8
    requires { d < 32 }
    ensures { result ≡ crockford d }
{
    LETTERS[d as usize]
}

// Puts the last k digits of a word in base 32 from a place on.
fn put_letters(buf: &mut [u8], at: usize, k: usize, n: u64) -> usize
    requires { at + k < 2 ^ 64 }
    ensures put { Put buf.old at (digits crockford 32 k n) buf.new result }
    ensures value { result ≡ at + k }
{
    put_in_base(buf, at, k, n, 32, letter);
    at + k
}

// Puts a ULID, 26 characters, from a place on. The fourteenth has the lowest bit of the high word and the highest four of the low one.
pub fn put_ulid(buf: &mut [u8], at: usize, high: u64, low: u64) -> usize
    requires { at + 26 < 2 ^ 64 }
    ensures put { Put buf.old at (ulid_of high low) buf.new result }
    ensures upper_bound { result ≤ at + 26 }
{
    let a = put_letters(buf, at, 13, high / 2);
    let b = put_letters(buf, a, 1, (high % 2) * 16 + low / 0x1000_0000_0000_0000);
    put_letters(buf, b, 12, low)
}
