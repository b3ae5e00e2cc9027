// A UUID put into a buffer.
ghost use Rattle.std.specs.Prelude.{◌+◌, ◌^◌, ◌≤◌, ◌<◌, ◌≡◌};
ghost use Rattle.text_buffer.specs.Writing.{Put};
ghost use Rattle.text_buffer.specs.Digits.{digits};
ghost use Rattle.identity_text.specs.Identities.{hex_letter, group_of, uuid_of};

use text_buffer::{put_byte, put_in_base};

// A hexadecimal digit in lower case.
fn hex_letter(d: u64) -> u8
    requires { d < 16 }
    ensures { result ≡ hex_letter d }
{
    if d < 10 {
        return 48 + d as u8;
    }
    87 + d as u8
}

// Puts the last k hexadecimal digits of a word from a place on.
fn put_hex(buf: &mut [u8], at: usize, k: usize, n: u64) -> usize
    requires { at + k < 2 ^ 64 }
    ensures put { Put buf.old at (digits hex_letter 16 k n) buf.new result }
    ensures value { result ≡ at + k }
{
    put_in_base(buf, at, k, n, 16, hex_letter);
    at + k
}

// Puts a dash with k hexadecimal digits behind it from a place on.
fn put_group(buf: &mut [u8], at: usize, k: usize, n: u64) -> usize
    requires { at + 1 + k < 2 ^ 64 }
    ensures put { Put buf.old at (group_of k n) buf.new result }
    ensures value { result ≡ at + 1 + k }
{
    put_byte(buf, at, b'-');
    put_hex(buf, at + 1, k, n)
}

// Puts a UUID, 36 characters, from a place on.
pub fn put_uuid(buf: &mut [u8], at: usize, high: u64, low: u64) -> usize
    requires { at + 36 < 2 ^ 64 }
    ensures put { Put buf.old at (uuid_of high low) buf.new result }
    ensures upper_bound { result ≤ at + 36 }
{
    let a = put_hex(buf, at, 8, high / 0x1_0000_0000);
    let b = put_group(buf, a, 4, high / 0x1_0000);
    let c = put_group(buf, b, 4, high);
    let d = put_group(buf, c, 4, low / 0x1_0000_0000_0000);
    put_group(buf, d, 12, low)
}
