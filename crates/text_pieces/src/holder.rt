// A holder's name put into a buffer.
ghost use Rattle.std.specs.Prelude.{◌+◌, ◌^◌, ◌≤◌, ◌<◌, ◌≡◌, length};
ghost use Rattle.std.proofs.lemmas.List.Edits.{sets};
ghost use Rattle.text_buffer.specs.Writing.{Put};
ghost use Rattle.text_pieces.specs.Pieces.{bytes_of, until_zero, holder_of};

use text_buffer::{put_byte, put_in_base};

// Puts the eight bytes of a word, the most significant first.
fn put_word(bytes: &mut [u8], at: usize, n: u64)
    requires { at ≤ 24 }
    ensures { bytes.new ≡ sets bytes.old at (bytes_of n) }
{
    put_in_base(bytes, at, 8, n, 256, |b| b as u8);
}

// Puts a text up to its first zero byte from a place on.
fn put_until_zero(buf: &mut [u8], at: usize, text: &[u8]) -> usize
    requires { at + length text.now < 2 ^ 64 }
    ensures put { Put buf.old at (until_zero text.now) buf.new result }
    ensures upper_bound { result ≤ at + length text.now }
{
    for (i, b) in text.iter().enumerate() {
        if *b == 0 {
            return at + i;
        }
        put_byte(buf, at + i, *b);
    }
    at + text.len()
}

// Puts a holder's name, of at most 32 bytes, from a place on.
pub fn put_holder(buf: &mut [u8], at: usize, a: u64, b: u64, c: u64, d: u64) -> usize
    requires { at + 32 < 2 ^ 64 }
    ensures put { Put buf.old at (holder_of a b c d) buf.new result }
    ensures upper_bound { result ≤ at + 32 }
{
    let mut bytes = [0u8; 32];
    put_word(&mut bytes, 0, a);
    put_word(&mut bytes, 8, b);
    put_word(&mut bytes, 16, c);
    put_word(&mut bytes, 24, d);
    put_until_zero(buf, at, &bytes)
}
