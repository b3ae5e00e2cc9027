// Pieces of printed lines by their letters, made of the values from a place on.
#![tactic(auto)]

ghost use Rattle.std.specs.Prelude.{◌+◌, ◌^◌, ◌≤◌, ◌<◌, ◌≡◌, drop, get_or};
ghost use Rattle.text_buffer.specs.Writing.{Put};
ghost use Rattle.text_letters.specs.Letters.{takes as Letters·takes, piece_of};

use identity_text::{put_identity, put_uuid};
use text_buffer::put_decimal;
use text_pieces::{put_holder, put_limit, put_price, put_side};
use text_wide::put_wide;

// The value k places behind a place; 0 where there is none.
fn value(values: &[u64], v: usize, k: usize) -> u64
    requires { v + k < 2 ^ 64 }
    ensures { result ≡ get_or (drop v values.now) k 0 }
{
    values.get(v + k).copied().unwrap_or(0)
}

// How many values a letter takes.
#[tactic(auto, unfolding(crate::specs::Letters::takes))]
pub fn takes(letter: u8) -> usize
    ensures value { result ≡ Letters·takes letter }
    ensures upper_bound { result ≤ 4 }
{
    match letter {
        b'n' | b's' => 1,
        b'u' | b'o' | b'w' => 2,
        b'i' | b'l' => 3,
        b'h' => 4,
        _ => 0,
    }
}

// Puts the piece of a letter, of the values from a place on, from a place of the buffer on.
#[tactic(auto, using(text_buffer::proofs::Writing::put_none), unfolding(crate::specs::Letters::piece_of))]
pub fn put_piece(buf: &mut [u8], at: usize, letter: u8, values: &[u64], v: usize) -> usize
    requires at_bound { at + 50 < 2 ^ 64 }
    requires v_bound { v + 3 < 2 ^ 64 }
    ensures put { Put buf.old at (piece_of letter (drop v values.now)) buf.new result }
    ensures upper_bound { result ≤ at + 50 }
{
    let a = value(values, v, 0);
    let b = value(values, v, 1);
    let c = value(values, v, 2);
    match letter {
        b'n' => put_decimal(buf, at, a),
        b's' => put_side(buf, at, a),
        b'u' => put_uuid(buf, at, a, b),
        b'o' => put_price(buf, at, a, b),
        b'w' => put_wide(buf, at, a, b),
        b'i' => put_identity(buf, at, a, b, c),
        b'l' => put_limit(buf, at, a, b, c),
        b'h' => put_holder(buf, at, a, b, c, value(values, v, 3)),
        _ => at,
    }
}
