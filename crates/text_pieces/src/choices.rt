// Pieces that are one of two texts, or may be absent.
ghost use Rattle.std.specs.Prelude.{◌+◌, ◌^◌, ◌≤◌, ◌<◌};
ghost use Rattle.text_buffer.specs.Writing.{Put};
ghost use Rattle.text_pieces.specs.Pieces.{side_of, price_of, limit_of};

use text_buffer::{put_decimal, put_text};
use text_wide::put_wide;

// Puts a side from a place on.
#[tactic(auto, unfolding(crate::specs::Pieces::side_of))]
pub fn put_side(buf: &mut [u8], at: usize, side: u64) -> usize
    requires { at + 4 < 2 ^ 64 }
    ensures put { Put buf.old at (side_of side) buf.new result }
    ensures upper_bound { result ≤ at + 4 }
{
    if side == 0 {
        return put_text(buf, at, b"buy");
    }
    put_text(buf, at, b"sell")
}

// Puts a price that may be absent from a place on.
#[tactic(auto, unfolding(crate::specs::Pieces::price_of))]
pub fn put_price(buf: &mut [u8], at: usize, present: u64, price: u64) -> usize
    requires { at + 20 < 2 ^ 64 }
    ensures put { Put buf.old at (price_of present price) buf.new result }
    ensures upper_bound { result ≤ at + 20 }
{
    if present == 0 {
        return put_text(buf, at, b"none");
    }
    put_decimal(buf, at, price)
}

// Puts a limit, of two words, that may be absent from a place on.
#[tactic(auto, unfolding(crate::specs::Pieces::limit_of))]
pub fn put_limit(buf: &mut [u8], at: usize, limited: u64, high: u64, low: u64) -> usize
    requires { at + 50 < 2 ^ 64 }
    ensures put { Put buf.old at (limit_of limited high low) buf.new result }
    ensures upper_bound { result ≤ at + 41 }
{
    if limited == 0 {
        return put_text(buf, at, b"none");
    }
    put_wide(buf, at, high, low)
}
