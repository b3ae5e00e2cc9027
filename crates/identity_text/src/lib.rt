// Identities put into a lent buffer: a UUID in lower case, a ULID in Crockford's base 32, a number in decimal.
#![tactic(auto)]

mod hex_groups;
mod ulid;

ghost use Rattle.std.specs.Prelude.{◌+◌, ◌^◌, ◌≤◌, ◌<◌};
ghost use Rattle.text_buffer.specs.Writing.{Put};
ghost use Rattle.identity_text.specs.Identities.{identity_of};

pub use hex_groups::put_uuid;
use text_buffer::put_decimal;
pub use ulid::put_ulid;

// Puts an identity from a place on: of kind 0 a UUID, of kind 1 a ULID, of any other the low word in decimal.
#[tactic(auto, unfolding(crate::specs::Identities::identity_of))]
pub fn put_identity(buf: &mut [u8], at: usize, kind: u64, high: u64, low: u64) -> usize
    requires { at + 36 < 2 ^ 64 }
    ensures put { Put buf.old at (identity_of kind high low) buf.new result }
    ensures upper_bound { result ≤ at + 36 }
{
    match kind {
        0 => put_uuid(buf, at, high, low),
        1 => put_ulid(buf, at, high, low),
        _ => put_decimal(buf, at, low),
    }
}
