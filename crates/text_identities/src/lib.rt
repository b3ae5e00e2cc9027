// Identities of a line's words: a UUID, a ULID, or a number.
#![tactic(auto)]

mod identities;
mod spelling;

pub use identities::{identity_at, uuid_at};

// The 128 bits of what is read so far.
#[derive(Clone, Copy)]
pub struct Spelled {
    pub high: u64,
    pub low: u64,
}
