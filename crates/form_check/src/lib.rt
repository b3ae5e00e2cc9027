// What the form check remembers of a store: how many records each side has, and the keys by which stops are told apart.

// How many records each side has.
#![tactic(auto)]

#[derive(Clone, Copy)]
pub struct Sides {
    pub sells: u64,
    pub buys: u64,
}

// What no two stops share.
#[derive(Clone, Copy)]
pub enum Key {
    Sequence,
    Identity,
}
