// FIPS 180-4's SHA-1 as definitions, and the state that its steps hand on.

// The five words of a hash value, or the five working variables.
#![tactic(auto)]

#[derive(Clone, Copy)]
pub struct State {
    pub a: u32,
    pub b: u32,
    pub c: u32,
    pub d: u32,
    pub e: u32,
}
