// Chains of records in a lent slice of words, in the place of the Rust's skip lists: the word at a position names the
// first record of a chain, a word of each record the next, and 0 ends it. A chain ascends in a rank, which the words of
// a record give.
//
//     header .. [head] ..  record i: .. key .. seq .. [next] ..
//                 └─────────> i          next ──> j ──> .. ──> 0

// ---------------------------------------------------------------------
// Ranks

// The place of a record in a chain's order: by key, and by tie between equal keys.
#![tactic(auto)]

#[derive(Clone, Copy)]
pub struct Rank {
    pub key: u64,
    pub tie: u64,
}
