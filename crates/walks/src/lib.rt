// The laws of lists that the proofs over lent lists of records share: a list that is written from its start, entry by
// entry, and entries read back from their words. The functions that are lent such lists stand in the crates above; here
// no code runs.

#![tactic(auto)]
