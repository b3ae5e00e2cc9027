// The stops of a store beside those that a panel draws from the preview: document 02, Two, over the calls that evaluate.
// Definitions and what holds of them; no code runs here.

#![tactic(auto)]
