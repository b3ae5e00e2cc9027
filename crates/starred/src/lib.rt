// The starred examples of document 01: one table over the definitions, with one proof, and no code.

#![tactic(auto)]
