// Lines of a worksheet as theorems: proofs/Rows has one for every row of the table of commands, proofs/Faults every fault with its column.

#![tactic(auto)]
