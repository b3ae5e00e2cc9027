// Laws of the calls that evaluate: what their questions leave, and what a call answers and writes, refused and
// accepted.

#![tactic(auto)]
