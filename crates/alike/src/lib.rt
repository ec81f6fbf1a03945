// This crate is its theorems, in proofs/: things alike but for the numbers of their scopes, for requests T-11 and T-12.
#![tactic(auto)]
