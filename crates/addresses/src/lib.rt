// This crate is its theorems, in proofs/: condition 3, one name is one address.
#![tactic(auto)]
