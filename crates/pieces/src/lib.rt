// This crate is its theorems, in proofs/: an image made smaller as passes over the pieces of its root, which the code follows (request T-11).
#![tactic(auto)]
