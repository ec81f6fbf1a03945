// This crate is its theorems, in proofs/: reading an image and writing it are inverse to each other.
#![tactic(auto)]
