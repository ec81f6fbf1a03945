// This crate is its theorems, in proofs/: laws of scope sets, of resolving, of the store and of steps.
#![tactic(auto)]
