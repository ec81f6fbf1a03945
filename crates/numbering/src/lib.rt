// This crate is its theorem, in proofs/: request T-12, numbering does not matter.
#![tactic(auto)]
