// This crate is its theorems, in proofs/: the proof bench of document 01. The contracts leave one answer, and the shams do not meet them.
#![tactic(auto)]
