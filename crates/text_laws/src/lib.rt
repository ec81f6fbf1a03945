// This crate is its theorems, in proofs/: what the printer writes, the reader takes back.
#![tactic(auto)]
