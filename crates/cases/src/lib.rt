// This crate is the list of proved cases, in proofs/.
#![tactic(auto)]
