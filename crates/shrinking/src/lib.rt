// This crate is its definitions and theorems: request T-11, smaller finished images.
#![tactic(auto)]
