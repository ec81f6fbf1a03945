// This crate is its definitions: document 01 as functions that compute, in specs/.
#![tactic(auto)]
