// This crate is its definitions and theorems: requests of document 02 that are no rule of document 01.
#![tactic(auto)]
