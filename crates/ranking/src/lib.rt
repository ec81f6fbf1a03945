// Scopes that remain renumbered in order (document 02, T-11), and what is written with their new numbers: sets, bindings that are kept, and a root
// piece by piece.
#![tactic(auto)]

pub mod kept;
pub mod numbered;
pub mod ranks;
pub mod roots;
