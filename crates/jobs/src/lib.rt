// The jobs, apart from what is lent: the image judged, its root charged for, the work on it, and the result written. Code 5 and clearing the
// table are not here.
#![tactic(auto)]

pub mod evaluating;
pub mod expanding;
mod loading;
pub mod parsing;
pub mod resolving;
