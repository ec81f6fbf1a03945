// From a syntax image to text with single spaces and no comments. The image is judged first; its root is then walked twice, for the length and for the
// text, with the count of parts to come for each of the 64 levels.
#![tactic(auto)]

pub mod atoms;
pub mod fronts;
pub mod job;
pub mod lengths;
pub mod measuring;
pub mod spelling;
pub mod walking;
pub mod writing;
