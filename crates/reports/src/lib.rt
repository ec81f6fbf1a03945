// The term report (document 02, T-13): a file of images divided a byte at a time, the totals of the answers, and the report's text.
#![tactic(auto)]

pub mod division;
pub mod texts;
pub mod totals;
