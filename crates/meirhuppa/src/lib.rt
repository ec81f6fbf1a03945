// The library: the jobs of document 01 and the requests of document 02, on lent byte images.
#![tactic(auto)]

pub mod answers;
pub mod evaluate;
pub mod expansion;
pub mod limits;
pub mod panel;
pub mod parsing;
pub mod resolve;
pub mod scan;
pub mod shrink;
pub mod text_jobs;
pub mod uses_jobs;
