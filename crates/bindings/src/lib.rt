// The bindings of an image: read into the store of a job, and written from it.
#![tactic(auto)]

pub mod loading;
pub mod storing;
