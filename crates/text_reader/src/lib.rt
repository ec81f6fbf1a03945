// From text to a syntax image with no scopes, in passes over the tokens from the front: what 26 and 27 refuse, the limits with the words as first
// met, the length, and the image.
#![tactic(auto)]

pub mod found;
pub mod items;
pub mod job;
pub mod judging;
pub mod limits;
pub mod measuring;
pub mod writing;
