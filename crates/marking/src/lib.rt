// What of an image is used (document 02, T-11): its bindings are marked by the identifiers of its root, and the scopes of all sets that remain
// are gathered. A binding's symbol leads to it, so that an identifier is held against the bindings of its own symbol alone.
#![tactic(auto)]

pub mod chains;
pub mod kept;
pub mod marks;
pub mod roots;
