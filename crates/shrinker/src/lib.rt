// A smaller image of the same meaning (document 02, T-11). The image is judged; then its root is read twice more, once for what it uses and once to
// be written. What is written is never longer than the image, so that it is made in bytes of the job's own, and its length is known before the
// first byte of the output is stored.
#![tactic(auto)]

pub mod job;
pub mod using;
pub mod writing;
