// The scan runner (document 02, T-02): a panel program and a recording of push buttons, run to a line of text for each scan.
#![tactic(auto)]

pub mod job;
pub mod preparation;
pub mod refusal;
pub mod step;
