//! Logs of commands: each command is in a frame, and a state comes back when all of them are applied again.
#![tactic(auto)]

pub mod machine;
pub mod replay;
