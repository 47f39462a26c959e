//! A log of commands on a device that may crash: after a crash at any moment of an append, recovery gives the state
//! before or after that command. A machine on such a device has a snapshot too, and comes back from both.
#![tactic(auto)]

pub mod appending;
pub mod machines;
pub mod recovering;
pub mod runs;
