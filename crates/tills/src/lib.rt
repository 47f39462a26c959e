//! A till that is kept as a log of payments, for the tests of replaying such logs, of its snapshots, and of devices
//! that keep both.
#![tactic(auto)]

pub mod saved;
pub mod till;
