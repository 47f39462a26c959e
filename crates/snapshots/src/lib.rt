//! Snapshots of machines, from which a log is replayed without the commands that they stand for: commands carry their
//! numbers in the log. docs/STORES.md has the format of a snapshot.
#![tactic(auto)]

pub mod numbered;
pub mod resume;
pub mod resuming;
pub mod saving;
pub mod snapshot;
