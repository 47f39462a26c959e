//! The code of docs/GUIDE.md, task by task, and the match on errors that README shows.
#![tactic(auto)]

pub mod borrowing;
pub mod errors;
pub mod files;
pub mod hostile;
pub mod lengths;
pub mod settings;
pub mod streams;
pub mod trips;
