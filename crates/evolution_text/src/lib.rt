//! Whether one shape reads all that another one wrote, as text: a table, and why not where it does not.
#![tactic(auto)]

pub mod compare;
pub mod failure;
mod lines;
mod place;
pub mod reason;
pub mod setting;

pub use lines::compare_lines;
