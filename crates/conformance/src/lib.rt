//! The worked rows of the format as a compiled table, the calls by which they are run, and the loop that runs them.
#![tactic(auto)]

pub mod addresses;
mod borrow;
pub mod calls;
pub mod case;
mod charges;
mod choices;
mod collections;
pub mod fault;
mod limits;
mod numbers;
pub mod rows;
mod run;
pub mod setting;
pub mod shaped;
mod trailing;
mod wanted;
