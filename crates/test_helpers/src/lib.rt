//! Checks that the test crates share: each is proved once, for every type that is tested.
#![tactic(auto)]

pub mod checks;
pub mod peak;
pub mod rows;
pub mod streams;
