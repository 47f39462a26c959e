//! Code that a user writes beside types: callers whose proofs use the contracts of the calls, and devices that may
//! fail. And worked rows of docs/FORMAT.md about the formats of the types and what they claim (`formats`, `claims`).
#![tactic(auto)]

pub mod alike;
pub mod borrowed;
pub mod calls;
pub mod claims;
pub mod cut;
pub mod fixed;
pub mod floats;
pub mod formats;
pub mod limits;
pub mod longer;
pub mod members;
pub mod rooms;
pub mod shaped;
pub mod shows;
