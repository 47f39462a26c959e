//! Enums of your own, variant by variant: their laws, and how they are encoded and decoded.
#![tactic(auto)]

pub mod borrow;
pub mod decode;
pub mod encode;
pub mod enums;
