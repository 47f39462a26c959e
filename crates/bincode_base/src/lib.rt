//! Configurations, errors with their texts, and slots of arrays.
#![tactic(auto)]

pub mod config;
pub mod error;
pub mod short_text;
pub mod slots;
