//! Writes the `impl`s by which the structs and enums of a Rattle source are encoded and decoded, and those that prove
//! their laws.
#![tactic(auto)]

pub mod answers;
mod blanks;
mod clauses;
mod coding;
mod cursor;
pub mod error;
mod facts;
mod filling;
mod heads;
mod items;
mod lawful;
mod laws;
mod layout;
pub mod module;
mod names;
mod notes;
mod parts;
mod read;
mod refusals;
mod shown;
mod text;
pub mod tokens;
mod uses;
