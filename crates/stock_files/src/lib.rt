//! What the program `records` does: its arguments, what it does with the bytes of a store of frames, what it prints,
//! and the status.
#![tactic(auto)]

pub mod adding;
pub mod article;
pub mod article_words;
pub mod files;
pub mod input;
pub mod limit;
pub mod program;
pub mod repairing;
pub mod request;
pub mod showing;
pub mod status;
