//! Remote calls over any two streams: requests come in frames, and each gets one answer in a frame, in order.
//! docs/STORES.md has the format of frames and of answers.
#![tactic(auto)]

pub mod calling;
pub mod memory;
pub mod refusal;
pub mod service;
pub mod serving;
