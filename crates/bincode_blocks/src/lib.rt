//! A writer to a stream that gathers bytes in a block (docs/GUIDE.md, "Write to a file and read it back").
#![tactic(auto)]

mod block_writer;

pub use block_writer::BlockWriter;
