//! Readers and writers: over slices, vectors, counts and the streams of `std::io`. Integers as bytes (docs/FORMAT.md,
//! sections 3 and 4).
#![tactic(auto)]

pub mod bytes;
pub mod io_read;
pub mod io_write;
pub mod number;
pub mod read;
pub mod room_counter;
pub mod room_writer;
mod size_writer;
pub mod varint;
mod vec_writer;
pub mod write;
pub mod zigzag;
