//! Tests of the library at scalars and composites; of its encoders, decoders, readers and writers, among them streams
//! that take or give a part, files, and vectors that grow; of what a fault or a failed write leaves; of user-defined
//! errors and contexts; and of public functions that no other test calls: what no contract says, and each `impl` and
//! public call once, unless it runs elsewhere. Expected values come from the description of the format, and where a
//! file says so from bincode 2.0.1.
#![tactic(auto)]

#[cfg(test)]
mod addresses;
#[cfg(test)]
mod after_faults;
#[cfg(test)]
mod asserts;
#[cfg(test)]
mod atomics;
#[cfg(test)]
mod blocks;
#[cfg(test)]
mod borrowed;
#[cfg(test)]
mod buffers;
#[cfg(test)]
mod c_strings;
#[cfg(test)]
mod cells;
#[cfg(test)]
mod coders;
#[cfg(test)]
mod composites;
#[cfg(test)]
mod configurations;
#[cfg(test)]
mod contexts;
#[cfg(test)]
mod encodings;
#[cfg(test)]
mod faults;
#[cfg(test)]
mod files;
#[cfg(test)]
mod floats;
#[cfg(test)]
mod halts;
#[cfg(test)]
mod hashed;
#[cfg(test)]
mod holes;
#[cfg(test)]
mod left_after_errors;
#[cfg(test)]
mod lent_writers;
#[cfg(test)]
mod many;
#[cfg(test)]
mod numbers;
#[cfg(test)]
mod own_contexts;
#[cfg(test)]
mod own_errors;
#[cfg(test)]
mod paths;
#[cfg(test)]
mod pieces;
#[cfg(test)]
mod public;
#[cfg(test)]
mod readers;
#[cfg(test)]
mod streams;
#[cfg(test)]
mod varints;
#[cfg(test)]
mod vec_writers;
#[cfg(test)]
mod writers;
#[cfg(test)]
mod wrong_streams;
