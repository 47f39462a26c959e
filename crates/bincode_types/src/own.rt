//! `Duration` and C strings, in place of the types of the standard library.

pub mod ffi;
pub mod time;
