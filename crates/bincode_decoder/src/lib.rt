//! Decoders, and how integers, floats, characters, `bool`, durations, octets, tags and texts are read through them.
//! Functions charge and read in the order of docs/FORMAT.md, section 10. After an error the charges before it stay.
#![tactic(auto)]

pub mod borrow;
pub mod bytes;
pub mod c_strings;
pub mod chars;
pub mod context;
pub mod decoder;
pub mod empty;
pub mod floats;
pub mod integers;
pub mod lengths;
pub mod octets;
pub mod tags;
pub mod texts;
pub mod time;
pub mod truth;
