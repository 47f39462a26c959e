//! The format of each type: `Wire`, its laws, and what types are written as.
#![tactic(auto)]

pub mod bags;
pub mod by_parts;
pub mod c_strings;
pub mod chars;
pub mod empty;
pub mod equal_parts;
pub mod has_parts;
pub mod hashed;
pub mod impls;
pub mod laws;
pub mod lists;
pub mod octets;
pub mod ordered;
pub mod own;
pub mod ranges_and_bounds;
pub mod rows;
pub mod scalars;
pub mod sums;
pub mod texts;
pub mod validated;
pub mod wire;
