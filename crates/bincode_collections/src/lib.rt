//! Decoding of collections, pointers and enums, generic over how one value is read. After an error the charges made
//! before it stay.
#![tactic(auto)]

pub mod arrays;
pub mod borrow;
pub mod by_parts;
pub mod fill_list;
pub mod lists;
pub mod pointers;
pub mod rows;
pub mod runs;
pub mod sets_and_maps;
pub mod validated;
pub mod values;
pub mod variants;
