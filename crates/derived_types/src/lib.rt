//! Types in forms that `own_types` does not have, with the `impl`s that the program `derive` wrote.
#![tactic(auto)]

pub mod enums;
pub mod floats;
pub mod lent;
pub mod packets;
pub mod replies;
pub mod structs;
pub mod tags;
pub mod turns;
