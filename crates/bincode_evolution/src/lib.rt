//! Which changes of a type keep stored bytes readable: schema evolution, or backward compatibility. The bytes name no
//! type, so that a new type reads what an old one wrote only if each encoding of the old one is an encoding of the new
//! one, with the same meaning. Shapes decide it, by the rules of [`evolution::reads_all`].
#![tactic(auto)]

mod compare;
pub mod evolution;
mod scalars;
mod words;
