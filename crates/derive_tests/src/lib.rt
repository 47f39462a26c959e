//! The tests of what `derive` writes: what is refused, and what is written for types that are not among those of the
//! program's run. And those of what the program does: what its words ask for, what it answers for a source, and its
//! runs over several.
#![tactic(auto)]

#[cfg(test)]
mod answers;
#[cfg(test)]
mod enums;
#[cfg(test)]
mod laws;
#[cfg(test)]
mod modules;
#[cfg(test)]
mod refusals;
#[cfg(test)]
mod requests;
#[cfg(test)]
mod runs;
