//! The tests of the program `describe`: its arguments, its output for streams and for stores of frames, its messages
//! and its statuses. Expected values come from the description of the format and from Python.
#![tactic(auto)]

#[cfg(test)]
mod endings;
#[cfg(test)]
mod framed;
#[cfg(test)]
mod long;
#[cfg(test)]
mod printed;
#[cfg(test)]
mod reads;
#[cfg(test)]
mod requests;
#[cfg(test)]
mod sources;
