//! The tests of frames, of stores of frames, and of what the program `records` does: arguments, the bytes of stores,
//! what is printed, and streams that fail.
#![tactic(auto)]

#[cfg(test)]
mod adds;
#[cfg(test)]
mod framed;
#[cfg(test)]
mod framed_stores;
#[cfg(test)]
mod inputs;
#[cfg(test)]
mod long_stores;
#[cfg(test)]
mod repairs;
#[cfg(test)]
mod requests;
#[cfg(test)]
mod runs;
#[cfg(test)]
mod shows;
#[cfg(test)]
mod stores;
