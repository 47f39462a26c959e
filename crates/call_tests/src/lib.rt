//! The tests of calls, over a service whose replies are of a generic enum: what frames of each kind get, what a caller
//! reads, and allocations that fail.
#![tactic(auto)]

#[cfg(test)]
mod answers;
#[cfg(test)]
mod broken;
#[cfg(test)]
mod orders;
#[cfg(test)]
mod refused_memory_of_calls;
#[cfg(test)]
mod reply;
#[cfg(test)]
mod streams;
#[cfg(test)]
mod zeros;
