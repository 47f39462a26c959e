//! Tests of the library at types that own memory, and at user-defined types, lists, readers and writers. Expected
//! values come from the description of the format.
#![tactic(auto)]

#[cfg(test)]
mod asserts;
#[cfg(test)]
mod borrowed;
#[cfg(test)]
mod broken;
#[cfg(test)]
mod by_shape;
#[cfg(test)]
mod cells;
#[cfg(test)]
mod changed_bytes;
#[cfg(test)]
mod collected;
#[cfg(test)]
mod containers;
#[cfg(test)]
mod counted;
#[cfg(test)]
mod derived;
#[cfg(test)]
mod empties;
#[cfg(test)]
mod encodings;
#[cfg(test)]
mod events;
#[cfg(test)]
mod growing;
#[cfg(test)]
mod limits;
#[cfg(test)]
mod longer;
#[cfg(test)]
mod maps;
#[cfg(test)]
mod nodes;
#[cfg(test)]
mod own;
#[cfg(test)]
mod readers;
#[cfg(test)]
mod requests;
#[cfg(test)]
mod reserved;
#[cfg(test)]
mod shown;
#[cfg(test)]
mod tables;
#[cfg(test)]
mod texts;
#[cfg(test)]
mod unallocated;
#[cfg(test)]
mod writers;
