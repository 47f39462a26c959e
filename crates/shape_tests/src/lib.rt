//! Tests of shapes: those of types, what each shape reads and writes, shapes in a text, and which shapes read the
//! encodings of which others, with the bytes that show it (`changed_shapes`, `changed_types`, `changed_wholes`,
//! `explained`, `wordless`). Expected values come from the description of the format.
#![tactic(auto)]

#[cfg(test)]
mod asserts;
#[cfg(test)]
mod changed_shapes;
#[cfg(test)]
mod changed_types;
#[cfg(test)]
mod changed_wholes;
#[cfg(test)]
mod collections;
#[cfg(test)]
mod described;
#[cfg(test)]
mod explained;
#[cfg(test)]
mod images;
#[cfg(test)]
mod printed;
#[cfg(test)]
mod rows;
#[cfg(test)]
mod shaped;
#[cfg(test)]
mod texts;
#[cfg(test)]
mod within;
#[cfg(test)]
mod wordless;
