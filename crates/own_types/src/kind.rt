//! An enum.

mod words;

// bincode: with Described
/// What a contact is: a friend, someone at work since a year, or what these marks say, each with its weight.
#[derive(Drop, PartialEq)]
pub enum Kind {
    Private,
    Work { company: String, since: u16 },
    Other(Vec<(String, u32)>),
}
