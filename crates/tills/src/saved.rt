//! What is saved of a till, in two versions.

mod words;

/// What is saved of a till.
#[derive(Debug, Drop, PartialEq)]
pub enum Saved {
    /// The sum of the payments, of tills that took 1,000 at most.
    First(u32),
    /// The sum of the payments, and the greatest sum that is taken.
    Second {
        /// The sum of the payments.
        held: u32,
        /// The greatest sum.
        most: u32,
    },
}
