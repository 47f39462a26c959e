//! Tables of results, each with a label, of which a test asserts that all are true.

/// The place of the first answer that is false, from 0 on.
pub fn first_false(answers: &[bool]) -> Option<usize> {
    for (place, holds) in answers.iter().enumerate() {
        if !*holds {
            return Some(place);
        }
    }
    None
}
