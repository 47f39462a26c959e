//! Assertions over several results.

use std::process::Abort;
use test_helpers::rows::first_false;

/// Each answer is true; else the place of the first that is not is told, from 0 on.
pub fn all_true(rt: &impl Abort, answers: &[bool]) {
    assert_eq!(rt; first_false(answers), None);
}

/// The label of the first row that does not hold.
fn first_wrong(rows: &[(&'static str, bool)]) -> Option<&'static str> {
    for (label, holds) in rows {
        if !*holds {
            return Some(*label);
        }
    }
    None
}

/// Each row holds; else the label of the first that does not is told.
pub fn all_hold(rt: &impl Abort, rows: &[(&'static str, bool)]) {
    assert_eq!(rt; first_wrong(rows), None);
}
