//! Assertions over several results, or over a table of rows with their labels.

use std::process::Abort;
use test_helpers::rows::first_false;

/// Each answer is true; else the place of the first that is not is told, from 0 on.
pub fn all_true(rt: &impl Abort, answers: &[bool]) {
    assert_eq!(rt; first_false(answers), None);
}

/// Each row holds; else the label of the first that does not is told.
pub fn rows_hold(rt: &impl Abort, rows: &[(&'static str, bool)]) {
    for (label, holds) in rows {
        assert!(rt; *holds, "{label}");
    }
}
