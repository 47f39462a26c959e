//! The error of a cell that cannot be read.
ghost use Rattle.bincode_spec.specs.Cells.{IsBorrowed};

use bincode_base::error::EncodeError;
use bincode_base::short_text::ShortText;

/// The error of a `RefCell` that is mutably borrowed.
pub fn borrowed_cell() -> EncodeError
    ensures { IsBorrowed result }
{
    EncodeError::RefCellAlreadyBorrowed {
        type_name: ShortText::new("RefCell"),
    }
}
