//! Decoding of pointers and cells.
ghost use Rattle.std.specs.Prelude.{◌≡◌};
ghost use Rattle.std.specs.Arc.{arc_value};
ghost use Rattle.bincode_spec.specs.Cells.{IsAny};
ghost use Rattle.bincode_spec.specs.Format.{of_cell};
ghost use Rattle.bincode_spec.specs.Layers.Values.{Reads};

use crate::values::ReadValues;
use bincode_base::error::DecodeError;
use bincode_decoder::decoder::Decoder;
use std::cell::{Cell, RefCell};
use std::rc::Rc;
use std::sync::Arc;

/// Decodes a value into a box. Fails with the error of the value, or with `Memory` if the allocation is refused.
#[inline]
pub fn decode_box<D: Decoder, V: ReadValues<D>>(
    decoder: &mut D,
) -> Result<Box<V::Value>, DecodeError>
    ensures { Reads D.is_known D.remaining D.charge D.failures D.loans D.C.bound D.R.end_error D.R.device (Unit {0})
        (V.Value.words.format D.C.setting) (λ m v. V.Value.words.decodes_to m v.value) (D.charge decoder.old) result
        decoder.old decoder.new }
{
    let value = V::read_value(decoder)?;
    let Ok(pointer) = Box::new(decoder.alloc(), value) else {
        return Err(DecodeError::Memory);
    };
    Ok(pointer)
}

/// Decodes a value into an `Rc`. Errors are those of `decode_box`.
#[inline]
pub fn decode_rc<D: Decoder, V: ReadValues<D>>(decoder: &mut D) -> Result<Rc<V::Value>, DecodeError>
    ensures { Reads D.is_known D.remaining D.charge D.failures D.loans D.C.bound D.R.end_error D.R.device (Unit {0})
        (V.Value.words.format D.C.setting) (λ m v. V.Value.words.decodes_to m v.value) (D.charge decoder.old) result
        decoder.old decoder.new }
{
    let value = V::read_value(decoder)?;
    let Ok(pointer) = Rc::new(decoder.alloc(), value) else {
        return Err(DecodeError::Memory);
    };
    Ok(pointer)
}

/// Decodes a value into an `Arc`. Errors are those of `decode_box`.
#[inline]
pub fn decode_arc<D: Decoder, V: ReadValues<D>>(
    decoder: &mut D,
) -> Result<Arc<V::Value>, DecodeError>
    ensures { Reads D.is_known D.remaining D.charge D.failures D.loans D.C.bound D.R.end_error D.R.device (Unit {0})
        (V.Value.words.format D.C.setting) (λ m v. V.Value.words.decodes_to m (arc_value v)) (D.charge decoder.old)
        result decoder.old decoder.new }
{
    let value = V::read_value(decoder)?;
    let Ok(pointer) = Arc::new(decoder.alloc(), value) else {
        return Err(DecodeError::Memory);
    };
    Ok(pointer)
}

/// Decodes a value into a cell. Errors are those of the value.
#[inline]
pub fn decode_cell<D: Decoder, V: ReadValues<D>>(
    decoder: &mut D,
) -> Result<Cell<V::Value>, DecodeError>
    ensures { Reads D.is_known D.remaining D.charge D.failures D.loans D.C.bound D.R.end_error D.R.device
        V.Value.words.may_allocate (of_cell (V.Value.words.format D.C.setting)) (λ m v. IsAny m) (D.charge decoder.old)
        result decoder.old decoder.new }
{
    Ok(Cell::new(V::read_value(decoder)?))
}

/// Decodes a value into a `RefCell`. Errors are those of the value.
#[inline]
pub fn decode_ref_cell<D: Decoder, V: ReadValues<D>>(
    decoder: &mut D,
) -> Result<RefCell<V::Value>, DecodeError>
    ensures { Reads D.is_known D.remaining D.charge D.failures D.loans D.C.bound D.R.end_error D.R.device
        V.Value.words.may_allocate (of_cell (V.Value.words.format D.C.setting)) (λ m v. IsAny m) (D.charge decoder.old)
        result decoder.old decoder.new }
{
    Ok(RefCell::new(V::read_value(decoder)?))
}
