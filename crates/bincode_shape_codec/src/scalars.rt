//! Decoding of `bool`, characters and texts of a shape.
ghost use Rattle.bincode_spec.specs.Layers.Values.{Reads};
ghost use Rattle.bincode_shape.specs.Shapes.{format_of, IsImage};
ghost use Rattle.bincode_shape.specs.declared.shape.Shape.TheVariants as shapes;

use bincode_base::error::DecodeError;
use bincode_decoder::chars::decode_char;
use bincode_decoder::decoder::Decoder;
use bincode_decoder::texts::decode_text;
use bincode_decoder::truth::decode_truth;
use bincode_shape::shape::Value;

/// Reads a truth value.
pub(crate) fn decode_bool<D: Decoder>(decoder: &mut D) -> Result<Value, DecodeError>
    ensures { Reads D.is_known D.remaining D.charge D.failures D.loans D.C.bound D.R.end_error D.R.device ⊥
        (format_of shapes.Bool D.C.setting) (IsImage shapes.Bool) (D.charge decoder.old) result decoder.old
        decoder.new }
{
    match decode_truth(decoder) {
        Ok(truth) => Ok(Value::Bool(truth)),
        Err(e) => Err(e),
    }
}

/// Reads a character.
pub(crate) fn decode_character<D: Decoder>(decoder: &mut D) -> Result<Value, DecodeError>
    ensures { Reads D.is_known D.remaining D.charge D.failures D.loans D.C.bound D.R.end_error D.R.device ⊥
        (format_of shapes.Char D.C.setting) (IsImage shapes.Char) (D.charge decoder.old) result decoder.old
        decoder.new }
{
    match decode_char(decoder) {
        Ok(code) => Ok(Value::Char(code)),
        Err(e) => Err(e),
    }
}

/// Reads a text.
pub(crate) fn decode_string<D: Decoder>(decoder: &mut D) -> Result<Value, DecodeError>
    ensures { Reads D.is_known D.remaining D.charge D.failures D.loans D.C.bound D.R.end_error D.R.device (Unit {0})
        (format_of shapes.Text D.C.setting) (IsImage shapes.Text) (D.charge decoder.old) result decoder.old
        decoder.new }
{
    match decode_text(decoder) {
        Ok(text) => Ok(Value::Text(text)),
        Err(e) => Err(e),
    }
}
