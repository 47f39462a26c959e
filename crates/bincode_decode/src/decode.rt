//! What can be decoded.
ghost use Rattle.bincode_spec.specs.Layers.Values.{Reads};

use bincode_base::error::DecodeError;
use bincode_collections::values::DecodeRun;
use bincode_decoder::decoder::Decoder;
use bincode_types::wire::Wire;

/// A type whose values can be decoded, in a context.
pub trait Decode<Context: Drop>: Wire + Drop + Sized {
    /// How a slice of values is decoded: `Sequential`, for all types but numbers and bytes.
    type Run: DecodeRun<Self>;

    /// Decodes a value. Fails with the first fault of the input, `LimitExceeded` if the charges pass the limit,
    /// `Memory` if an allocation is refused, or an error of the device. After an error a prefix of the input is
    /// consumed, unless the error is one that the device does not count, and the charges made before it stay. After a
    /// success the charge is within the limit, if it was before.
    fn decode<D: Decoder<Context = Context>>(decoder: &mut D) -> Result<Self, DecodeError>
        ensures { Reads D.is_known D.remaining D.charge D.failures D.loans D.C.bound D.R.end_error D.R.device
            Self.words.may_allocate (Self.words.format D.C.setting) Self.words.decodes_to (D.charge decoder.old) result
            decoder.old decoder.new };
}
