//! Values whose type is known at run time alone, counted before they are made.
ghost use Rattle.std.specs.Prelude.{◌≡◌, ◌≤◌, ℕ, IfOk, IfErr};
ghost use Rattle.bincode_spec.specs.Answer.{answer};
ghost use Rattle.bincode_spec.specs.Decoding.{Decodes, DecodeFailure};
ghost use Rattle.bincode_spec.specs.Slice.{IsDecoded, FindsWords, TellsFaults, KeepsLimit};
ghost use Rattle.bincode_shape.specs.Counts.{values_in, count_of, IsCounted};
ghost use Rattle.bincode_shape.specs.Shapes.{format_of, IsImage, TakesMemory};
ghost use Rattle.bincode_shape_codec.specs.Within.{FindsFew, RefusesMany, TellsDecodeFaults, KeepsDecodeLimit};

use super::decode_shaped;
use bincode_base::config::Config;
use bincode_base::error::DecodeError;
use bincode_decoder::decoder::LentDecoder;
use bincode_io::read::{BorrowReader, SliceReader};
use bincode_shape::shape::{Shape, Value};
use bincode_shape_codec::measure::measure_shape;
use bincode_shape_codec::within::{DecodeWithinError, Measure};
use std::alloc::Global;

/// Validates an encoding at the front of a slice without making a value, and returns its length in bytes and how many
/// values `decode_shaped` would make of it. Does not allocate. Of a list of elements without bytes only the first is
/// read, so that a long one takes constant time. Errors are those of `decode_shaped`, save `Memory`.
pub fn measure_shaped<C: Config>(
    alloc: Global,
    shape: &Shape,
    src: &[u8],
    config: C,
) -> Result<Measure, DecodeError>
    // On `Ok` the front of the slice is an encoding within the limit, with its length and its number of values.
    ensures word { IfOk result (λ x. IsDecoded (format_of shape.now C.setting) C.bound src.now
        (λ m. IsCounted shape.now m x.values) x.bytes) }
    // Each encoding within the limit is accepted,
    ensures found { FindsWords (format_of shape.now C.setting) C.bound ⊥ src.now result }
    // each fault within the limit is reported,
    ensures fault { TellsFaults (format_of shape.now C.setting) C.bound ⊥ src.now result }
    // and charges that pass the limit are refused.
    ensures limit { KeepsLimit (format_of shape.now C.setting) C.bound ⊥ src.now result }
{
    let mut reader = SliceReader::new(src);
    let values = measure_with(alloc, shape, &mut reader, &config)?;
    Ok(Measure {
        values,
        bytes: src.len() - reader.bytes_left(),
    })
}

/// Measures an encoding with a decoder that borrows its reader and its configuration.
fn measure_with<'a, R: BorrowReader<'a>, C: Config>(
    alloc: Global,
    shape: &Shape,
    reader: &mut R,
    config: &C,
) -> Result<u128, DecodeError>
    ensures ok { R.is_known reader.old → IfOk result (λ n. (charge : ℕ) × Decodes (λ m. IsCounted shape.now m n)
        (answer C.bound (format_of shape.now C.setting) (R.remaining reader.old) 0) (R.remaining reader.new) charge) }
    ensures err { R.is_known reader.old → IfErr result (λ e. (charge : ℕ) × DecodeFailure R.end_error R.device ⊥
        (answer C.bound (format_of shape.now C.setting) (R.remaining reader.old) 0) (R.failures reader.old)
        (R.failures reader.new) (R.remaining reader.old) (R.remaining reader.new) charge e) }
{
    let mut context = ();
    let mut decoder = LentDecoder::new(alloc, reader, config, &mut context);
    measure_shape::<&'a [u8], LentDecoder<'_, R, C, ()>>(shape, &mut decoder)
}

/// Decodes a value of a shape like `decode_shaped`, if it is made of at most `most` values: one for the whole, and one
/// for each part, element and part of a part, even without bytes. They are counted before the first is made, so this is
/// the call for untrusted input. Fails with `TooManyValues` for an encoding within the limit that has more, else with
/// `Decode` and the error of `decode_shaped`. `Memory` comes only for an encoding that has no more than `most`.
pub fn decode_shaped_within<C: Config>(
    alloc: Global,
    shape: &Shape,
    src: &[u8],
    config: C,
    most: usize,
) -> Result<(Value, usize), DecodeWithinError>
    // On `Ok((v, n))` the first `n` bytes are an encoding within the limit, `v` fits the shape and has its meaning, and
    // it is made of at most `most` values.
    ensures word { IfOk result (λ x. IsDecoded (format_of shape.now C.setting) C.bound src.now
        (λ m. IsImage shape.now m x.0 × (values_in x.0 ≤ most)) x.1) }
    // Each encoding within the limit that has no more values is accepted,
    ensures found { FindsFew (format_of shape.now C.setting) C.bound (TakesMemory shape.now) (count_of shape.now)
        most src.now result }
    // each that has more is refused with their number,
    ensures many { RefusesMany (format_of shape.now C.setting) C.bound (count_of shape.now) most src.now result }
    // each fault within the limit is reported,
    ensures fault { TellsDecodeFaults (format_of shape.now C.setting) C.bound src.now result }
    // and charges that pass the limit are refused.
    ensures limit { KeepsDecodeLimit (format_of shape.now C.setting) C.bound src.now result }
{
    match measure_shaped(alloc, shape, src, config) {
        Ok(measure) => {
            if measure.values > most as u128 {
                return Err(DecodeWithinError::TooManyValues {
                    values: measure.values,
                    most,
                });
            }
            match decode_shaped(alloc, shape, src, config) {
                Ok((value, bytes)) => Ok((value, bytes)),
                Err(e) => Err(DecodeWithinError::Decode(e)),
            }
        }
        Err(e) => Err(DecodeWithinError::Decode(e)),
    }
}
