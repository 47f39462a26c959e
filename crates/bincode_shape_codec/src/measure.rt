//! Counts the values in an encoding without making them, with any decoder that gives out borrowed bytes.
ghost use Rattle.std.specs.Prelude.{◌≡◌, ◌*◌, ◌<◌, ℕ, List, true, IfOk};
ghost use Rattle.bincode_spec.specs.Answer.{Allows, after_release};
ghost use Rattle.bincode_spec.specs.Layers.Claims.{MakesRelease};
ghost use Rattle.bincode_spec.specs.Layers.Releases.{CanRelease};
ghost use Rattle.bincode_spec.specs.Layers.Values.{Reads, RunRead};
ghost use Rattle.bincode_spec.specs.Words.{array, list, text, tuple, tag_then_part};
ghost use Rattle.bincode_shape.specs.Shapes.{format_of, byte_tag, option_variants, at, numbered_variants, one_of};
ghost use Rattle.bincode_shape.specs.Shapes.{TakesMemory};
ghost use Rattle.bincode_shape.specs.Counts.{count_of, count_each, count_some, count_parts, count_choice, as_u128};
ghost use Rattle.bincode_shape.specs.Counts.{IsCounted, without_bytes};
ghost use Rattle.bincode_shape.specs.Rows.{formats, counts};
ghost use Rattle.bincode_shape_codec.specs.Counted.{total, with_whole};

use crate::decode::decode_shape;
use bincode_base::config::Config;
use bincode_base::error::DecodeError;
use bincode_base::short_text::{ShortText, TypeName};
use bincode_decoder::borrow::take_length_prefixed;
use bincode_decoder::decoder::{BorrowDecoder, BorrowedBytes, Decoder, claim_room};
use bincode_decoder::integers::{decode_byte, decode_integer};
use bincode_decoder::lengths::decode_length;
use bincode_shape::bytes::has_no_bytes;
use bincode_shape::shape::Shape;

/// Bytes that are lent by a decoder and can be looked at.
pub trait LentBytes: BorrowedBytes {
    /// The bytes.
    fn as_bytes(&self) -> &[u8]
        ensures { result.now ≡ Self.bytes self.now };
}

impl<'de> LentBytes for &'de [u8] {
    fn as_bytes(&self) -> &[u8] {
        self
    }
}

/// Decodes as `decode_shape` does, but only counts the values that it would make: one, and those of the parts; at most
/// `u128::MAX`. Does not allocate. Of elements without bytes only the first is read. Errors, and what is charged after
/// them, are those of `decode_shape`, save `Memory`.
#[cycle(measure)]
pub fn measure_shape<B: LentBytes, D: BorrowDecoder<B>>(
    shape: &Shape,
    decoder: &mut D,
) -> Result<u128, DecodeError>
    ensures { Reads D.is_known D.remaining D.charge D.failures D.loans D.C.bound D.R.end_error D.R.device ⊥
        (format_of shape.now D.C.setting) (IsCounted shape.now) (D.charge decoder.old) result decoder.old decoder.new }
{
    match shape {
        Shape::Text => measure_text::<B, D>(decoder),
        Shape::Seq { claim, element } => {
            with_itself(measure_list::<B, D>(element, (*claim).max(1), decoder))
        }
        Shape::Array {
            len,
            claim,
            element,
        } => with_itself(measure_array::<B, D>(element, (*claim).max(1), *len, decoder)),
        Shape::Tuple(parts) => with_itself(measure_parts::<B, D>(parts, decoder)),
        Shape::Optional(part) => with_itself(measure_optional::<B, D>(part, decoder)),
        Shape::Choice(parts) => with_itself(measure_choice::<B, D>(parts, decoder)),
        _ => measure_scalar(shape, decoder),
    }
}

/// Adds one to the count.
fn with_itself(count: Result<u128, DecodeError>) -> Result<u128, DecodeError>
    ensures { result ≡ with_whole count }
{
    match count {
        Ok(count) => Ok(count.saturating_add(1)),
        Err(e) => Err(e),
    }
}

/// Reads what makes one value.
fn measure_scalar<D: Decoder>(shape: &Shape, decoder: &mut D) -> Result<u128, DecodeError>
    ensures { Reads D.is_known D.remaining D.charge D.failures D.loans D.C.bound D.R.end_error D.R.device
        (TakesMemory shape.now) (format_of shape.now D.C.setting) (λ m n. n ≡ 1) (D.charge decoder.old) result
        decoder.old decoder.new }
{
    match decode_shape(shape, decoder) {
        Ok(_) => Ok(1),
        Err(e) => Err(e),
    }
}

/// Reads a text without copying it.
fn measure_text<B: LentBytes, D: BorrowDecoder<B>>(decoder: &mut D) -> Result<u128, DecodeError>
    ensures { Reads D.is_known D.remaining D.charge D.failures D.loans D.C.bound D.R.end_error D.R.device ⊥
        (text D.C.setting) (λ m n. n ≡ 1) (D.charge decoder.old) result decoder.old decoder.new }
{
    let bytes: B = take_length_prefixed(decoder)?;
    match str::from_utf8(bytes.as_bytes()) {
        Ok(_) => Ok(1),
        Err(fault) => Err(DecodeError::Utf8 { inner: fault }),
    }
}

/// Reads a length prefix and the elements, after claiming for them.
#[cycle(measure)]
fn measure_list<B: LentBytes, D: BorrowDecoder<B>>(
    element: &Shape,
    claim: usize,
    decoder: &mut D,
) -> Result<u128, DecodeError>
    ensures { Reads D.is_known D.remaining D.charge D.failures D.loans D.C.bound D.R.end_error D.R.device ⊥
        (list D.C.setting claim (format_of element.now D.C.setting))
        (λ m n. n ≡ as_u128 (count_each (count_of element.now) m)) (D.charge decoder.old) result decoder.old
        decoder.new }
{
    let len = decode_length(decoder)?;
    measure_array::<B, D>(element, claim, len, decoder)
}

/// Reads the elements, after claiming for them.
#[cycle(measure)]
fn measure_array<B: LentBytes, D: BorrowDecoder<B>>(
    element: &Shape,
    claim: usize,
    len: usize,
    decoder: &mut D,
) -> Result<u128, DecodeError>
    ensures { Reads D.is_known D.remaining D.charge D.failures D.loans D.C.bound D.R.end_error D.R.device ⊥
        (array len claim (format_of element.now D.C.setting))
        (λ m n. n ≡ as_u128 (count_each (count_of element.now) m)) (D.charge decoder.old) result decoder.old
        decoder.new }
{
    claim_room(decoder, len, claim)?;
    measure_elements::<B, D>(element, claim, len, decoder)
}

/// Reads elements that were claimed for.
#[cycle(measure)]
fn measure_elements<B: LentBytes, D: BorrowDecoder<B>>(
    element: &Shape,
    claim: usize,
    len: usize,
    decoder: &mut D,
) -> Result<u128, DecodeError>
    requires room { CanRelease D.C.bound (D.charge decoder.old) (len * claim) }
    requires within { Allows D.C.bound (D.charge decoder.old) }
    ensures { (ns : List ℕ) × RunRead D.is_known D.remaining D.charge D.failures D.loans D.C.bound D.R.end_error
        D.R.device ⊥ claim (format_of element.now D.C.setting) (IsCounted element.now) len (λ _. ns) result decoder.old
        decoder.new × IfOk result (λ n. n ≡ as_u128 (total ns)) }
{
    if len > 0 && has_no_bytes(element) {
        measure_alike::<B, D>(element, claim, len, decoder)
    } else {
        measure_each::<B, D>(element, claim, len, decoder)
    }
}

/// Reads elements that were claimed for, one by one.
#[cycle(measure)]
fn measure_each<B: LentBytes, D: BorrowDecoder<B>>(
    element: &Shape,
    claim: usize,
    len: usize,
    decoder: &mut D,
) -> Result<u128, DecodeError>
    requires { CanRelease D.C.bound (D.charge decoder.old) (len * claim) }
    ensures { (ns : List ℕ) × RunRead D.is_known D.remaining D.charge D.failures D.loans D.C.bound D.R.end_error
        D.R.device ⊥ claim (format_of element.now D.C.setting) (IsCounted element.now) len (λ _. ns) result decoder.old
        decoder.new × IfOk result (λ n. n ≡ as_u128 (total ns)) }
{
    let mut count: u128 = 0;
    for _ in 0..len {
        let values = measure_element::<B, D>(element, claim, decoder)?;
        count = count.saturating_add(values);
    }
    Ok(count)
}

/// Reads the first of elements without bytes, that were claimed for; after it the others cannot pass the limit.
#[cycle(measure)]
fn measure_alike<B: LentBytes, D: BorrowDecoder<B>>(
    element: &Shape,
    claim: usize,
    len: usize,
    decoder: &mut D,
) -> Result<u128, DecodeError>
    requires bytes { without_bytes element.now ≡ true }
    requires some { 0 < len }
    requires room { CanRelease D.C.bound (D.charge decoder.old) (len * claim) }
    requires within { Allows D.C.bound (D.charge decoder.old) }
    ensures { (ns : List ℕ) × RunRead D.is_known D.remaining D.charge D.failures D.loans D.C.bound D.R.end_error
        D.R.device ⊥ claim (format_of element.now D.C.setting) (IsCounted element.now) len (λ _. ns) result decoder.old
        decoder.new × IfOk result (λ n. n ≡ as_u128 (total ns)) }
{
    let values = measure_element::<B, D>(element, claim, decoder)?;
    release_room(decoder, len - 1, claim);
    Ok(values.saturating_mul(len as u128))
}

/// Releases the claims of `len` elements.
fn release_room<D: Decoder>(decoder: &mut D, len: usize, claim: usize)
    requires room { CanRelease D.C.bound (D.charge decoder.old) (len * claim) }
    requires within { Allows D.C.bound (D.charge decoder.old) }
    ensures { MakesRelease D.is_known D.remaining D.charge D.failures D.reader_of D.context_of D.loans D.C.bound
        (len * claim) decoder.old decoder.new }
{
    if decoder.config().limit().is_some() {
        decoder.unclaim_bytes_read(len * claim);
    }
}

/// Releases the claim of an element, and reads it.
#[cycle(measure)]
fn measure_element<B: LentBytes, D: BorrowDecoder<B>>(
    element: &Shape,
    claim: usize,
    decoder: &mut D,
) -> Result<u128, DecodeError>
    requires { CanRelease D.C.bound (D.charge decoder.old) claim }
    ensures { Reads D.is_known D.remaining D.charge D.failures D.loans D.C.bound D.R.end_error D.R.device ⊥
        (format_of element.now D.C.setting) (IsCounted element.now)
        (after_release D.C.bound (D.charge decoder.old) claim) result decoder.old decoder.new }
{
    decoder.unclaim_bytes_read(claim);
    measure_shape::<B, D>(element, decoder)
}

/// Reads each part in order.
#[cycle(measure)]
fn measure_parts<B: LentBytes, D: BorrowDecoder<B>>(
    parts: &[Shape],
    decoder: &mut D,
) -> Result<u128, DecodeError>
    ensures { Reads D.is_known D.remaining D.charge D.failures D.loans D.C.bound D.R.end_error D.R.device ⊥
        (tuple (at D.C.setting (formats parts.now))) (λ m n. n ≡ as_u128 (count_parts (counts parts.now) m))
        (D.charge decoder.old) result decoder.old decoder.new }
{
    let mut count: u128 = 0;
    for part in parts {
        let values = measure_shape::<B, D>(part, decoder)?;
        count = count.saturating_add(values);
    }
    Ok(count)
}

/// Reads the byte of an option, and the part if there is one.
#[cycle(measure)]
fn measure_optional<B: LentBytes, D: BorrowDecoder<B>>(
    part: &Shape,
    decoder: &mut D,
) -> Result<u128, DecodeError>
    ensures { Reads D.is_known D.remaining D.charge D.failures D.loans D.C.bound D.R.end_error D.R.device ⊥
        (tag_then_part byte_tag (option_variants (format_of part.now)) D.C.setting)
        (λ m n. n ≡ as_u128 (count_some (count_of part.now) m)) (D.charge decoder.old) result decoder.old
        decoder.new }
{
    match decode_byte(decoder) {
        Ok(0) => Ok(0),
        Ok(1) => measure_shape::<B, D>(part, decoder),
        Ok(found) => Err(DecodeError::UnexpectedVariant {
            type_name: TypeName::new("Option"),
            found: found as u32,
            min: 0,
            max: 1,
        }),
        Err(e) => Err(e),
    }
}

/// Reads a tag, and the part that it selects.
#[cycle(measure)]
fn measure_choice<B: LentBytes, D: BorrowDecoder<B>>(
    parts: &[Shape],
    decoder: &mut D,
) -> Result<u128, DecodeError>
    ensures { Reads D.is_known D.remaining D.charge D.failures D.loans D.C.bound D.R.end_error D.R.device ⊥
        (one_of (numbered_variants 0 (formats parts.now)) D.C.setting)
        (λ m n. n ≡ as_u128 (count_choice (counts parts.now) m)) (D.charge decoder.old) result decoder.old
        decoder.new }
{
    if parts.is_empty() {
        return Err(DecodeError::EmptyEnum {
            type_name: ShortText::new("Choice"),
        });
    }
    match decode_integer::<u32, D>(decoder) {
        Ok(found) => match parts.get(found as usize) {
            Some(part) => measure_shape::<B, D>(part, decoder),
            None => Err(DecodeError::UnexpectedVariant {
                type_name: TypeName::new("Choice"),
                found,
                min: 0,
                max: (parts.len() - 1) as u32,
            }),
        },
        Err(e) => Err(e),
    }
}
