//! Values by their types, and by the shapes of these types.

use bincode::config::Config;
use bincode::de::Decode;
use bincode::enc::Encode;
use bincode::enc::write::SliceWriter;
use bincode::error::{DecodeError, EncodeError};
use bincode::shape::{Described, Shape, Value, decode_shaped, encode_shaped};
use bincode::{decode_from_slice, encode_into_slice, encode_to_vec};
use conformance::calls::Calls;
use conformance::fault::Fault;
use std::alloc::Global;

/// The calls for slices, by the type and, where it is described, by `Described::shape`, too: the bytes that are
/// written, the counts and the faults have to be the same.
pub struct ByShape;

impl Calls for ByShape {
    fn encode_described<T: Described, V: Encode + Copy, C: Config>(
        alloc: Global,
        value: V,
        slice: &mut [u8],
        config: C,
    ) -> Option<Result<usize, EncodeError>> {
        let (Some(shape), Ok(mut copy)) = (T::shape(alloc), slice.to_vec(alloc)) else {
            return Some(Err(EncodeError::Memory));
        };
        let written = encode_into_slice(value, slice, config);
        let shaped = match image_of(alloc, &shape, value, config) {
            Ok(image) => encode_image(&shape, &image, &mut copy, config),
            Err(DecodeError::Memory) => return Some(Err(EncodeError::Memory)),
            Err(_) => return None,
        };
        let is_alike = match (&written, &shaped) {
            (Ok(count), Ok(shaped_count)) => *count == *shaped_count,
            (Err(EncodeError::UnexpectedEnd), Err(EncodeError::UnexpectedEnd)) => true,
            _ => false,
        };
        if is_alike && *slice == *copy {
            Some(written)
        } else {
            None
        }
    }

    fn decode<T: Decode<()>, C: Config>(
        alloc: Global,
        input: &[u8],
        config: C,
    ) -> Option<Result<(T, usize), DecodeError>> {
        Some(decode_from_slice(alloc, input, config))
    }

    fn decode_described<T: Decode<()> + Encode + Described, C: Config>(
        alloc: Global,
        input: &[u8],
        config: C,
    ) -> Option<Result<(T, usize), DecodeError>> {
        let Some(shape) = T::shape(alloc) else {
            return Some(Err(DecodeError::Memory));
        };
        let read: Result<(T, usize), DecodeError> = decode_from_slice(alloc, input, config);
        let shaped = decode_shaped(alloc, &shape, input, config);
        let is_alike = match (&read, &shaped) {
            (Err(DecodeError::Memory), _) | (_, Err(DecodeError::Memory)) => {
                return Some(Err(DecodeError::Memory));
            }
            (Ok((value, taken)), Ok((image, shaped_taken))) => {
                *taken == *shaped_taken && are_written_alike(value, &shape, image, config)
            }
            (Err(error), Err(shaped_error)) => is_same(Fault::of(error), Fault::of(shaped_error)),
            _ => false,
        };
        if is_alike { Some(read) } else { None }
    }

    fn fault(error: &DecodeError) -> Option<Fault> {
        Fault::of(error)
    }
}

/// What the shape reads of the encoding of a value; `LimitExceeded` where it reads less than the whole.
fn image_of<V: Encode, C: Config>(
    alloc: Global,
    shape: &Shape,
    value: V,
    config: C,
) -> Result<Value, DecodeError> {
    let Ok(bytes) = encode_to_vec(alloc, value, config) else {
        return Err(DecodeError::Memory);
    };
    let (image, taken) = decode_shaped(alloc, shape, &bytes, config)?;
    if taken == bytes.len() {
        Ok(image)
    } else {
        Err(DecodeError::LimitExceeded)
    }
}

/// Writes an image into the slice by its shape, and returns how many bytes it has.
fn encode_image<C: Config>(
    shape: &Shape,
    image: &Value,
    slice: &mut [u8],
    config: C,
) -> Result<usize, EncodeError> {
    let mut writer = SliceWriter::new(slice);
    encode_shaped(shape, image, &mut writer, config)?;
    Ok(writer.bytes_written())
}

/// Whether a value and an image of at most 32 bytes are written as the same bytes.
fn are_written_alike<T: Encode, C: Config>(
    value: &T,
    shape: &Shape,
    image: &Value,
    config: C,
) -> bool {
    let mut slice = [0u8; 32];
    let mut shaped = [0u8; 32];
    let written = encode_into_slice(value, &mut slice, config);
    match (written, encode_image(shape, image, &mut shaped, config)) {
        (Ok(count), Ok(shaped_count)) => count == shaped_count && slice == shaped,
        _ => false,
    }
}

/// Whether both are a fault, and the same.
fn is_same(fault: Option<Fault>, shaped: Option<Fault>) -> bool {
    fault.is_some() && fault == shaped
}
