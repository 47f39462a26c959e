//! Cases of shapes.

use crate::case::{Answer, Case, Encoding, Refusal};
use crate::fault::Fault;
use crate::rows::Row;
use crate::run::{ROOM, fills, is_fault};
use crate::setting::{Setting, Standard, Within};
use bincode::config;
use bincode::enc::write::SliceWriter;
use bincode::error::{DecodeError, EncodeError};
use bincode::shape::{Shape, Value, decode_shaped, encode_shaped};
use std::alloc::{AllocError, Global};

/// A number and a list of numbers: the generic value of a `(u8, Vec<u16>)`.
pub type Image = (u128, &'static [u128]);

/// What is written or read by a shape.
#[derive(Drop)]
pub enum Shaped {
    /// A value that is written.
    Write(Encoding<Image, Standard>),
    /// A value that does not fit, and what the slice holds before and after it is refused.
    Refuse(Refusal<Image>),
    /// An input that is read under a limit.
    ReadWithin12(Reading<Within<12>>),
    ReadWithin13(Reading<Within<13>>),
    /// An input that is no encoding of another shape.
    Fault(Misread),
}

/// An input, and its result under a limit.
#[derive(Drop)]
pub struct Reading<S> {
    pub setting: S,
    pub input: &'static [u8],
    pub answer: Answer<Image>,
}

/// An input, and the fault that a shape reports of it in the standard configuration.
#[derive(Drop)]
pub struct Misread {
    pub by: Outline,
    pub input: &'static [u8],
    pub answer: Answer<Image>,
}

/// The name of a shape, since a shape itself allocates.
#[derive(Clone, Copy)]
pub enum Outline {
    /// A choice of no parts.
    NoVariants,
    /// A choice of two bytes.
    TwoBytes,
    /// An optional truth value.
    MaybeTruth,
}

/// The shape of `(u8, Vec<u16>)`.
fn shape_of_images(alloc: Global) -> Result<Shape, AllocError> {
    let numbers = Shape::Seq {
        claim: 2,
        element: Box::new(alloc, Shape::U16)?,
    };
    let mut parts = Vec::new(alloc);
    parts.push(Shape::U8)?;
    parts.push(numbers)?;
    Ok(Shape::Tuple(parts))
}

/// The shape of this name.
fn shape_of(alloc: Global, outline: Outline) -> Result<Shape, AllocError> {
    let mut parts = Vec::new(alloc);
    match outline {
        Outline::NoVariants => Ok(Shape::Choice(parts)),
        Outline::TwoBytes => {
            parts.push(Shape::U8)?;
            parts.push(Shape::U8)?;
            Ok(Shape::Choice(parts))
        }
        Outline::MaybeTruth => Ok(Shape::Optional(Box::new(alloc, Shape::Bool)?)),
    }
}

/// The generic value of an image.
fn value_of(alloc: Global, image: Image) -> Result<Value, AllocError> {
    let mut numbers = Vec::new(alloc);
    for number in image.1 {
        numbers.push(Value::Unsigned(*number))?;
    }
    let mut parts = Vec::new(alloc);
    parts.push(Value::Unsigned(image.0))?;
    parts.push(Value::List(numbers))?;
    Ok(Value::List(parts))
}

/// Whether the case holds.
pub(crate) fn shaped_holds(alloc: Global, shaped: &Shaped) -> Result<bool, AllocError> {
    match shaped {
        Shaped::Write(row) => writes(alloc, row),
        Shaped::Refuse(row) => refuses(alloc, row),
        Shaped::ReadWithin12(row) => reads(alloc, row),
        Shaped::ReadWithin13(row) => reads(alloc, row),
        Shaped::Fault(row) => misreads(alloc, row),
    }
}

/// Whether the value is written as the bytes, into a slice of just their length.
fn writes(alloc: Global, row: &Encoding<Image, Standard>) -> Result<bool, AllocError> {
    let mut room = [0u8; ROOM];
    let Some(slice) = room.get_mut(..row.bytes.len()) else {
        return Ok(false);
    };
    let written = write_image(alloc, row.value, slice)?;
    Ok(fills(Some(written), row.bytes)? && *slice == *row.bytes)
}

/// Whether the value is refused since it does not fit, and the slice then holds what it should.
fn refuses(alloc: Global, row: &Refusal<Image>) -> Result<bool, AllocError> {
    let mut room = [0u8; ROOM];
    let Some(slice) = room.get_mut(..row.before.len()) else {
        return Ok(false);
    };
    slice.copy_from_slice(row.before);
    match write_image(alloc, row.value, slice)? {
        Err(EncodeError::Other(text)) => {
            Ok(text.as_str() == "value does not fit the shape" && *slice == *row.after)
        }
        _ => Ok(false),
    }
}

/// Writes the generic value of an image into the slice, by its shape, and returns how many bytes that took.
fn write_image(
    alloc: Global,
    image: Image,
    slice: &mut [u8],
) -> Result<Result<usize, EncodeError>, AllocError> {
    let shape = shape_of_images(alloc)?;
    let value = value_of(alloc, image)?;
    let mut writer = SliceWriter::new(slice);
    let outcome = encode_shaped(&shape, &value, &mut writer, config::standard());
    Ok(outcome.map(|_| writer.bytes_written()))
}

/// Whether decoding the input under the limit gives the answer.
fn reads<S: Setting>(alloc: Global, row: &Reading<S>) -> Result<bool, AllocError> {
    let shape = shape_of_images(alloc)?;
    let outcome: Result<(Value, usize), DecodeError> = decode_shaped(
        alloc,
        &shape,
        row.input,
        row.setting.config(),
    );
    match outcome {
        Ok((value, taken)) => Ok(is_answer(&value, taken, &row.answer)),
        Err(DecodeError::Memory) => Err(AllocError),
        Err(error) => Ok(is_fault(Fault::of(&error), &row.answer)),
    }
}

/// Whether the answer is this generic value, of so many bytes.
fn is_answer(value: &Value, taken: usize, answer: &Answer<Image>) -> bool {
    match answer {
        Answer::Value(image, length) => is_value_of(value, *image) && taken == *length,
        Answer::Fault(_) => false,
    }
}

/// Whether this is the generic value of the image.
fn is_value_of(value: &Value, image: Image) -> bool {
    let Value::List(parts) = value else {
        return false;
    };
    let [Value::Unsigned(number), Value::List(numbers)] = parts.as_slice() else {
        return false;
    };
    *number == image.0 && are_numbers(numbers, image.1)
}

/// Whether these are the generic values of the numbers.
fn are_numbers(values: &[Value], numbers: &[u128]) -> bool {
    values.len() == numbers.len()
        && values.iter().zip(numbers).all(|(
            value,
            number,
        )| matches!(value, Value::Unsigned(held) if *held == *number))
}

/// Whether decoding the input reports the fault.
fn misreads(alloc: Global, row: &Misread) -> Result<bool, AllocError> {
    let shape = shape_of(alloc, row.by)?;
    let outcome: Result<_, DecodeError> = decode_shaped(
        alloc,
        &shape,
        row.input,
        config::standard(),
    );
    match outcome {
        Ok(_) => Ok(false),
        Err(DecodeError::Memory) => Err(AllocError),
        Err(error) => Ok(is_fault(Fault::of(&error), &row.answer)),
    }
}

/// The cases of the program.
pub(crate) fn shaped_table() -> &'static [Row] {
    &SHAPED
}

static SHAPED: [Row; 7] = [
    Row {
        label: "26a",
        case: Case::Shaped(Shaped::ReadWithin13(Reading {
            setting: Within::<13>,
            input: &[7, 2, 5, 251, 0, 1],
            answer: Answer::Value((7, &[5, 256]), 6),
        })),
    },
    Row {
        label: "26b",
        case: Case::Shaped(Shaped::ReadWithin12(Reading {
            setting: Within::<12>,
            input: &[7, 2, 5, 251, 0, 1],
            answer: Answer::Fault(Fault::LimitExceeded),
        })),
    },
    Row {
        label: "26c",
        case: Case::Shaped(Shaped::Write(Encoding {
            setting: Standard,
            value: (7, &[5, 256]),
            bytes: &[7, 2, 5, 251, 0, 1],
        })),
    },
    Row {
        label: "26d",
        case: Case::Shaped(Shaped::Refuse(Refusal {
            value: (300, &[]),
            before: &[1, 2, 3, 4, 5, 6],
            after: &[1, 2, 3, 4, 5, 6],
        })),
    },
    Row {
        label: "26e",
        case: Case::Shaped(Shaped::Fault(Misread {
            by: Outline::NoVariants,
            input: &[],
            answer: Answer::Fault(Fault::EmptyEnum),
        })),
    },
    Row {
        label: "26f",
        case: Case::Shaped(Shaped::Fault(Misread {
            by: Outline::TwoBytes,
            input: &[2],
            answer: Answer::Fault(Fault::UnexpectedVariant {
                found: 2,
                min: 0,
                max: 1,
            }),
        })),
    },
    Row {
        label: "26g",
        case: Case::Shaped(Shaped::Fault(Misread {
            by: Outline::MaybeTruth,
            input: &[1, 2],
            answer: Answer::Fault(Fault::InvalidBooleanValue(2)),
        })),
    },
];
