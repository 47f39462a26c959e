//! Encodings of shapes, as samples. Nothing is promised of them: what is told of a sample is tested by decoding it.
use bincode::config::{Config, Endianness, IntEncoding};
use bincode::encode_into_slice;
use bincode::shape::Shape;
use bincode_evolution::evolution::has_words;
use std::alloc::AllocError;

/// The numbers that are tried: around the ends of the widths, and of the spellings of variable length.
const NUMBERS: [u128; 13] = [
    1,
    255,
    0,
    250,
    251,
    256,
    65_535,
    65_536,
    4_294_967_295,
    4_294_967_296,
    18_446_744_073_709_551_615,
    18_446_744_073_709_551_616,
    340_282_366_920_938_463_463_374_607_431_768_211_455,
];

/// How many samples of a shape differ.
pub(crate) const TRIALS: usize = 13;

/// Of arrays no samples are made that are longer, in bytes.
const LONGEST: usize = 65_536;

/// Nor are samples made of arrays, or values of words, that have more parts of parts.
pub(crate) const MOST_VALUES: usize = 262_144;

/// Appends the encoding of a number that is cut to this width in bytes.
pub(crate) fn put_number<C: Config>(
    bytes: &mut Vec<u8>,
    number: u128,
    width: usize,
    config: C,
) -> Result<(), AllocError> {
    let mut word = [0u8; 17];
    let written = match width {
        1 => encode_into_slice((number % 256) as u8, &mut word, config),
        2 => encode_into_slice((number % 65_536) as u16, &mut word, config),
        4 => encode_into_slice((number % 4_294_967_296) as u32, &mut word, config),
        8 => encode_into_slice(
            (number % 18_446_744_073_709_551_616) as u64,
            &mut word,
            config,
        ),
        _ => encode_into_slice(number, &mut word, config),
    };
    // No number has more than 17 bytes, so each is written.
    for byte in word.iter().take(written.unwrap_or(0)) {
        bytes.push(*byte)?;
    }
    Ok(())
}

/// Appends a tag, in variable length maybe in more bytes than are needed.
pub(crate) fn put_tag<C: Config>(
    bytes: &mut Vec<u8>,
    tag: usize,
    is_long: bool,
    config: C,
) -> Result<(), AllocError> {
    if !is_long || matches!(config.int_encoding(), IntEncoding::Fixed) {
        return put_number(bytes, tag as u128, 4, config);
    }
    bytes.push(252)?;
    let tag = (tag % 4_294_967_296) as u32;
    let digits = match config.endianness() {
        Endianness::Little => tag.to_le_bytes(),
        Endianness::Big => tag.to_be_bytes(),
    };
    for digit in &digits {
        bytes.push(*digit)?;
    }
    Ok(())
}

/// Appends the sample number of this trial, cut to the width.
fn put_sample_number<C: Config>(
    bytes: &mut Vec<u8>,
    trial: usize,
    width: usize,
    config: C,
) -> Result<(), AllocError> {
    put_number(bytes, NUMBERS[trial % NUMBERS.len()], width, config)
}

/// Appends a sample of the shape: of the numbers, the lengths and the variants the one of this trial.
#[cycle(sample)]
pub(crate) fn put_sample<C: Config>(
    bytes: &mut Vec<u8>,
    shape: &Shape,
    trial: usize,
    config: C,
) -> Result<(), AllocError> {
    match shape {
        Shape::Unit => Ok(()),
        Shape::Bool => {
            bytes.push((trial % 2) as u8)?;
            Ok(())
        }
        Shape::Char => {
            bytes.push(b'a')?;
            Ok(())
        }
        Shape::Text => put_text(bytes, trial % 2, config),
        Shape::U8 | Shape::I8 => put_sample_number(bytes, trial, 1, config),
        Shape::U16 | Shape::I16 => put_sample_number(bytes, trial, 2, config),
        Shape::U32 | Shape::I32 => put_sample_number(bytes, trial, 4, config),
        Shape::U64 | Shape::I64 | Shape::Usize | Shape::Isize => {
            put_sample_number(bytes, trial, 8, config)
        }
        Shape::U128 | Shape::I128 => put_sample_number(bytes, trial, 16, config),
        Shape::Seq { claim: _, element } => {
            let wanted = trial % 4;
            let len = if wanted > 0 && has_words(element) {
                wanted
            } else {
                0
            };
            put_number(bytes, len as u128, 8, config)?;
            put_repeated(bytes, element, len, config)
        }
        Shape::Array {
            len,
            claim: _,
            element,
        } => put_repeated(bytes, element, *len, config),
        Shape::Tuple(parts) => put_each(bytes, parts, config),
        Shape::Optional(part) => {
            if trial % 2 == 0 && has_words(part) {
                bytes.push(1)?;
                put_sample(bytes, part, 0, config)
            } else {
                bytes.push(0)?;
                Ok(())
            }
        }
        Shape::Choice(parts) => put_variant(bytes, parts, trial, config),
    }
}

/// Appends a text of so many bytes.
fn put_text<C: Config>(bytes: &mut Vec<u8>, len: usize, config: C) -> Result<(), AllocError> {
    put_number(bytes, len as u128, 8, config)?;
    for _ in 0..len {
        bytes.push(b'a')?;
    }
    Ok(())
}

/// How many parts of parts a sample of the shape has at most. Samples in samples have lists without elements.
#[cycle(weights)]
pub(crate) fn weight_of(shape: &Shape) -> usize {
    match shape {
        Shape::Array {
            len,
            claim: _,
            element,
        } => weight_of(element).saturating_mul(*len).saturating_add(1),
        Shape::Tuple(parts) => weight_of_all(parts),
        Shape::Optional(part) => weight_of(part).saturating_add(1),
        Shape::Choice(parts) => weight_of_all(parts),
        _ => 1,
    }
}

/// The sum over these shapes, and one.
#[cycle(weights)]
fn weight_of_all(shapes: &[Shape]) -> usize {
    let mut sum = 1usize;
    for shape in shapes {
        sum = sum.saturating_add(weight_of(shape));
    }
    sum
}

/// Appends so many equal samples of the element, or one if it has no bytes. Fewer are no word, and so show nothing.
#[cycle(sample)]
pub(crate) fn put_repeated<C: Config>(
    bytes: &mut Vec<u8>,
    element: &Shape,
    len: usize,
    config: C,
) -> Result<(), AllocError> {
    let most = MOST_VALUES / weight_of(element).max(1);
    for _ in 0..len.min(most) {
        let before = bytes.len();
        put_sample(bytes, element, 0, config)?;
        if bytes.len() == before || bytes.len() > LONGEST {
            break;
        }
    }
    Ok(())
}

/// Appends a sample of each part.
#[cycle(sample)]
pub(crate) fn put_each<C: Config>(
    bytes: &mut Vec<u8>,
    parts: &[Shape],
    config: C,
) -> Result<(), AllocError> {
    for part in parts {
        put_sample(bytes, part, 0, config)?;
    }
    Ok(())
}

/// Appends a variant that has words: the first, and in every other trial by a long tag, or the one of the trial.
#[cycle(sample)]
fn put_variant<C: Config>(
    bytes: &mut Vec<u8>,
    parts: &[Shape],
    trial: usize,
    config: C,
) -> Result<(), AllocError> {
    for tag in 0..parts.len() {
        if has_words(&parts[tag]) && tag >= trial / 2 {
            put_tag(bytes, tag, trial % 2 == 1, config)?;
            return put_sample(bytes, &parts[tag], 0, config);
        }
    }
    Ok(())
}
