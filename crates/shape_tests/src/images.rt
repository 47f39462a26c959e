//! The shape of each type that has one, and the image of a value: what its encoding is decoded as by the shape. And
//! long lists by their shape.

use crate::asserts::all_true;
use crate::shaped::{has_shape, is_printed};
use bincode::config::{self, Config};
use bincode::enc::Encode;
use bincode::enc::write::SliceWriter;
use bincode::encode_into_slice;
use bincode::shape::{Described, Shape, Value, decode_shaped, encode_shaped};
use shape_text::text::shape_of;
use std::alloc::{AllocError, Global};
use test_helpers::checks::either;

/// Whether the value is encoded as the word.
fn is_word_of<T: Encode, C: Config>(value: &T, word: &[u8], config: C) -> bool {
    let mut slice = [0u8; 64];
    let written = encode_into_slice(value, &mut slice, config);
    matches!(written, Ok(count) if count == word.len()) && slice.starts_with(word)
}

/// Whether the image is encoded as the word.
fn writes<C: Config>(shape: &Shape, image: &Value, word: &[u8], config: C) -> bool {
    let mut slice = [0u8; 64];
    let mut writer = SliceWriter::new(&mut slice);
    let written = encode_shaped(shape, image, &mut writer, config);
    let count = writer.bytes_written();
    drop(writer);
    written.is_ok() && count == word.len() && slice.starts_with(word)
}

/// Whether the word is decoded as an image that is printed so, and the image is encoded as the word.
fn has_word<C: Config>(
    alloc: Global,
    shape: Option<Shape>,
    word: &[u8],
    wanted: &str,
    config: C,
) -> bool {
    let Some(shape) = shape else {
        return false;
    };
    match decode_shaped(alloc, &shape, word, config) {
        Ok((image, taken)) => {
            taken == word.len()
                && is_printed(alloc, &image, wanted)
                && writes(&shape, &image, word, config)
        }
        Err(_) => false,
    }
}

/// Whether the type has this shape, and the value this word and this image. Retries each call that allocates once,
/// since an allocation may be refused.
fn has_image<T: Described + Encode, C: Config>(
    alloc: Global,
    value: &T,
    config: C,
    word: &[u8],
    (shape, image): (&str, &str),
) -> bool {
    has_shape::<T>(alloc, shape)
        && is_word_of(value, word, config)
        && (has_word(alloc, T::shape(alloc), word, image, config)
            || has_word(alloc, T::shape(alloc), word, image, config))
}

/// `has_image` in the legacy configuration, where a number has the width of its type.
fn fixed<T: Described + Encode>(
    alloc: Global,
    value: &T,
    word: &[u8],
    shape: &str,
    image: &str,
) -> bool {
    has_image(alloc, value, config::legacy(), word, (shape, image))
}

/// `has_image` in the standard configuration.
fn standard<T: Described + Encode>(
    alloc: Global,
    value: &T,
    word: &[u8],
    shape: &str,
    image: &str,
) -> bool {
    has_image(alloc, value, config::standard(), word, (shape, image))
}

/// The row `a value as each type's image`, of scalars.
#[test]
fn scalars_have_images(rt: HostRuntime) {
    let alloc = rt.alloc();
    let Some(text) = either(String::from_str(alloc, "ab"), String::from_str(alloc, "ab")) else {
        assert!(rt; false);
        return;
    };
    let text_word = [2, 0, 0, 0, 0, 0, 0, 0, 97, 98];
    let far = [0, 0, 0, 0, 0, 0, 0, 0, 1, 0, 0, 0, 0, 0, 0, 0];
    let five = [5, 0, 0, 0, 0, 0, 0, 0, 0, 0, 0, 0, 0, 0, 0, 0];
    let minus_3 = [253, 255, 255, 255, 255, 255, 255, 255];
    all_true(
        &rt,
        &[
            fixed(alloc, &(), &[], "Unit", "Unit"),
            fixed(alloc, &true, &[1], "Bool", "Bool(true)"),
            fixed(alloc, &'é', &[195, 169], "Char", "Char('é')"),
            fixed(alloc, &text, &text_word, "Text", "Text(\"ab\")"),
            fixed(alloc, &200u8, &[200], "U8", "Unsigned(200)"),
            fixed(alloc, &300u16, &[44, 1], "U16", "Unsigned(300)"),
            fixed(
                alloc,
                &70_000u32,
                &[112, 17, 1, 0],
                "U32",
                "Unsigned(70000)",
            ),
            fixed(
                alloc,
                &7u64,
                &[7, 0, 0, 0, 0, 0, 0, 0],
                "U64",
                "Unsigned(7)",
            ),
            fixed(
                alloc,
                &(1u128 << 64),
                &far,
                "U128",
                "Unsigned(18446744073709551616)",
            ),
            fixed(
                alloc,
                &250usize,
                &[250, 0, 0, 0, 0, 0, 0, 0],
                "Usize",
                "Unsigned(250)",
            ),
            fixed(alloc, &-1i8, &[255], "I8", "Signed(-1)"),
            fixed(alloc, &-2i16, &[254, 255], "I16", "Signed(-2)"),
            fixed(alloc, &1i32, &[1, 0, 0, 0], "I32", "Signed(1)"),
            fixed(alloc, &-3i64, &minus_3, "I64", "Signed(-3)"),
            fixed(alloc, &5i128, &five, "I128", "Signed(5)"),
            fixed(alloc, &-1isize, &[255; 8], "Isize", "Signed(-1)"),
        ],
    );
}

/// The numbers from 0.
const COUNT: [u8; 15] = [0, 1, 2, 3, 4, 5, 6, 7, 8, 9, 10, 11, 12, 13, 14];

/// Whether an image lists the numbers from 0.
fn are_counted(image: &Value, count: usize) -> bool {
    match image {
        Value::List(items) => {
            items.len() == count
                && items.iter().zip(COUNT.iter()).all(|(
                    item,
                    number,
                )| matches!(item, Value::Unsigned(held) if *held == u128::from(*number)))
        }
        _ => false,
    }
}

/// Whether the tuple of the numbers from 0 is encoded as these bytes, and they are decoded by its shape as a list of
/// so many numbers, which is encoded as them.
fn counts<T: Described + Encode>(alloc: Global, value: &T, count: usize) -> bool {
    let (Some(word), Some(shape)) = (COUNT.get(..count), T::shape(alloc)) else {
        return false;
    };
    match decode_shaped(alloc, &shape, word, config::standard()) {
        Ok((image, taken)) => {
            taken == count
                && are_counted(&image, count)
                && is_word_of(value, word, config::standard())
                && writes(&shape, &image, word, config::standard())
        }
        Err(_) => false,
    }
}

/// The same. Retries once, since an allocation may be refused.
fn has_counted_image<T: Described + Encode>(alloc: Global, value: &T, count: usize) -> bool {
    counts(alloc, value, count) || counts(alloc, value, count)
}

/// The row `a value as each type's image`, of the tuples of three to fifteen parts. Those of one, two and sixteen are
/// in a row below.
#[test]
fn tuples_have_images(rt: HostRuntime) {
    let alloc = rt.alloc();
    all_true(
        &rt,
        &[
            has_counted_image(alloc, &(0u8, 1u8, 2u8), 3),
            has_counted_image(alloc, &(0u8, 1u8, 2u8, 3u8), 4),
            has_counted_image(alloc, &(0u8, 1u8, 2u8, 3u8, 4u8), 5),
            has_counted_image(alloc, &(0u8, 1u8, 2u8, 3u8, 4u8, 5u8), 6),
            has_counted_image(alloc, &(0u8, 1u8, 2u8, 3u8, 4u8, 5u8, 6u8), 7),
            has_counted_image(alloc, &(0u8, 1u8, 2u8, 3u8, 4u8, 5u8, 6u8, 7u8), 8),
            has_counted_image(alloc, &(0u8, 1u8, 2u8, 3u8, 4u8, 5u8, 6u8, 7u8, 8u8), 9),
            has_counted_image(
                alloc,
                &(0u8, 1u8, 2u8, 3u8, 4u8, 5u8, 6u8, 7u8, 8u8, 9u8),
                10,
            ),
            has_counted_image(
                alloc,
                &(0u8, 1u8, 2u8, 3u8, 4u8, 5u8, 6u8, 7u8, 8u8, 9u8, 10u8),
                11,
            ),
            has_counted_image(
                alloc,
                &(0u8, 1u8, 2u8, 3u8, 4u8, 5u8, 6u8, 7u8, 8u8, 9u8, 10u8, 11u8),
                12,
            ),
            has_counted_image(
                alloc,
                &(
                    0u8, 1u8, 2u8, 3u8, 4u8, 5u8, 6u8, 7u8, 8u8, 9u8, 10u8, 11u8, 12u8,
                ),
                13,
            ),
            has_counted_image(
                alloc,
                &(
                    0u8, 1u8, 2u8, 3u8, 4u8, 5u8, 6u8, 7u8, 8u8, 9u8, 10u8, 11u8, 12u8, 13u8,
                ),
                14,
            ),
            has_counted_image(
                alloc,
                &(
                    0u8, 1u8, 2u8, 3u8, 4u8, 5u8, 6u8, 7u8, 8u8, 9u8, 10u8, 11u8, 12u8, 13u8, 14u8,
                ),
                15,
            ),
        ],
    );
}

/// A tuple of sixteen.
const SIXTEEN: (
    u8,
    u8,
    u8,
    u8,
    u8,
    u8,
    u8,
    u8,
    u8,
    u8,
    u8,
    u8,
    u8,
    u8,
    u8,
    bool,
) = (0, 1, 2, 3, 4, 5, 6, 7, 8, 9, 10, 11, 12, 13, 14, true);

/// Its shape, and its image.
const SIXTEEN_PARTS: (&str, &str) = (
    "Tuple([U8, U8, U8, U8, U8, U8, U8, U8, U8, U8, U8, U8, U8, U8, U8, Bool])",
    "List([Unsigned(0), Unsigned(1), Unsigned(2), Unsigned(3), Unsigned(4), Unsigned(5), \
    Unsigned(6), Unsigned(7), Unsigned(8), Unsigned(9), Unsigned(10), Unsigned(11), \
    Unsigned(12), Unsigned(13), Unsigned(14), Bool(true)])",
);

/// The row `a value as each type's image`, of what holds scalars.
#[test]
fn wholes_have_images(rt: HostRuntime) {
    let alloc = rt.alloc();
    let (Some(list), Some(held)) = (
        either([5u16, 256].to_vec(alloc), [5u16, 256].to_vec(alloc)),
        either(Box::new(alloc, 9u8), Box::new(alloc, 9u8)),
    ) else {
        assert!(rt; false);
        return;
    };
    let none: Option<u8> = None;
    let truth: Result<bool, u8> = Ok(true);
    let number: Result<bool, u8> = Err(1);
    let sixteen = [0, 1, 2, 3, 4, 5, 6, 7, 8, 9, 10, 11, 12, 13, 14, 1];
    let two = "List([Unsigned(5), Unsigned(256)])";
    let numbers = "Seq { claim: 2, element: U16 }";
    let array = "Array { len: 2, claim: 2, element: U16 }";
    let choice = "Choice([Bool, U8])";
    all_true(
        &rt,
        &[
            standard(alloc, &list, &[2, 5, 251, 0, 1], numbers, two),
            standard(alloc, &[5u16, 256], &[5, 251, 0, 1], array, two),
            standard(alloc, &(9u8,), &[9], "Tuple([U8])", "List([Unsigned(9)])"),
            standard(
                alloc,
                &(5u32, 256u32),
                &[5, 251, 0, 1],
                "Tuple([U32, U32])",
                two,
            ),
            standard(alloc, &SIXTEEN, &sixteen, SIXTEEN_PARTS.0, SIXTEEN_PARTS.1),
            standard(alloc, &none, &[0], "Optional(U8)", "Optional(None)"),
            standard(
                alloc,
                &Some(9u8),
                &[1, 9],
                "Optional(U8)",
                "Optional(Some(Unsigned(9)))",
            ),
            standard(alloc, &truth, &[0, 1], choice, "Choice(0, Bool(true))"),
            standard(alloc, &number, &[1, 1], choice, "Choice(1, Unsigned(1))"),
            standard(alloc, &held, &[9], "U8", "Unsigned(9)"),
        ],
    );
}

/// The word of a list of 10,000 bytes.
fn long_word(alloc: Global) -> Result<Vec<u8>, AllocError> {
    let mut word = [251, 16, 39].to_vec(alloc)?;
    for _ in 0..10_000 {
        word.push(7)?;
    }
    Ok(word)
}

/// How many elements a list of bytes has that is read by its shape.
fn listed(alloc: Global, word: &[u8]) -> Option<usize> {
    let shape = shape_of(alloc, "[u8]").ok()?;
    match decode_shaped(alloc, &shape, word, config::standard()) {
        Ok((Value::List(items), _)) => Some(items.len()),
        _ => None,
    }
}

/// Retries once, since an allocation may be refused.
#[test]
fn long_lists_are_read(rt: HostRuntime) {
    let alloc = rt.alloc();
    let Some(word) = either(long_word(alloc), long_word(alloc)) else {
        assert!(rt; false);
        return;
    };
    assert!(rt; listed(alloc, &word) == Some(10_000) || listed(alloc, &word) == Some(10_000));
}
