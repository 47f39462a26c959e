//! Cases with bytes after an encoding, which the program leaves out.

use crate::case::{Answer, Case, Decoding, Input, StdInput, Value};
use crate::rows::Row;
use crate::setting::{Legacy, Standard};
use std::ops::Bound;

/// Cases that the program leaves out: signed numbers of one byte, and encodings of each kind with bytes after them.
pub fn trailing_cases() -> &'static [Row] {
    &MORE
}

static MORE: [Row; 15] = [
    Row {
        label: "i16 of 1",
        case: Case::Decode(Input::I16(Decoding {
            setting: Standard,
            input: &[1],
            answer: Answer::Value(-1, 1),
        })),
    },
    Row {
        label: "i16 of 3",
        case: Case::Decode(Input::I16(Decoding {
            setting: Standard,
            input: &[3],
            answer: Answer::Value(-2, 1),
        })),
    },
    Row {
        label: "u16 and more",
        case: Case::Decode(Input::U16(Decoding {
            setting: Standard,
            input: &[251, 0, 10, 99, 99],
            answer: Answer::Value(2560, 3),
        })),
    },
    Row {
        label: "u64 and more",
        case: Case::Decode(Input::U64(Decoding {
            setting: Standard,
            input: &[253, 0, 0, 0, 0, 0, 0, 0, 10, 99],
            answer: Answer::Value(720_575_940_379_279_360, 9),
        })),
    },
    Row {
        label: "u128 and more",
        case: Case::Decode(Input::U128(Decoding {
            setting: Standard,
            input: &[7, 99],
            answer: Answer::Value(7, 1),
        })),
    },
    Row {
        label: "i16 and more",
        case: Case::Decode(Input::I16(Decoding {
            setting: Standard,
            input: &[3, 99],
            answer: Answer::Value(-2, 1),
        })),
    },
    Row {
        label: "isize and more",
        case: Case::Decode(Input::Isize(Decoding {
            setting: Standard,
            input: &[1, 99],
            answer: Answer::Value(-1, 1),
        })),
    },
    Row {
        label: "nonzero and more",
        case: Case::DecodeStd(StdInput::NonZeroU16(Decoding {
            setting: Standard,
            input: &[5, 99],
            answer: Answer::Value(5, 1),
        })),
    },
    Row {
        label: "bool and more",
        case: Case::Decode(Input::Bool(Decoding {
            setting: Legacy,
            input: &[1, 99],
            answer: Answer::Value(true, 1),
        })),
    },
    Row {
        label: "char and more",
        case: Case::Decode(Input::Char(Decoding {
            setting: Standard,
            input: &[226, 130, 172, 99],
            answer: Answer::Value('€', 3),
        })),
    },
    Row {
        label: "option and more",
        case: Case::Decode(Input::Option(Decoding {
            setting: Legacy,
            input: &[1, 7, 99],
            answer: Answer::Value(Some(7), 2),
        })),
    },
    Row {
        label: "bound and more",
        case: Case::DecodeStd(StdInput::Bound(Decoding {
            setting: Standard,
            input: &[2, 7, 99],
            answer: Answer::Value(Bound::Excluded(7), 2),
        })),
    },
    Row {
        label: "span and more",
        case: Case::DecodeStd(StdInput::Duration(Decoding {
            setting: Standard,
            input: &[1, 2, 99],
            answer: Answer::Value((1, 2), 2),
        })),
    },
    Row {
        label: "text and more",
        case: Case::DecodeStd(StdInput::Text(Decoding {
            setting: Standard,
            input: &[2, 97, 98, 99],
            answer: Answer::Value("ab", 3),
        })),
    },
    Row {
        label: "map and more",
        case: Case::DecodeStd(StdInput::Map(Decoding {
            setting: Standard,
            input: &[1, 5, 6, 99],
            answer: Answer::Value(&[(5, 6)], 3),
        })),
    },
];
