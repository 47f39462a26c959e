//! Cases of numbers.

use crate::case::{Answer, Case, Decoding, Encoding, Input, Kept, Number, Spelling, Value};
use crate::fault::Fault;
use crate::rows::Row;
use crate::setting::{Big, LegacyBig, Standard};
use bincode::config::Endianness;
use bincode::error::IntegerType;

/// Cases of numbers: their encodings, what is decoded from them, and the errors of a wrong first byte. The first case
/// has five values in turn.
pub(crate) fn number_table() -> &'static [Row] {
    &NUMBERS
}

static NUMBERS: [Row; 22] = [
    Row {
        label: "1",
        case: Case::Keep(Kept::Five(Encoding {
            setting: Standard,
            value: (0, 10, 10_000, 'a', [0, 1, 2, 3]),
            bytes: &[0, 10, 251, 32, 78, 97, 0, 1, 2, 3],
        })),
    },
    Row {
        label: "2",
        case: Case::Encode(Value::U32(Encoding {
            setting: LegacyBig,
            value: 5,
            bytes: &[0, 0, 0, 5],
        })),
    },
    Row {
        label: "3a",
        case: Case::Varint(Number::I16(Spelling {
            endian: Endianness::Little,
            value: -1,
            bytes: &[1],
        })),
    },
    Row {
        label: "3b",
        case: Case::Varint(Number::I16InBoth(
            Spelling {
                endian: Endianness::Little,
                value: 256,
                bytes: &[251, 0, 2],
            },
            Spelling {
                endian: Endianness::Big,
                value: 256,
                bytes: &[251, 2, 0],
            },
        )),
    },
    Row {
        label: "3c",
        case: Case::Varint(Number::I64(Spelling {
            endian: Endianness::Little,
            value: i64::MIN,
            bytes: &[253, 255, 255, 255, 255, 255, 255, 255, 255],
        })),
    },
    Row {
        label: "3d",
        case: Case::Encode(Value::I8(Encoding {
            setting: Standard,
            value: -1,
            bytes: &[255],
        })),
    },
    Row {
        label: "3e",
        case: Case::Varint(Number::I128(Spelling {
            endian: Endianness::Little,
            value: 11_000_000_000_000_000_000,
            bytes: &[254, 0, 0, 152, 98, 112, 179, 79, 49, 1, 0, 0, 0, 0, 0, 0, 0],
        })),
    },
    Row {
        label: "4a",
        case: Case::Decode(Input::U16(Decoding {
            setting: Standard,
            input: &[251, 0, 10],
            answer: Answer::Value(2560, 3),
        })),
    },
    Row {
        label: "4b",
        case: Case::Decode(Input::U16Big(Decoding {
            setting: Big,
            input: &[251, 0, 10],
            answer: Answer::Value(10, 3),
        })),
    },
    Row {
        label: "4c",
        case: Case::Encode(Value::U16(Encoding {
            setting: Standard,
            value: 10,
            bytes: &[10],
        })),
    },
    Row {
        label: "5a",
        case: Case::Varint(Number::U32(Spelling {
            endian: Endianness::Little,
            value: 250,
            bytes: &[250],
        })),
    },
    Row {
        label: "5b",
        case: Case::Varint(Number::U32(Spelling {
            endian: Endianness::Little,
            value: 251,
            bytes: &[251, 251, 0],
        })),
    },
    Row {
        label: "5c",
        case: Case::Varint(Number::U32(Spelling {
            endian: Endianness::Little,
            value: 65535,
            bytes: &[251, 255, 255],
        })),
    },
    Row {
        label: "5d",
        case: Case::Varint(Number::U32(Spelling {
            endian: Endianness::Little,
            value: 65536,
            bytes: &[252, 0, 0, 1, 0],
        })),
    },
    Row {
        label: "5e",
        case: Case::Encode(Value::U8(Encoding {
            setting: Standard,
            value: 251,
            bytes: &[251],
        })),
    },
    Row {
        label: "5f",
        case: Case::Varint(Number::U128(Spelling {
            endian: Endianness::Little,
            value: u128::MAX,
            bytes: &[
                254, 255, 255, 255, 255, 255, 255, 255, 255, 255, 255, 255, 255, 255, 255, 255, 255,
            ],
        })),
    },
    Row {
        label: "6a",
        case: Case::Decode(Input::U16(Decoding {
            setting: Standard,
            input: &[252],
            answer: Answer::Fault(Fault::InvalidIntegerType {
                expected: IntegerType::U16,
                found: IntegerType::U32,
            }),
        })),
    },
    Row {
        label: "6b",
        case: Case::Decode(Input::I16(Decoding {
            setting: Standard,
            input: &[252],
            answer: Answer::Fault(Fault::InvalidIntegerType {
                expected: IntegerType::I16,
                found: IntegerType::I32,
            }),
        })),
    },
    Row {
        label: "6c",
        case: Case::Decode(Input::U64(Decoding {
            setting: Standard,
            input: &[254, 0, 0, 0, 0, 0, 0, 0, 0],
            answer: Answer::Fault(Fault::InvalidIntegerType {
                expected: IntegerType::U64,
                found: IntegerType::U128,
            }),
        })),
    },
    Row {
        label: "6d",
        case: Case::Decode(Input::U64(Decoding {
            setting: Standard,
            input: &[253, 0, 0, 0],
            answer: Answer::Fault(Fault::UnexpectedEnd { additional: 5 }),
        })),
    },
    Row {
        label: "6e",
        case: Case::Decode(Input::U128(Decoding {
            setting: Standard,
            input: &[255, 0, 0, 0, 0, 0, 0, 0, 0, 0, 0, 0, 0, 0, 0, 0, 0],
            answer: Answer::Fault(Fault::InvalidIntegerType {
                expected: IntegerType::U128,
                found: IntegerType::Reserved,
            }),
        })),
    },
    Row {
        label: "6f",
        case: Case::Decode(Input::Isize(Decoding {
            setting: Standard,
            input: &[254],
            answer: Answer::Fault(Fault::InvalidIntegerType {
                expected: IntegerType::Isize,
                found: IntegerType::I128,
            }),
        })),
    },
];
