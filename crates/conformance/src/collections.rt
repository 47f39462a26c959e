//! Cases of maps, texts, durations and pairs.

use crate::case::{
    Answer, Borrowed, Case, Decoding, Encoding, Lending, Refusal, StdInput, StdValue, Value,
};
use crate::fault::Fault;
use crate::rows::Row;
use crate::setting::Standard;

/// Cases of maps, of owned and borrowed texts, of durations and of pairs.
pub(crate) fn collection_table() -> &'static [Row] {
    &COLLECTIONS
}

static COLLECTIONS: [Row; 12] = [
    Row {
        label: "12a",
        case: Case::DecodeStd(StdInput::Map(Decoding {
            setting: Standard,
            input: &[3, 1, 10, 2, 20, 1, 30],
            answer: Answer::Value(&[(1, 30), (2, 20)], 7),
        })),
    },
    Row {
        label: "12b",
        case: Case::EncodeStd(StdValue::Map(Encoding {
            setting: Standard,
            value: &[(1, 30), (2, 20)],
            bytes: &[2, 1, 30, 2, 20],
        })),
    },
    Row {
        label: "13a",
        case: Case::DecodeStd(StdInput::Text(Decoding {
            setting: Standard,
            input: &[2, 195, 40],
            answer: Answer::Fault(Fault::Utf8),
        })),
    },
    Row {
        label: "13b",
        case: Case::DecodeStd(StdInput::Text(Decoding {
            setting: Standard,
            input: &[2, 195],
            answer: Answer::Fault(Fault::EndsEarly),
        })),
    },
    Row {
        label: "13c",
        case: Case::DecodeStd(StdInput::CString(Decoding {
            setting: Standard,
            input: &[3, 65, 0, 66],
            answer: Answer::Fault(Fault::CStringNulError { position: 1 }),
        })),
    },
    Row {
        label: "14a",
        case: Case::DecodeStd(StdInput::Duration(Decoding {
            setting: Standard,
            input: &[252, 255, 255, 255, 255, 252, 44, 203, 154, 59],
            answer: Answer::Value((4_294_967_296, 300), 10),
        })),
    },
    Row {
        label: "14b",
        case: Case::EncodeStd(StdValue::Duration(Encoding {
            setting: Standard,
            value: (4_294_967_296, 300),
            bytes: &[253, 0, 0, 0, 0, 1, 0, 0, 0, 251, 44, 1],
        })),
    },
    Row {
        label: "14c",
        case: Case::DecodeStd(StdInput::Duration(Decoding {
            setting: Standard,
            input: &[
                253, 255, 255, 255, 255, 255, 255, 255, 255, 252, 0, 202, 154, 59,
            ],
            answer: Answer::Fault(Fault::InvalidDuration {
                secs: 18_446_744_073_709_551_615,
                nanos: 1_000_000_000,
            }),
        })),
    },
    Row {
        label: "15a",
        case: Case::Borrow(Borrowed::List(Lending {
            input: &[3, 3, 97, 98, 99, 3, 100, 101, 102, 3, 103, 104, 105],
            texts: &["abc", "def", "ghi"],
            length: 13,
        })),
    },
    Row {
        label: "15b",
        case: Case::Borrow(Borrowed::Three(Lending {
            input: &[3, 97, 98, 99, 3, 100, 101, 102, 3, 103, 104, 105],
            texts: &["abc", "def", "ghi"],
            length: 12,
        })),
    },
    Row {
        label: "16a",
        case: Case::Encode(Value::Pair(Encoding {
            setting: Standard,
            value: (1, 300),
            bytes: &[1, 251, 44, 1],
        })),
    },
    Row {
        label: "16b",
        case: Case::RefusePair(Refusal {
            value: (1, 300),
            before: &[9, 9, 9],
            after: &[1, 251, 9],
        }),
    },
];
