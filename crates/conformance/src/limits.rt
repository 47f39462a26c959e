//! Cases of characters, and of what a limit allows.

use crate::case::{Answer, Case, Decoding, Encoding, Input, Limited, LimitedList, Value};
use crate::fault::Fault;
use crate::rows::Row;
use crate::setting::{Standard, Within};

/// Cases of characters, of limits that just suffice, and of some that are one too small.
pub(crate) fn limit_table() -> &'static [Row] {
    &LIMITS
}

static LIMITS: [Row; 15] = [
    Row {
        label: "7a",
        case: Case::DecodeWithin(Limited::CharTo0(Decoding {
            setting: Within::<0>,
            input: &[],
            answer: Answer::Fault(Fault::UnexpectedEnd { additional: 1 }),
        })),
    },
    Row {
        label: "7b",
        case: Case::DecodeWithin(Limited::CharTo0(Decoding {
            setting: Within::<0>,
            input: &[65],
            answer: Answer::Fault(Fault::LimitExceeded),
        })),
    },
    Row {
        label: "7c",
        case: Case::Decode(Input::Char(Decoding {
            setting: Standard,
            input: &[128],
            answer: Answer::Fault(Fault::InvalidCharEncoding([128, 0, 0, 0])),
        })),
    },
    Row {
        label: "7d",
        case: Case::Decode(Input::Char(Decoding {
            setting: Standard,
            input: &[237, 160, 128],
            answer: Answer::Fault(Fault::InvalidCharEncoding([237, 160, 128, 0])),
        })),
    },
    Row {
        label: "7e",
        case: Case::Decode(Input::Char(Decoding {
            setting: Standard,
            input: &[226, 130],
            answer: Answer::Fault(Fault::UnexpectedEnd { additional: 1 }),
        })),
    },
    Row {
        label: "7f",
        case: Case::Encode(Value::Char(Encoding {
            setting: Standard,
            value: '€',
            bytes: &[226, 130, 172],
        })),
    },
    Row {
        label: "7g",
        case: Case::DecodeWithin(Limited::U64To7(Decoding {
            setting: Within::<7>,
            input: &[],
            answer: Answer::Fault(Fault::LimitExceeded),
        })),
    },
    Row {
        label: "7h",
        case: Case::DecodeWithin(Limited::U64To8(Decoding {
            setting: Within::<8>,
            input: &[],
            answer: Answer::Fault(Fault::UnexpectedEnd { additional: 1 }),
        })),
    },
    Row {
        label: "8a",
        case: Case::DecodeListWithin(LimitedList::NumbersTo100000(Decoding {
            setting: Within::<100_000>,
            input: &[253, 255, 255, 255, 255, 255, 255, 255, 255],
            answer: Answer::Fault(Fault::LimitExceeded),
        })),
    },
    Row {
        label: "8b",
        case: Case::DecodeListWithin(LimitedList::TextTo100000(Decoding {
            setting: Within::<100_000>,
            input: &[252, 160, 134, 1, 0],
            answer: Answer::Fault(Fault::LimitExceeded),
        })),
    },
    Row {
        label: "9a",
        case: Case::DecodeListWithin(LimitedList::ListsTo31(Decoding {
            setting: Within::<31>,
            input: &[1, 2, 7, 8],
            answer: Answer::Fault(Fault::LimitExceeded),
        })),
    },
    Row {
        label: "9b",
        case: Case::DecodeListWithin(LimitedList::ListsTo32(Decoding {
            setting: Within::<32>,
            input: &[1, 2, 7, 8],
            answer: Answer::Value(&[&[7, 8]], 4),
        })),
    },
    Row {
        label: "10a",
        case: Case::DecodeWithin(Limited::PairTo15(Decoding {
            setting: Within::<15>,
            input: &[5, 6],
            answer: Answer::Fault(Fault::LimitExceeded),
        })),
    },
    Row {
        label: "10b",
        case: Case::DecodeWithin(Limited::PairTo16(Decoding {
            setting: Within::<16>,
            input: &[5, 6],
            answer: Answer::Value((5, 6), 2),
        })),
    },
    Row {
        label: "11",
        case: Case::DecodeWithin(Limited::U16To2(Decoding {
            setting: Within::<2>,
            input: &[251, 0, 1],
            answer: Answer::Value(256, 3),
        })),
    },
];
