//! Cases of addresses, of choices, and of what has no bytes.

use crate::addresses::{SOCKET, Socket};
use crate::case::{
    Answer, Case, Decoding, Encoding, Input, Kept, LimitedAddress, LimitedList, StdInput, StdValue,
    Value,
};
use crate::fault::Fault;
use crate::rows::Row;
use crate::setting::{Legacy, Standard, Within};
use bincode::error::IntegerType;
use std::net::{IpAddr, Ipv4Addr, Ipv6Addr};
use std::ops::Bound;

/// Cases of addresses, of options and other choices, of values and lists without bytes, and of bytes that are asked for
/// one by one.
pub(crate) fn choice_table() -> &'static [Row] {
    &CHOICES
}

static CHOICES: [Row; 19] = [
    Row {
        label: "17a",
        case: Case::EncodeStd(StdValue::Socket(Encoding {
            setting: Standard,
            value: Socket {
                ip: Ipv6Addr::LOCALHOST,
                port: 12345,
                flow: 7,
                scope: 9,
            },
            bytes: &SOCKET,
        })),
    },
    Row {
        label: "17b",
        case: Case::DecodeAddressWithin(LimitedAddress::SocketTo18(Decoding {
            setting: Within::<18>,
            input: &SOCKET,
            answer: Answer::Value(
                Socket {
                    ip: Ipv6Addr::LOCALHOST,
                    port: 12345,
                    flow: 0,
                    scope: 0,
                },
                19,
            ),
        })),
    },
    Row {
        label: "17c",
        case: Case::DecodeListWithin(LimitedList::UnitsTo11(Decoding {
            setting: Within::<11>,
            input: &[3],
            answer: Answer::Value(3, 1),
        })),
    },
    Row {
        label: "17d",
        case: Case::DecodeListWithin(LimitedList::UnitsTo7(Decoding {
            setting: Within::<7>,
            input: &[3],
            answer: Answer::Fault(Fault::LimitExceeded),
        })),
    },
    Row {
        label: "19a",
        case: Case::Encode(Value::Option(Encoding {
            setting: Legacy,
            value: Some(5),
            bytes: &[1, 5, 0, 0, 0],
        })),
    },
    Row {
        label: "19b",
        case: Case::Encode(Value::Result(Encoding {
            setting: Legacy,
            value: Ok(5),
            bytes: &[0, 0, 0, 0, 5],
        })),
    },
    Row {
        label: "19c",
        case: Case::Decode(Input::Option(Decoding {
            setting: Legacy,
            input: &[2],
            answer: Answer::Fault(Fault::UnexpectedVariant {
                found: 2,
                min: 0,
                max: 1,
            }),
        })),
    },
    Row {
        label: "19d",
        case: Case::Decode(Input::Bool(Decoding {
            setting: Legacy,
            input: &[2],
            answer: Answer::Fault(Fault::InvalidBooleanValue(2)),
        })),
    },
    Row {
        label: "19e",
        case: Case::DecodeStd(StdInput::NonZeroU16(Decoding {
            setting: Standard,
            input: &[0],
            answer: Answer::Fault(Fault::NonZeroTypeIsZero {
                non_zero_type: IntegerType::U16,
            }),
        })),
    },
    Row {
        label: "20a",
        case: Case::DecodeBytewise(Decoding {
            setting: Standard,
            input: &[5, 10],
            answer: Answer::Value((5, 10), 2),
        }),
    },
    Row {
        label: "20b",
        case: Case::DecodeBytewise(Decoding {
            setting: Standard,
            input: &[5],
            answer: Answer::Fault(Fault::UnexpectedEnd { additional: 1 }),
        }),
    },
    Row {
        label: "21a",
        case: Case::Keep(Kept::Unit(Encoding {
            setting: Standard,
            value: (),
            bytes: &[],
        })),
    },
    Row {
        label: "21b",
        case: Case::EncodeStd(StdValue::List(Encoding {
            setting: Standard,
            value: &[],
            bytes: &[0],
        })),
    },
    Row {
        label: "21c",
        case: Case::EncodeStd(StdValue::ListLegacy(Encoding {
            setting: Legacy,
            value: &[],
            bytes: &[0, 0, 0, 0, 0, 0, 0, 0],
        })),
    },
    Row {
        label: "22a",
        case: Case::EncodeStd(StdValue::Ip(Encoding {
            setting: Standard,
            value: IpAddr::V4(Ipv4Addr::LOCALHOST),
            bytes: &[0, 127, 0, 0, 1],
        })),
    },
    Row {
        label: "22b",
        case: Case::EncodeStd(StdValue::IpLegacy(Encoding {
            setting: Legacy,
            value: IpAddr::V4(Ipv4Addr::LOCALHOST),
            bytes: &[0, 0, 0, 0, 127, 0, 0, 1],
        })),
    },
    Row {
        label: "22c",
        case: Case::DecodeStd(StdInput::Ip(Decoding {
            setting: Standard,
            input: &[2],
            answer: Answer::Fault(Fault::UnexpectedVariant {
                found: 2,
                min: 0,
                max: 1,
            }),
        })),
    },
    Row {
        label: "23a",
        case: Case::EncodeStd(StdValue::Bound(Encoding {
            setting: Standard,
            value: Bound::Excluded(7),
            bytes: &[2, 7],
        })),
    },
    Row {
        label: "23b",
        case: Case::DecodeStd(StdInput::Bound(Decoding {
            setting: Standard,
            input: &[3],
            answer: Answer::Fault(Fault::UnexpectedVariant {
                found: 3,
                min: 0,
                max: 2,
            }),
        })),
    },
];
