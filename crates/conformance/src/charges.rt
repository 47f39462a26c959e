//! Cases of the charges of addresses and of elements without bytes.

use crate::addresses::SOCKET;
use crate::case::{Answer, Case, Decoding, LimitedAddress, LimitedList, Value};
use crate::fault::Fault;
use crate::rows::Row;
use crate::setting::Within;
use std::net::{IpAddr, Ipv4Addr};

/// Cases of addresses, and of elements without bytes, under limits.
pub(crate) fn charge_table() -> &'static [Row] {
    &CHARGES
}

static CHARGES: [Row; 9] = [
    Row {
        label: "25a",
        case: Case::DecodeAddressWithin(LimitedAddress::Ipv4To3(Decoding {
            setting: Within::<3>,
            input: &[127, 0, 0, 1],
            answer: Answer::Fault(Fault::LimitExceeded),
        })),
    },
    Row {
        label: "25b",
        case: Case::DecodeAddressWithin(LimitedAddress::Ipv4To4(Decoding {
            setting: Within::<4>,
            input: &[127, 0, 0, 1],
            answer: Answer::Value(Ipv4Addr::LOCALHOST, 4),
        })),
    },
    Row {
        label: "25c",
        case: Case::DecodeAddressWithin(LimitedAddress::Ipv4To3(Decoding {
            setting: Within::<3>,
            input: &[],
            answer: Answer::Fault(Fault::LimitExceeded),
        })),
    },
    Row {
        label: "25d",
        case: Case::DecodeAddressWithin(LimitedAddress::SocketTo17(Decoding {
            setting: Within::<17>,
            input: &SOCKET,
            answer: Answer::Fault(Fault::LimitExceeded),
        })),
    },
    Row {
        label: "25e",
        case: Case::DecodeListWithin(LimitedList::UnitsTo10(Decoding {
            setting: Within::<10>,
            input: &[3],
            answer: Answer::Fault(Fault::LimitExceeded),
        })),
    },
    Row {
        label: "25f",
        case: Case::DecodeListWithin(LimitedList::OptionsTo11(Decoding {
            setting: Within::<11>,
            input: &[2, 0, 1],
            answer: Answer::Fault(Fault::LimitExceeded),
        })),
    },
    Row {
        label: "25g",
        case: Case::DecodeListWithin(LimitedList::OptionsTo12(Decoding {
            setting: Within::<12>,
            input: &[2, 0, 1],
            answer: Answer::Value(&[None, Some(())], 3),
        })),
    },
    Row {
        label: "25h",
        case: Case::DecodeAddressWithin(LimitedAddress::IpTo7(Decoding {
            setting: Within::<7>,
            input: &[0, 127, 0, 0, 1],
            answer: Answer::Fault(Fault::LimitExceeded),
        })),
    },
    Row {
        label: "25i",
        case: Case::DecodeAddressWithin(LimitedAddress::IpTo8(Decoding {
            setting: Within::<8>,
            input: &[0, 127, 0, 0, 1],
            answer: Answer::Value(IpAddr::V4(Ipv4Addr::LOCALHOST), 5),
        })),
    },
];
