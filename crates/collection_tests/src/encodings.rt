//! Encodings of the test vectors, and what is expected where the first byte of a number, a length or a tag is another.

use self::Outcome::{Ends, NoVariant, Passed, Read, Wide};
use bincode::error::IntegerType;
use bincode::error::IntegerType::{I16, I64, I128, Reserved, U16, U32, U64, U128};

/// The type that an encoding is decoded as, and where it is not the standard one its configuration.
#[derive(Clone, Copy)]
pub enum Kind {
    U8,
    U16,
    BigU16,
    U32,
    /// A `u32` where integers are fixed and big endian.
    LegacyBigU32,
    U128,
    I8,
    I16,
    BigI16,
    I64,
    I128,
    Char,
    Unit,
    /// The tuple of five parts.
    Five,
    /// A `u8` and a `u32`.
    Pair,
    TwoU32,
    TwoU64,
    Duration,
    CellU32,
    RefCellU32,
    /// An `Option<u32>` where integers are fixed.
    LegacyOption,
    /// A `Result<u8, u8>` where integers are fixed.
    LegacyResult,
    Bound,
    /// A list of lists of bytes.
    Lists,
    /// A list of `u32`.
    List,
    LegacyList,
    /// A list of `()`.
    Units,
    /// A list of `Option<()>`.
    Options,
    /// A list of `u32` in an arena.
    ArenaList,
    /// A `u8` and a list of `u16`.
    NumberAndList,
    Map,
    /// A list of borrowed texts.
    Texts,
    /// An array of three borrowed texts.
    ThreeTexts,
    Ip,
    LegacyIp,
    Ipv4,
    SocketV6,
}

/// The result expected of an input.
#[derive(Clone, Copy)]
pub enum Outcome {
    /// A value of so many bytes is read.
    Read(usize),
    /// The input ends early.
    Ends,
    /// The limit is exceeded.
    Passed,
    /// A number of the first type was expected, and the first byte of the second found.
    Wide(IntegerType, IntegerType),
    /// The first was found as a tag, and the second is the greatest tag there is.
    NoVariant(u32, u32),
}

/// An encoding of a row, with its tags and lengths: the place of each, and what is expected within 100000 of the bytes
/// 251 to 255 there.
pub struct Row {
    pub label: &'static str,
    pub kind: Kind,
    pub encoding: &'static [u8],
    pub tags: &'static [(usize, &'static [Outcome])],
}

/// The bytes of an IPv6 socket address: ::1 and the port 12345.
const SOCKET: [u8; 19] = [0, 0, 0, 0, 0, 0, 0, 0, 0, 0, 0, 0, 0, 0, 0, 1, 251, 57, 48];

/// A length whose bytes after a tag of 16, 32 or 64 bits are not all there, or not as many items as it says; or a `u64`
/// that is cut so.
const SHORT: &[Outcome] = &[Ends, Ends, Ends, Wide(U64, U128), Wide(U64, Reserved)];

/// A length that is too great where it has 32 bits, and cut where it has 64.
const LONG: &[Outcome] = &[Ends, Passed, Ends, Wide(U64, U128), Wide(U64, Reserved)];

/// The same, and too great where it has 64 bits.
const LONGER: &[Outcome] = &[Ends, Passed, Passed, Wide(U64, U128), Wide(U64, Reserved)];

/// The same, and too great where it has 16 bits.
const LONGEST: &[Outcome] = &[Passed, Passed, Passed, Wide(U64, U128), Wide(U64, Reserved)];

/// A `u16` of three bytes.
const SHORT_NUMBER: &[Outcome] = &[
    Read(3),
    Wide(U16, U32),
    Wide(U16, U64),
    Wide(U16, U128),
    Wide(U16, Reserved),
];

/// An `i16` of three bytes.
const SHORT_SIGNED: &[Outcome] = &[
    Read(3),
    Wide(I16, IntegerType::I32),
    Wide(I16, I64),
    Wide(I16, I128),
    Wide(I16, Reserved),
];

/// A `u16` of one byte, after which nothing stands.
const LAST_NUMBER: &[Outcome] = &[
    Ends,
    Wide(U16, U32),
    Wide(U16, U64),
    Wide(U16, U128),
    Wide(U16, Reserved),
];

/// An `i16` of one byte, after which nothing stands.
const LAST_SIGNED: &[Outcome] = &[
    Ends,
    Wide(I16, IntegerType::I32),
    Wide(I16, I64),
    Wide(I16, I128),
    Wide(I16, Reserved),
];

/// A `u32` whose bytes after a tag of 16 or 32 bits are not all there, or not what has to follow it.
const CUT_NUMBER: &[Outcome] = &[
    Ends,
    Ends,
    Wide(U32, U64),
    Wide(U32, U128),
    Wide(U32, Reserved),
];

/// A `u16` of a list, of whose word six bytes are read then.
const NUMBER_IN_SIX: &[Outcome] = &[
    Read(6),
    Wide(U16, U32),
    Wide(U16, U64),
    Wide(U16, U128),
    Wide(U16, Reserved),
];

/// A `u32` of three bytes.
const THREE_BYTES: &[Outcome] = &[
    Read(3),
    Ends,
    Wide(U32, U64),
    Wide(U32, U128),
    Wide(U32, Reserved),
];

/// A byte that says which choice there is, of two, or the first byte of a fixed number that does.
const NO_CHOICE: &[Outcome] = &[
    NoVariant(251, 1),
    NoVariant(252, 1),
    NoVariant(253, 1),
    NoVariant(254, 1),
    NoVariant(255, 1),
];

/// The tag of an address before 127, 0, 0, 1.
const NO_ADDRESS: &[Outcome] = &[
    NoVariant(127, 1),
    NoVariant(16_777_343, 1),
    Wide(U32, U64),
    Wide(U32, U128),
    Wide(U32, Reserved),
];

/// The rows of scalars.
pub static SCALARS: [Row; 26] = [
    Row {
        label: "2",
        kind: Kind::LegacyBigU32,
        encoding: &[0, 0, 0, 5],
        tags: &[],
    },
    Row {
        label: "3a",
        kind: Kind::I16,
        encoding: &[1],
        tags: &[(0, LAST_SIGNED)],
    },
    Row {
        label: "3b",
        kind: Kind::I16,
        encoding: &[251, 0, 2],
        tags: &[(0, SHORT_SIGNED)],
    },
    Row {
        label: "3b, big endian",
        kind: Kind::BigI16,
        encoding: &[251, 2, 0],
        tags: &[(0, SHORT_SIGNED)],
    },
    Row {
        label: "3c",
        kind: Kind::I64,
        encoding: &[253, 255, 255, 255, 255, 255, 255, 255, 255],
        tags: &[(
            0,
            &[
                Read(3),
                Read(5),
                Read(9),
                Wide(I64, I128),
                Wide(I64, Reserved),
            ],
        )],
    },
    Row {
        label: "3d",
        kind: Kind::I8,
        encoding: &[255],
        tags: &[],
    },
    Row {
        label: "3e",
        kind: Kind::I128,
        encoding: &[254, 0, 0, 152, 98, 112, 179, 79, 49, 1, 0, 0, 0, 0, 0, 0, 0],
        tags: &[(
            0,
            &[Read(3), Read(5), Read(9), Read(17), Wide(I128, Reserved)],
        )],
    },
    Row {
        label: "4a",
        kind: Kind::U16,
        encoding: &[251, 0, 10],
        tags: &[(0, SHORT_NUMBER)],
    },
    Row {
        label: "4b",
        kind: Kind::BigU16,
        encoding: &[251, 0, 10],
        tags: &[(0, SHORT_NUMBER)],
    },
    Row {
        label: "4c",
        kind: Kind::U16,
        encoding: &[10],
        tags: &[(0, LAST_NUMBER)],
    },
    Row {
        label: "5a",
        kind: Kind::U32,
        encoding: &[250],
        tags: &[(0, CUT_NUMBER)],
    },
    Row {
        label: "5b",
        kind: Kind::U32,
        encoding: &[251, 251, 0],
        tags: &[(0, THREE_BYTES)],
    },
    Row {
        label: "5c",
        kind: Kind::U32,
        encoding: &[251, 255, 255],
        tags: &[(0, THREE_BYTES)],
    },
    Row {
        label: "5d",
        kind: Kind::U32,
        encoding: &[252, 0, 0, 1, 0],
        tags: &[(
            0,
            &[
                Read(3),
                Read(5),
                Wide(U32, U64),
                Wide(U32, U128),
                Wide(U32, Reserved),
            ],
        )],
    },
    Row {
        label: "5e",
        kind: Kind::U8,
        encoding: &[251],
        tags: &[],
    },
    Row {
        label: "5f",
        kind: Kind::U128,
        encoding: &[
            254, 255, 255, 255, 255, 255, 255, 255, 255, 255, 255, 255, 255, 255, 255, 255, 255,
        ],
        tags: &[(
            0,
            &[Read(3), Read(5), Read(9), Read(17), Wide(U128, Reserved)],
        )],
    },
    Row {
        label: "7f",
        kind: Kind::Char,
        encoding: &[226, 130, 172],
        tags: &[],
    },
    Row {
        label: "11",
        kind: Kind::U16,
        encoding: &[251, 0, 1],
        tags: &[(0, SHORT_NUMBER)],
    },
    // the seconds of a span of time, and then its nanoseconds
    Row {
        label: "14a",
        kind: Kind::Duration,
        encoding: &[252, 255, 255, 255, 255, 252, 44, 203, 154, 59],
        tags: &[
            (
                0,
                &[
                    Wide(U32, Reserved),
                    Read(10),
                    Read(10),
                    Wide(U64, U128),
                    Wide(U64, Reserved),
                ],
            ),
            (
                5,
                &[
                    Read(8),
                    Read(10),
                    Wide(U32, U64),
                    Wide(U32, U128),
                    Wide(U32, Reserved),
                ],
            ),
        ],
    },
    Row {
        label: "14b",
        kind: Kind::Duration,
        encoding: &[253, 0, 0, 0, 0, 1, 0, 0, 0, 251, 44, 1],
        tags: &[
            (
                0,
                &[
                    Read(4),
                    Read(6),
                    Read(12),
                    Wide(U64, U128),
                    Wide(U64, Reserved),
                ],
            ),
            (
                9,
                &[
                    Read(12),
                    Ends,
                    Wide(U32, U64),
                    Wide(U32, U128),
                    Wide(U32, Reserved),
                ],
            ),
        ],
    },
    Row {
        label: "18, Cell of 5",
        kind: Kind::CellU32,
        encoding: &[5],
        tags: &[(0, CUT_NUMBER)],
    },
    Row {
        label: "18, Cell of 300",
        kind: Kind::CellU32,
        encoding: &[251, 44, 1],
        tags: &[(0, THREE_BYTES)],
    },
    Row {
        label: "18, RefCell of 5",
        kind: Kind::RefCellU32,
        encoding: &[5],
        tags: &[(0, CUT_NUMBER)],
    },
    Row {
        label: "18, RefCell of 300",
        kind: Kind::RefCellU32,
        encoding: &[251, 44, 1],
        tags: &[(0, THREE_BYTES)],
    },
    Row {
        label: "21a",
        kind: Kind::Unit,
        encoding: &[],
        tags: &[],
    },
    Row {
        label: "25b",
        kind: Kind::Ipv4,
        encoding: &[127, 0, 0, 1],
        tags: &[],
    },
];

/// The rows of tuples, choices and addresses.
pub static WHOLES: [Row; 11] = [
    Row {
        label: "1",
        kind: Kind::Five,
        encoding: &[0, 10, 251, 32, 78, 97, 0, 1, 2, 3],
        tags: &[
            (
                1,
                &[
                    Read(10),
                    Ends,
                    Wide(U32, U64),
                    Wide(U32, U128),
                    Wide(U32, Reserved),
                ],
            ),
            (2, &[Read(10), Ends, Ends, Ends, Wide(I128, Reserved)]),
        ],
    },
    Row {
        label: "10b",
        kind: Kind::TwoU64,
        encoding: &[5, 6],
        tags: &[(0, SHORT), (1, SHORT)],
    },
    Row {
        label: "16a",
        kind: Kind::Pair,
        encoding: &[1, 251, 44, 1],
        tags: &[(
            1,
            &[
                Read(4),
                Ends,
                Wide(U32, U64),
                Wide(U32, U128),
                Wide(U32, Reserved),
            ],
        )],
    },
    Row {
        label: "17a",
        kind: Kind::SocketV6,
        encoding: &SOCKET,
        tags: &[(
            16,
            &[
                Read(19),
                Wide(U16, U32),
                Wide(U16, U64),
                Wide(U16, U128),
                Wide(U16, Reserved),
            ],
        )],
    },
    Row {
        label: "19a",
        kind: Kind::LegacyOption,
        encoding: &[1, 5, 0, 0, 0],
        tags: &[(0, NO_CHOICE)],
    },
    Row {
        label: "19b",
        kind: Kind::LegacyResult,
        encoding: &[0, 0, 0, 0, 5],
        tags: &[(0, NO_CHOICE)],
    },
    Row {
        label: "20a",
        kind: Kind::TwoU32,
        encoding: &[5, 10],
        tags: &[(0, CUT_NUMBER), (1, CUT_NUMBER)],
    },
    Row {
        label: "22a",
        kind: Kind::Ip,
        encoding: &[0, 127, 0, 0, 1],
        tags: &[(0, NO_ADDRESS)],
    },
    Row {
        label: "22b",
        kind: Kind::LegacyIp,
        encoding: &[0, 0, 0, 0, 127, 0, 0, 1],
        tags: &[(0, NO_CHOICE)],
    },
    Row {
        label: "23a",
        kind: Kind::Bound,
        encoding: &[2, 7],
        tags: &[(0, CUT_NUMBER)],
    },
    Row {
        label: "26a",
        kind: Kind::NumberAndList,
        encoding: &[7, 2, 5, 251, 0, 1],
        tags: &[
            (
                1,
                &[Passed, Passed, Ends, Wide(U64, U128), Wide(U64, Reserved)],
            ),
            (2, NUMBER_IN_SIX),
            (3, NUMBER_IN_SIX),
        ],
    },
];

/// The rows of lists, maps and texts.
pub static LISTS: [Row; 10] = [
    Row {
        label: "9b",
        kind: Kind::Lists,
        encoding: &[1, 2, 7, 8],
        tags: &[(0, SHORT), (1, SHORT)],
    },
    Row {
        label: "12a",
        kind: Kind::Map,
        encoding: &[3, 1, 10, 2, 20, 1, 30],
        tags: &[(0, LONG)],
    },
    Row {
        label: "12b",
        kind: Kind::Map,
        encoding: &[2, 1, 30, 2, 20],
        tags: &[(0, LONG)],
    },
    Row {
        label: "15a",
        kind: Kind::Texts,
        encoding: &[3, 3, 97, 98, 99, 3, 100, 101, 102, 3, 103, 104, 105],
        tags: &[(0, LONGEST), (1, LONGER), (5, LONG), (9, SHORT)],
    },
    Row {
        label: "15b",
        kind: Kind::ThreeTexts,
        encoding: &[3, 97, 98, 99, 3, 100, 101, 102, 3, 103, 104, 105],
        tags: &[(0, LONGER), (4, LONG), (8, SHORT)],
    },
    Row {
        label: "17c",
        kind: Kind::Units,
        encoding: &[3],
        tags: &[(0, SHORT)],
    },
    Row {
        label: "21b",
        kind: Kind::List,
        encoding: &[0],
        tags: &[(0, SHORT)],
    },
    Row {
        label: "21c",
        kind: Kind::LegacyList,
        encoding: &[0, 0, 0, 0, 0, 0, 0, 0],
        tags: &[(0, &[Ends, Ends, Ends, Ends, Ends])],
    },
    Row {
        label: "24",
        kind: Kind::ArenaList,
        encoding: &[3, 1, 2, 3],
        tags: &[
            (0, SHORT),
            (1, CUT_NUMBER),
            (2, CUT_NUMBER),
            (3, CUT_NUMBER),
        ],
    },
    Row {
        label: "25g",
        kind: Kind::Options,
        encoding: &[2, 0, 1],
        tags: &[(0, SHORT), (1, NO_CHOICE), (2, NO_CHOICE)],
    },
];
