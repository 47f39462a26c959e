//! User-defined types, written and read.

use crate::asserts::{all_hold, all_true};
use bincode::checked::{RoundTrip, round_trip};
use bincode::de::read::SliceReader;
use bincode::de::{BorrowDecode, Decode};
use bincode::enc::Encode;
use bincode::error::{DecodeError, IntegerType};
use bincode::{Wire, borrow_decode_from_slice, config, decode_from_reader};
use derived_types::tags::Mixed;
use own_by_hand::even::Even;
use own_by_hand::pack::Pack;
use own_types::batch::Batch;
use own_types::book::Book;
use own_types::code::Code;
use own_types::either::Either;
use own_types::foo::Foo;
use own_types::kind::Kind;
use own_types::never::Never;
use own_types::pair::Pair;
use own_types::report::Report;
use own_types::table::Table;
use own_types::track::Track;
use std::alloc::Global;
use test_helpers::checks::{
    borrowed, decoded, each_call_keeps, ends_at_each_place, fault_of, fills, is_passed,
    refuses_tag, within,
};

/// Whether this is a word of the type for each call, with bytes after it, and no prefix of it is one.
fn has_word<T: Encode + Decode<()>>(alloc: Global, word: &[u8]) -> bool {
    each_call_keeps::<T>(alloc, word) && ends_at_each_place::<(), T>(alloc, word, ())
}

/// The word of a report of the station 5, in twelve fields.
const REPORT: [u8; 19] = [
    5, 251, 44, 1, 1, 1, 97, 5, 251, 148, 39, 80, 12, 251, 251, 0, 250, 8, 9,
];

/// The word of a book of one contact, who works at `d` since 300, and of one note.
const BOOK: [u8; 18] = [
    1, 7, 2, 97, 98, 1, 1, 99, 1, 1, 100, 251, 44, 1, 1, 5, 1, 101,
];

#[test]
fn keeps_structs(rt: HostRuntime) {
    let alloc = rt.alloc();
    let track = [1, 99, 2, 1, 251, 44, 1, 2, 1];
    let table = [1, 97, 1, 2, 1, 1, 2];
    all_true(
        &rt,
        &[
            has_word::<Track>(alloc, &track),
            has_word::<Pair<u8, u16>>(alloc, &[7, 251, 44, 1]),
            has_word::<Table<u16, bool>>(alloc, &table),
            has_word::<Report>(alloc, &REPORT),
            has_word::<Book>(alloc, &BOOK),
        ],
    );
}

/// Whether two numbers are read back of what is written.
fn comes_back(alloc: Global, foo: &Foo) -> bool {
    let mut slice = [0; 3];
    let Ok(RoundTrip { written: 2, read }) = round_trip(alloc, foo, &mut slice, config::standard())
    else {
        return false;
    };
    matches!(read, Ok((Foo { a: 5, b: 10 }, 2)))
}

/// What is decoded from a reader over a slice.
fn read_in_turn<T: Decode<()>>(alloc: Global, input: &[u8]) -> Result<T, DecodeError> {
    decode_from_reader(alloc, &mut SliceReader::new(input), config::standard())
}

#[test]
fn keeps_two_numbers(rt: HostRuntime) {
    let alloc = rt.alloc();
    let foo = Foo { a: 5, b: 10 };
    all_hold(
        &rt,
        &[
            (
                "a struct of two numbers",
                fills(&foo, &[5, 10])
                    && matches!(
                        decoded(alloc, &[5, 10], config::standard()),
                        Ok((Foo { a: 5, b: 10 }, 2))
                    )
                    && comes_back(alloc, &foo)
                    && Foo::claim_size() == 8,
            ),
            (
                "a struct from a reader",
                matches!(read_in_turn(alloc, &[5, 10]), Ok(Foo { a: 5, b: 10 })),
            ),
        ],
    );
}

/// The word of the list of 1, 300 and 7.
const LIST: [u8; 6] = [3, 1, 251, 44, 1, 7];

/// A length of 2^64 - 1, after which nothing stands.
const HUGE: [u8; 9] = [253, 255, 255, 255, 255, 255, 255, 255, 255];

/// Whether a number of one type was expected, and the first byte of another found.
fn is_wide(fault: Option<DecodeError>, wanted: IntegerType, seen: IntegerType) -> bool {
    let Some(DecodeError::InvalidIntegerType { expected, found }) = fault else {
        return false;
    };
    expected == wanted && found == seen
}

/// Whether the type is a list of `u32`: its word, the faults of a length and of an item, and that three numbers charge
/// 8 and 12.
fn is_list<T: Encode + Decode<()>>(alloc: Global) -> bool {
    let length = fault_of::<T>(alloc, &[254]);
    let second = fault_of::<T>(alloc, &[3, 1, 255]);
    has_word::<T>(alloc, &LIST)
        && is_wide(length, IntegerType::U64, IntegerType::U128)
        && is_wide(second, IntegerType::U32, IntegerType::Reserved)
        && is_passed(within::<T, 19>(alloc, &LIST))
        && is_read::<T, 20>(alloc, &LIST)
        && is_passed(within::<T, 20>(alloc, &HUGE))
}

/// Whether the whole word is decoded within this limit. Retries once if an allocation is refused.
fn is_read<T: Decode<()>, const N: usize>(alloc: Global, word: &[u8]) -> bool {
    let config = config::standard().with_limit::<N>();
    let outcome: Result<(T, usize), DecodeError> = decoded(alloc, word, config);
    matches!(outcome, Ok((_, taken)) if taken == word.len())
}

/// A list of seventeen sevens and an empty list, in a list.
const SEVENS: [u8; 20] = [2, 17, 7, 7, 7, 7, 7, 7, 7, 7, 7, 7, 7, 7, 7, 7, 7, 7, 7, 0];

/// Whether the type is a list of lists of bytes: one of two bytes charges 32 at most. And the claim of each list is
/// released where it begins, not that of all of them before: the first of two charges 57 with its seventeen bytes, of
/// which 24 are the claim of the second.
fn is_list_of_lists<T: Decode<()>>(alloc: Global) -> bool {
    let word = [1, 2, 7, 8];
    let config = config::standard();
    is_passed(within::<T, 31>(alloc, &word))
        && is_read::<T, 32>(alloc, &word)
        && is_passed::<(T, usize)>(decoded(alloc, &SEVENS, config.with_limit::<56>()))
        && is_read::<T, 57>(alloc, &SEVENS)
}

#[test]
fn keeps_lists(rt: HostRuntime) {
    let alloc = rt.alloc();
    all_hold(
        &rt,
        &[
            ("a list of the library", is_list::<Vec<u32>>(alloc)),
            ("a list that is filled", is_list::<Batch<u32>>(alloc)),
            (
                "a list with a loop of its own",
                is_list::<Pack<u32>>(alloc)
                    && is_list_of_lists::<Vec<Vec<u8>>>(alloc)
                    && is_list_of_lists::<Vec<Pack<u8>>>(alloc)
                    && is_list_of_lists::<Pack<Vec<u8>>>(alloc)
                    && Pack::<u32>::claim_size() == 24,
            ),
        ],
    );
}

/// Whether the type is `Kind`: its words, and no tag.
fn is_kind<T: Encode + Decode<()>>(alloc: Global) -> bool {
    has_word::<T>(alloc, &[0])
        && has_word::<T>(alloc, &[1, 2, 97, 98, 251, 44, 1])
        && has_word::<T>(alloc, &[2, 1, 1, 99, 5])
        && refuses_tag::<T>(alloc, 3, "Kind", 2)
}

/// Whether the type is `Either` of a byte and a truth value: its words, and no tag.
fn is_either<T: Encode + Decode<()>>(alloc: Global) -> bool {
    has_word::<T>(alloc, &[0, 2])
        && has_word::<T>(alloc, &[1, 1])
        && refuses_tag::<T>(alloc, 2, "Either", 1)
}

#[test]
fn keeps_enums(rt: HostRuntime) {
    assert!(rt; is_kind::<Kind>(rt.alloc()) && is_either::<Either<u8, bool>>(rt.alloc()));
}

/// Whether the error of the tag 2 lists those of `Code`.
fn lists_tags(fault: Option<DecodeError>) -> bool {
    let Some(
        DecodeError::UnlistedVariant {
            type_name,
            found: 2,
            allowed,
        },
    ) = fault
    else {
        return false;
    };
    type_name.as_str() == "Code" && allowed.as_slice() == [1, 5, 300].as_slice()
}

#[test]
fn keeps_each_code(rt: HostRuntime) {
    let alloc = rt.alloc();
    let refused = [251, 44, 1];
    all_hold(
        &rt,
        &[
            (
                "a code of its own",
                fills(&Code::Refused, &refused)
                    && matches!(
                        decoded(alloc, &refused, config::standard()),
                        Ok((Code::Refused, 3))
                    )
                    && matches!(borrowed(alloc, &refused), Ok((Code::Refused, 3)))
                    && has_word::<Code>(alloc, &[5])
                    && Code::claim_size() == 4,
            ),
            (
                "a code that is none",
                lists_tags(fault_of::<Code>(alloc, &[2]))
                    && lists_tags(borrowed::<Code>(alloc, &[2]).err()),
            ),
        ],
    );
}

/// Whether this is the error of an enum without variants, under this name.
fn is_empty_enum<T: Drop>(outcome: Result<T, DecodeError>, name: &str) -> bool {
    let Err(DecodeError::EmptyEnum { type_name }) = outcome else {
        return false;
    };
    type_name.as_str() == name
}

/// The result of borrowed decoding under a limit.
fn lent_within<'a, T: BorrowDecode<&'a [u8], ()>, const N: usize>(
    alloc: Global,
    source: &'a [u8],
) -> Result<(T, usize), DecodeError> {
    borrow_decode_from_slice(alloc, source, config::standard().with_limit::<N>())
}

/// Whether the type has no values: decoding in both ways within 0 fails with its name.
fn has_no_values<'a, T: Decode<()> + BorrowDecode<&'a [u8], ()>>(
    alloc: Global,
    source: &'a [u8],
    name: &str,
) -> bool {
    is_empty_enum(within::<T, 0>(alloc, source), name)
        && is_empty_enum(lent_within::<T, 0>(alloc, source), name)
}

/// Whether this is an error of a type's own with this text.
fn is_other<T: Drop>(outcome: Result<T, DecodeError>, text: &str) -> bool {
    let Err(DecodeError::Other(told)) = outcome else {
        return false;
    };
    told.as_str() == text
}

#[test]
fn refuses_what_has_no_value(rt: HostRuntime) {
    let alloc = rt.alloc();
    let nothing = [];
    all_hold(
        &rt,
        &[
            (
                "a type without values",
                has_no_values::<Never>(alloc, &nothing, "Never") && Never::claim_size() == 1,
            ),
            (
                "an even number, limits 0 and 1",
                is_passed(within::<Even, 0>(alloc, &[3]))
                    && is_other(within::<Even, 1>(alloc, &[3]), "odd")
                    && is_passed(lent_within::<Even, 0>(alloc, &[3]))
                    && is_other(lent_within::<Even, 1>(alloc, &[3]), "odd")
                    && has_word::<Even>(alloc, &[4])
                    && Even::claim_size() == 1,
            ),
        ],
    );
}

/// How many bytes a reader has left after a fault.
fn left_after<T: Decode<()>>(alloc: Global, input: &[u8]) -> Option<usize> {
    let mut reader = SliceReader::new(input);
    let outcome: Result<T, DecodeError> = decode_from_reader(
        alloc,
        &mut reader,
        config::standard(),
    );
    match outcome {
        Ok(_) => None,
        Err(_) => Some(reader.bytes_left()),
    }
}

/// Whether two bytes are left after a fault. Retries once if an allocation is refused.
fn leaves_two<T: Decode<()>>(alloc: Global, input: &[u8]) -> bool {
    left_after::<T>(alloc, input) == Some(2) || left_after::<T>(alloc, input) == Some(2)
}

/// Nothing is read after a tag or a number that is refused, and of what has no variants nothing is read at all.
#[test]
fn leaves_what_follows_a_fault(rt: HostRuntime) {
    let alloc = rt.alloc();
    assert!(rt;
        leaves_two::<Kind>(alloc, &[3, 77, 78])
            && leaves_two::<Code>(alloc, &[2, 77, 78])
            && leaves_two::<Mixed>(alloc, &[0, 77, 78])
            && leaves_two::<Even>(alloc, &[3, 77, 78])
            && leaves_two::<Never>(alloc, &[77, 78])
    );
}
