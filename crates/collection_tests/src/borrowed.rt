//! User-defined types that borrow bytes of the input.

use bincode::config;
use bincode::error::DecodeError;
use own_by_hand::even::Even;
use own_types::code::Code;
use own_types::message::Message;
use own_types::note::Note;
use proved_callers::borrowed::{borrow_pair, read_twice};
use test_helpers::checks::{borrowed, fills};

#[test]
fn lends_to_a_struct(rt: HostRuntime) {
    let alloc = rt.alloc();
    let input = [2, 97, 98, 3, 5, 6, 7, 9];
    let Ok((note, 7)) = borrowed::<Note>(alloc, &input) else {
        assert!(rt; false);
        return;
    };
    assert!(rt;
        note.title == "ab" && note.data == [5, 6, 7].as_slice() && fills(&note, &input[..7])
    );
}

/// Whether the tag 3 was found, where those of `Message` are 0 to 2.
fn is_no_message(outcome: Result<(Message, usize), DecodeError>) -> bool {
    let Err(
        DecodeError::UnexpectedVariant {
            type_name,
            found: 3,
            min: 0,
            max: 2,
        },
    ) = outcome
    else {
        return false;
    };
    type_name.as_str() == "Message"
}

/// Also where it is lent, the error of a tag that no variant has names the enum that was read.
#[test]
fn lends_to_an_enum(rt: HostRuntime) {
    let alloc = rt.alloc();
    assert!(rt;
        matches!(borrowed(alloc, &[0]), Ok((Message::Start, 1)))
            && matches!(borrowed(alloc, &[1, 5]), Ok((Message::Stop(5), 2)))
            && matches!(
                borrowed(alloc, &[2, 2, 97, 98]),
                Ok((Message::Note("ab"), 4))
            )
            && is_no_message(borrowed(alloc, &[3]))
    );
}

#[test]
fn borrows_types_that_own(rt: HostRuntime) {
    let alloc = rt.alloc();
    assert!(rt;
        matches!(borrowed(alloc, &[251, 44, 1]), Ok((Code::Refused, 3)))
            && matches!(borrowed::<Even>(alloc, &[4]), Ok((_, 1)))
    );
}

#[test]
fn reads_the_same_in_both_ways(rt: HostRuntime) {
    let twice = read_twice::<u8, _>(rt.alloc(), &[5, 1], config::standard());
    assert!(rt; matches!(twice.owned, Ok((5, 1))) && matches!(twice.borrowed, Ok((5, 1))));
}

#[test]
fn borrows_a_pair(rt: HostRuntime) {
    let pair = borrow_pair(rt.alloc(), &[1, 97, 1, 5], config::standard());
    assert!(rt; matches!(pair, Ok((("a", [5]), 4))));
}
