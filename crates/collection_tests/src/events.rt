//! An enum with a number, a text or nothing in each variant, decoded into a value that owns and by borrowing.

use crate::asserts::all_hold;
use bincode::config::{self, Config};
use bincode::de::{BorrowDecode, Decode};
use bincode::enc::Encode;
use bincode::error::DecodeError;
use bincode::{Wire, borrow_decode_from_slice, encode_into_slice};
use own_types::event::Event;
use std::alloc::Global;
use test_helpers::checks::{decoded, is_passed};

/// What decoding returns: a value and how many bytes it takes, or an error.
type Outcome<T> = Result<(T, usize), DecodeError>;

/// The result of borrowed decoding. Retries once if an allocation is refused.
fn borrowed<'a, T: BorrowDecode<&'a [u8], ()>, C: Config>(
    alloc: Global,
    source: &'a [u8],
    config: C,
) -> Outcome<T> {
    match borrow_decode_from_slice(alloc, source, config) {
        Err(DecodeError::Memory) => borrow_decode_from_slice(alloc, source, config),
        outcome => outcome,
    }
}

/// The results of decoding into a value that owns, and of borrowed decoding.
fn in_both_ways<'a, T, C>(alloc: Global, source: &'a [u8], config: C) -> (Outcome<T>, Outcome<T>)
where
    T: Decode<()> + BorrowDecode<&'a [u8], ()>,
    C: Config,
{
    (
        decoded(alloc, source, config),
        borrowed(alloc, source, config),
    )
}

/// Whether a slice gets this encoding of the event, and no byte after it is changed.
fn is_encoded_as<C: Config>(event: &Event, encoding: &[u8], config: C) -> bool {
    let mut wanted = [99u8; 9];
    let Some(front) = wanted.get_mut(..encoding.len()) else {
        return false;
    };
    front.copy_from_slice(encoding);
    let mut slice = [99u8; 9];
    let written = encode_into_slice(event, &mut slice, config);
    matches!(written, Ok(count) if count == encoding.len()) && slice == wanted
}

/// Whether the event that stops with 5 was decoded from so many bytes.
fn is_stop(outcome: Outcome<Event>, length: usize) -> bool {
    matches!(outcome, Ok((Event::Stop(5), taken)) if taken == length)
}

/// Whether the event that stops with 5 has this encoding, and is decoded from it in both ways.
fn keeps_stop<C: Config>(alloc: Global, encoding: &[u8], config: C) -> bool {
    let (owned, lent) = in_both_ways(alloc, encoding, config);
    is_encoded_as(&Event::Stop(5), encoding, config)
        && is_stop(owned, encoding.len())
        && is_stop(lent, encoding.len())
}

/// The note `ab`.
static NOTE: [u8; 4] = [2, 2, 97, 98];

/// Whether the note `ab` was decoded, and has that encoding.
fn is_note(outcome: Outcome<Event>) -> bool {
    let Ok((event, 4)) = outcome else {
        return false;
    };
    let Event::Note(text) = &event else {
        return false;
    };
    text.as_str() == "ab" && is_encoded_as(&event, &NOTE, config::standard())
}

/// Whether the tag 3 was found, where those of `Event` are 0 to 2.
fn is_no_event(outcome: Outcome<Event>) -> bool {
    let Err(
        DecodeError::UnexpectedVariant {
            type_name,
            found: 3,
            min: 0,
            max: 2,
        },
    ) = outcome
    else {
        return false;
    };
    type_name.as_str() == "Event"
}

/// Whether the one event that starts was decoded, from two bytes.
fn is_one_start(outcome: Outcome<Vec<Event>>) -> bool {
    let Ok((events, 2)) = outcome else {
        return false;
    };
    matches!(events.as_slice(), [Event::Start])
}

/// Whether both results are that the limit is exceeded.
fn are_passed<T: Drop>(outcomes: (Outcome<T>, Outcome<T>)) -> bool {
    is_passed(outcomes.0) && is_passed(outcomes.1)
}

#[test]
fn keeps_events(rt: HostRuntime) {
    let alloc = rt.alloc();
    let standard = config::standard();
    let (note, lent_note) = in_both_ways(alloc, &NOTE, standard);
    let (no_event, lent_no_event) = in_both_ways(alloc, &[3], standard);
    all_hold(
        &rt,
        &[
            (
                "an event that stops",
                keeps_stop(alloc, &[1, 5], standard)
                    && keeps_stop(alloc, &[1, 0, 0, 0, 5, 0, 0, 0], config::legacy())
                    && Event::claim_size() == 28,
            ),
            ("an event with a note", is_note(note) && is_note(lent_note)),
            (
                "an event that is none",
                is_no_event(no_event) && is_no_event(lent_no_event),
            ),
        ],
    );
}

/// A tag charges 4 and its number 4. In a list an event claims 28: the tag, and what a `String` claims.
#[test]
fn charges_for_events(rt: HostRuntime) {
    let alloc = rt.alloc();
    let config = config::standard();
    let stop = [1, 5];
    let (owned, lent) = in_both_ways(alloc, &stop, config.with_limit::<8>());
    let list = [1, 0];
    let (list_owned, list_lent) = in_both_ways(alloc, &list, config.with_limit::<36>());
    all_hold(
        &rt,
        &[
            (
                "an event, limits 7 and 8",
                are_passed::<Event>(in_both_ways(alloc, &stop, config.with_limit::<7>()))
                    && is_stop(owned, 2)
                    && is_stop(lent, 2),
            ),
            (
                "a list of events, limits 35 and 36",
                are_passed::<Vec<Event>>(in_both_ways(alloc, &list, config.with_limit::<35>()))
                    && is_one_start(list_owned)
                    && is_one_start(list_lent),
            ),
        ],
    );
}
