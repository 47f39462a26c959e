//! The errors for user-defined types, and what remains after them. The rows are those of bincode 2.0.1.

ghost use Rattle.bincode.specs.Encoding.{IsOwn};

use bincode::enc::write::SizeWriter;
use bincode::enc::{Encode, Encoder};
use bincode::error::EncodeError;
use bincode::short_text::ShortText;
use bincode::{
    Wire, config, encode_into_buf_write, encode_into_slice, encode_into_std_write,
    encode_into_writer, encode_to_vec,
};
use std::alloc::Global;
use test_helpers::checks::either;

/// By which of these errors a value fails.
#[derive(Clone, Copy)]
enum Cause {
    Short,
    Long,
    Lock,
}

/// A text that is too long to be held inline.
const LONG: &str = "the sensor was asked and gave no number";

/// The long text, on the heap. Retries once if an allocation is refused.
fn long_text(alloc: Global) -> Option<Box<String>> {
    let text = either(String::from_str(alloc, LONG), String::from_str(alloc, LONG))?;
    match Box::new(alloc, text) {
        Ok(boxed) => Some(boxed),
        Err(refused) => Box::new(alloc, refused.value).ok(),
    }
}

/// The error of this cause.
fn error_of(alloc: Global, cause: Cause) -> EncodeError
    ensures { IsOwn result }
{
    match cause {
        Cause::Short => EncodeError::Other(ShortText::new("no number")),
        Cause::Long => match long_text(alloc) {
            Some(text) => EncodeError::OtherString(text),
            None => EncodeError::Other(ShortText::new("no memory")),
        },
        Cause::Lock => EncodeError::LockFailed {
            type_name: ShortText::new("Sensor"),
        },
    }
}

/// Whether an outcome is the error of this cause.
fn fails_by<T: Drop>(outcome: Result<T, EncodeError>, cause: Cause) -> bool {
    let Err(error) = outcome else {
        return false;
    };
    match (cause, &error) {
        (Cause::Short, EncodeError::Other(text)) => text.as_str() == "no number",
        (Cause::Long, EncodeError::OtherString(text)) => text.as_str() == LONG,
        (Cause::Lock, EncodeError::LockFailed { type_name }) => type_name.as_str() == "Sensor",
        _ => false,
    }
}

/// A value that is never written: it fails at once.
#[derive(Clone, Copy)]
struct Halting {
    alloc: Global,
    cause: Cause,
}

impl Wire for Halting {
    ghost use Rattle.bincode.specs.TypeWords.{words_by};
    ghost use Rattle.bincode_base.specs.declared.error.EncodeError.TheVariants as errors;

    // Those of no bytes, with the errors of its own.
    ghost words = { record (words_by ⟦<() as Wire>⟧.words (λ _. tt)) {
      own_errors = IsOwn;
      errors_are_own = elim [
        | errors.UnexpectedEnd ↦ λ h. absurd h
        | errors.RefCellAlreadyBorrowed name ↦ λ h. absurd h
        | errors.LockFailed name ↦ λ h. h
        | errors.Io inner index ↦ λ h. absurd h
        | errors.InvalidPathCharacters ↦ λ h. absurd h
        | errors.Memory ↦ λ h. absurd h
        | errors.Other text ↦ λ h. h
        | errors.OtherString text ↦ λ h. h
      ];
    } };

    fn claim_size() -> usize {
        <()>::claim_size()
    }
}

impl Encode for Halting {
    fn tell_valid(&self) {
        ().tell_valid();
    }

    fn encode<E: Encoder>(&self, _encoder: &mut E) -> Result<(), EncodeError> {
        Err(error_of(self.alloc, self.cause))
    }
}

/// Whether the call for slices fails by this cause, and leaves 1 and 2.
fn leaves_slice<T: Encode>(value: &T, cause: Cause) -> bool {
    let mut slice = [9u8; 4];
    let outcome = encode_into_slice(value, &mut slice, config::standard());
    fails_by(outcome, cause) && slice == [1, 2, 9, 9]
}

/// Whether the call for writers does so.
fn leaves_counter<T: Encode>(value: &T, cause: Cause) -> bool {
    let mut counter = SizeWriter::default();
    let outcome = encode_into_writer(value, &mut counter, config::standard());
    fails_by(outcome, cause) && counter.bytes_written == 2
}

/// Whether the call for streams does so, piece by piece or in blocks.
fn leaves_stream<T: Encode>(value: &T, cause: Cause, in_blocks: bool) -> bool {
    let mut target = [9u8; 4];
    let mut stream = &mut target[..];
    let outcome = if in_blocks {
        encode_into_buf_write(value, &mut stream, config::standard())
    } else {
        encode_into_std_write(value, &mut stream, config::standard())
    };
    fails_by(outcome, cause) && target == [1, 2, 9, 9]
}

/// Whether each call fails so.
fn leaves_two<T: Encode>(alloc: Global, value: &T, cause: Cause) -> bool {
    leaves_slice(value, cause)
        && leaves_counter(value, cause)
        && leaves_stream(value, cause, false)
        && leaves_stream(value, cause, true)
        && fails_by(encode_to_vec(alloc, value, config::standard()), cause)
}

#[test]
fn leaves_what_stands_before_a_value_that_fails(rt: HostRuntime) {
    let alloc = rt.alloc();
    for cause in [Cause::Short, Cause::Long, Cause::Lock] {
        let value = (1u8, 2u8, Halting { alloc, cause });
        assert!(rt; leaves_two(alloc, &value, cause));
    }
}
