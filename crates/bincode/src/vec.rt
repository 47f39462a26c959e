//! Encoding into a vector.
ghost use Rattle.std.specs.Prelude.{◌≡◌, IfOk, IfErr};
ghost use Rattle.bincode_spec.specs.Allowed.{AllowedWord};
ghost use Rattle.bincode_spec.specs.Encoding.{IsReady, FailsEmpty};
ghost use Rattle.bincode_spec.specs.Vec.{IsMemoryOrNamed};

use crate::writer::encode_with;
use bincode_base::config::Config;
use bincode_base::error::EncodeError;
use bincode_encode::encode::Encode;
use bincode_io::room_counter::RoomCounter;
use bincode_io::room_writer::RoomWriter;
use std::alloc::Global;

/// Encodes a value into a new vector. Fails with `Memory` if an allocation is refused, or with an error of the type.
/// The value is walked twice: once to count the bytes, once to write them into one allocation of that size.
pub fn encode_to_vec<E: Encode, C: Config>(
    alloc: Global,
    val: E,
    config: C,
) -> Result<Vec<u8>, EncodeError>
    // The bytes are a word that the value allows.
    ensures word { IfOk result (λ v. AllowedWord (E.words.means val) (E.words.format C.setting) v.items) }
    // No other errors come than `Memory` and those of the type.
    ensures fault { IfErr result (IsMemoryOrNamed E.words.own_errors) }
    // A value without bytes is never refused with `Memory`.
    ensures empty { FailsEmpty (IsReady (E.words.writable C.setting val)
        (AllowedWord (E.words.means val) (E.words.format C.setting)))
        E.words.own_errors result }
{
    let mut counter = RoomCounter::default();
    encode_with(&val, &mut counter, &config)?;
    encode_in_room(alloc, &val, counter.bytes_written, &config)
}

/// Encodes into a vector of this capacity. If the value no longer fits (its type may write another encoding each time),
/// retries with twice the capacity plus one.
fn encode_in_room<E: Encode, C: Config>(
    alloc: Global,
    val: &E,
    counted: usize,
    config: &C,
) -> Result<Vec<u8>, EncodeError>
    ensures word { IfOk result (λ v. AllowedWord (E.words.means val.now) (E.words.format C.setting) v.items) }
    ensures fault { IfErr result (IsMemoryOrNamed E.words.own_errors) }
    ensures empty { counted ≡ 0 → FailsEmpty (IsReady (E.words.writable C.setting val.now)
        (AllowedWord (E.words.means val.now) (E.words.format C.setting)))
        E.words.own_errors result }
{
    let mut room = counted;
    loop {
        let mut writer = RoomWriter::with_capacity(alloc, room)?;
        match encode_with(val, &mut writer, config) {
            Ok(()) => return Ok(writer.collect()),
            Err(_) if writer.has_refused() => room = room * 2 + 1,
            Err(e) => return Err(e),
        }
    }
}
