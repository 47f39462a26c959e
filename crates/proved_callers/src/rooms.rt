//! Writing to any writer within its capacity.
ghost use Rattle.std.specs.Prelude.{ℕ, List, OnOk, IfErr};
ghost use Rattle.bincode_spec.specs.Allowed.{AllowedWord};
ghost use Rattle.bincode_spec.specs.Device.{WithinRoom, WriterFails};

use bincode::config::Config;
use bincode::enc::Encode;
use bincode::enc::write::Writer;
use bincode::encode_into_writer;
use bincode::error::EncodeError;
use bincode::laws::Plain;

/// Encodes a value. Succeeds only if it fits the writer's room; if it does, the error is `Memory` or of the device.
pub fn fits_exactly<E: Encode + Plain, W: Writer, C: Config>(
    value: &E,
    writer: &mut W,
    config: C,
) -> Result<(), EncodeError>
    ensures within { (word : List ℕ) → AllowedWord (E.words.means value.now) (E.words.format C.setting) word
        → OnOk result (WithinRoom (W.room writer.old) word) }
    ensures fits { (word : List ℕ) → AllowedWord (E.words.means value.now) (E.words.format C.setting) word
        → WithinRoom (W.room writer.old) word
        → IfErr result (WriterFails W.device (W.failures writer.old) (W.failures writer.new)) }
{
    E::tell_plain();
    value.tell_valid();
    encode_into_writer(value, writer, config)
}
