//! Encoding of enums: the tag of a variant, then its part.
ghost use Rattle.std.specs.Prelude.{◌<◌, ◌^◌};
ghost use Rattle.bincode_base.specs.declared.error.EncodeError.{EncodeError};
ghost use Rattle.bincode_spec.specs.Format.{map_format};
ghost use Rattle.bincode_spec.specs.Meaning.{Choice};
ghost use Rattle.bincode_spec.specs.Words.{after_tag};
ghost use Rattle.bincode_spec.specs.Choices.{IsChoice};
ghost use Rattle.bincode_spec.specs.Allowed.{AllowedWord, WrittenAlike};
ghost use Rattle.bincode_spec.specs.Layers.Meanings.{SameMeanings};
ghost use Rattle.bincode_spec.specs.Encoding.{Encodes};

use crate::enums::Enum;
use bincode_base::error::EncodeError;
use bincode_encode::encode::Encode;
use bincode_encoder::encoder::Encoder;
use bincode_encoder::variants::EncodeTag;

/// Writes the tag of the value's variant, then its part. Errors are those of the writer and of the part.
#[inline(always)]
pub fn encode_variant<T: Enum, A: Encode, E: Encoder>(
    value: &T,
    tag: u32,
    part: &A,
    encoder: &mut E,
) -> Result<(), EncodeError>
    requires picks { WrittenAlike (map_format (Choice tag) (A.words.format E.C.setting))
        (after_tag T.choices.variants E.C.setting tag) }
    requires own_errors { (e : EncodeError) → A.words.own_errors e → T.words.own_errors e }
    requires means { SameMeanings (IsChoice tag (A.words.means part.now)) (T.words.means value.now) }
    requires writable { T.words.writable E.C.setting value.now → A.words.writable E.C.setting part.now }
    ensures { Encodes E.W.adds E.W.refuses E.writer_of E.loans (T.words.writable E.C.setting value.now)
        (AllowedWord (T.words.means value.now) (T.words.format E.C.setting)) T.words.own_errors result encoder.old
        encoder.new }
{
    u32::encode_tag(tag, encoder)?;
    part.encode(encoder)
}
