//! Callers that read and write values of a type through its shape. Their proofs use the contracts of the calls alone.
ghost use Rattle.std.specs.Prelude.{◌≡◌, true, OnOk, IfSome, IsSome};
ghost use Rattle.bincode.specs.Describing.{Describes};
ghost use Rattle.bincode_spec.specs.Encoding.{Writes};
ghost use Rattle.bincode_shape.specs.Shapes.{fits};
ghost use Rattle.proved_callers.specs.Shaped.{ReadsAlike, AllowsEachValue, AllowsEachImage};

use bincode::config::Config;
use bincode::de::Decode;
use bincode::enc::Encode;
use bincode::enc::write::Writer;
use bincode::error::{DecodeError, EncodeError};
use bincode::shape::{Described, Shape, Value, decode_shaped, encode_shaped};
use bincode::{Wire, decode_from_slice, encode_into_writer};
use std::alloc::Global;

/// The shape of a type, and the results of decoding a value by type and by shape.
#[derive(Drop)]
pub struct ReadByShape<T> {
    pub shape: Shape,
    pub by_type: Result<(T, usize), DecodeError>,
    pub by_shape: Result<(Value, usize), DecodeError>,
}

/// Decodes a value from a slice in both ways. By shape an image of the value is decoded, from as many bytes and with
/// its meaning, or both errors tell one fault, or one of them is `Memory` where decoding may allocate. `None` only of a
/// type whose shape takes memory.
pub fn read_as_shaped<T: Described + Decode<()>, C: Config>(
    alloc: Global,
    src: &[u8],
    config: C,
) -> Option<ReadByShape<T>>
    ensures describes { IfSome result (λ read. Describes read.shape T.words) }
    ensures alike { IfSome result (λ read. ReadsAlike T.words.decodes_to T.words.may_allocate read.shape read.by_type
        read.by_shape) }
    ensures shaped { (T.shape_grows → ⊥) → IsSome result }
{
    let shape = T::shape(alloc)?;
    let by_type = decode_from_slice(alloc, src, config);
    let by_shape = decode_shaped(alloc, &shape, src, config);
    Some(ReadByShape {
        shape,
        by_type,
        by_shape,
    })
}

/// Encodes an image by a shape that describes the type: the bytes are an encoding of each value of the type with the
/// image's meaning. Errors are those of `encode_shaped`.
pub fn write_as_shaped<T: Wire, W: Writer, C: Config>(
    shape: &Shape,
    image: &Value,
    writer: &mut W,
    config: C,
) -> Result<(), EncodeError>
    requires { Describes shape.now T.words }
    ensures { fits shape.now image.now ≡ true → OnOk result (Writes W.adds (AllowsEachValue C.setting T.words image.now)
        writer.old writer.new) }
{
    encode_shaped(shape, image, writer, config)
}

/// Encodes a value of a type that the shape describes: the bytes are an encoding by shape of each image with the
/// value's meaning. Errors are those of `encode_into_writer`.
pub fn write_as_typed<T: Encode, W: Writer, C: Config>(
    value: &T,
    shape: &Shape,
    writer: &mut W,
    config: C,
) -> Result<(), EncodeError>
    requires { Describes shape.now T.words }
    ensures { OnOk result (Writes W.adds (AllowsEachImage C.setting T.words shape.now value.now) writer.old
        writer.new) }
{
    encode_into_writer(value, writer, config)
}

/// Types whose shapes don't allocate, and so are always `Some`.
pub fn shapes_without_memory()
    ensures nothing { ⟦<() as Described>⟧.shape_grows → ⊥ }
    ensures truth { ⟦<bool as Described>⟧.shape_grows → ⊥ }
    ensures character { ⟦<char as Described>⟧.shape_grows → ⊥ }
    ensures text { ⟦<String as Described>⟧.shape_grows → ⊥ }
    ensures u8 { ⟦<u8 as Described>⟧.shape_grows → ⊥ }
    ensures u16 { ⟦<u16 as Described>⟧.shape_grows → ⊥ }
    ensures u32 { ⟦<u32 as Described>⟧.shape_grows → ⊥ }
    ensures u64 { ⟦<u64 as Described>⟧.shape_grows → ⊥ }
    ensures u128 { ⟦<u128 as Described>⟧.shape_grows → ⊥ }
    ensures usize { ⟦<usize as Described>⟧.shape_grows → ⊥ }
    ensures i8 { ⟦<i8 as Described>⟧.shape_grows → ⊥ }
    ensures i16 { ⟦<i16 as Described>⟧.shape_grows → ⊥ }
    ensures i32 { ⟦<i32 as Described>⟧.shape_grows → ⊥ }
    ensures i64 { ⟦<i64 as Described>⟧.shape_grows → ⊥ }
    ensures i128 { ⟦<i128 as Described>⟧.shape_grows → ⊥ }
    ensures isize { ⟦<isize as Described>⟧.shape_grows → ⊥ }
    ensures pointer { ⟦<Box<u8> as Described>⟧.shape_grows → ⊥ }
{}
