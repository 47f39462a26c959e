//! Integers of 2, 4, 8 or 16 bytes, in either integer encoding.
#![tactic(auto, using(crate::proofs::Words::by_number))]

ghost use Rattle.std.specs.Prelude.{ℕ, refl};
ghost use Rattle.bincode_base.specs.declared.error.IntegerType.TheVariants.{U16, U32, U64, U128, Usize, I16, I32, I64};
ghost use Rattle.bincode_base.specs.declared.error.IntegerType.TheVariants.{I128, Isize};
ghost use Rattle.bincode_spec.specs.Integers.{Two, Four, Eight, Sixteen};
ghost use Rattle.bincode_spec.specs.Layers.Spelling.{Spelling, unsigned_spelling, signed_spelling};
ghost use Rattle.bincode_lemmas.specs.SpellingLaws.{SpellingLaws, unsigned_spelling-laws, signed_spelling-laws};
ghost use Rattle.bincode_spec.specs.Layers.Pieces.{TakesPieces};
ghost use Rattle.bincode_spec.specs.Layers.Reads.{ReadsWord};

use crate::bytes::{
    bytes_of_i16, bytes_of_i32, bytes_of_i64, bytes_of_i128, bytes_of_u16, bytes_of_u32,
    bytes_of_u64, bytes_of_u128, read_u16, read_u32, read_u64, read_u128,
};
use crate::read::Reader;
use crate::varint::{
    varint_decode_i16, varint_decode_i32, varint_decode_i64, varint_decode_i128,
    varint_decode_isize, varint_decode_u16, varint_decode_u32, varint_decode_u64,
    varint_decode_u128, varint_decode_usize, varint_encode_i16, varint_encode_i32,
    varint_encode_i64, varint_encode_i128, varint_encode_isize, varint_encode_u16,
    varint_encode_u32, varint_encode_u64, varint_encode_u128, varint_encode_usize,
};
use crate::write::Writer;
use bincode_base::config::{Endianness, IntEncoding};
use bincode_base::error::{DecodeError, EncodeError};

/// An integer of 2, 4, 8 or 16 bytes: a varint, or all its bytes in the byte order (docs/FORMAT.md, section 4).
pub trait Integer: Drop + Sized {
    /// The width in bytes: 8 for `usize` and `isize`.
    ghost width: { ℕ };

    /// Its encodings, and which of them is written.
    ghost spelling: { Spelling Self };

    /// Each value is written in one way, as one of its encodings.
    ghost spelling_laws: { SpellingLaws width spelling };

    /// Decodes an integer, also from a varint that is longer than the shortest. Fails if bytes are missing, with
    /// `InvalidIntegerType` if the tag byte of a varint is too wide for the type or reserved, or with the error of the
    /// device. Then a prefix of the bytes is consumed, unless the error is one that the device does not count.
    fn read<R: Reader>(
        read: &mut R,
        endian: Endianness,
        encoding: IntEncoding,
    ) -> Result<Self, DecodeError>
        ensures { ReadsWord R.is_known R.remaining R.failures R.loans R.end_error R.device
            (spelling.read_by endian encoding) (λ v. v) result read.old read.new };

    /// Writes an integer: a varint as its tag byte and then its bytes, a fixed one in one piece. If the writer refuses
    /// a piece, those before it stay written.
    fn write<W: Writer>(
        self,
        writer: &mut W,
        endian: Endianness,
        encoding: IntEncoding,
    ) -> Result<(), EncodeError>
        ensures { TakesPieces W.adds W.refuses W.loans (spelling.written endian encoding self)
            (spelling.pieces endian encoding self)
            result writer.old writer.new };
}

impl Integer for u16 {
    ghost width = { 2 };

    ghost spelling = { unsigned_spelling U16 2 };

    ghost spelling_laws = { unsigned_spelling-laws U16 2 };

    #[inline(always)]
    fn read<R: Reader>(
        read: &mut R,
        endian: Endianness,
        encoding: IntEncoding,
    ) -> Result<u16, DecodeError> {
        match encoding {
            IntEncoding::Variable => varint_decode_u16(read, endian),
            IntEncoding::Fixed => read_u16(read, endian),
        }
    }

    #[inline(always)]
    fn write<W: Writer>(
        self,
        writer: &mut W,
        endian: Endianness,
        encoding: IntEncoding,
    ) -> Result<(), EncodeError> {
        match encoding {
            IntEncoding::Variable => varint_encode_u16(writer, endian, self),
            IntEncoding::Fixed => writer.write(&bytes_of_u16(endian, self)),
        }
    }
}

impl Integer for u32 {
    ghost width = { 4 };

    ghost spelling = { unsigned_spelling U32 4 };

    ghost spelling_laws = { unsigned_spelling-laws U32 4 };

    #[inline(always)]
    fn read<R: Reader>(
        read: &mut R,
        endian: Endianness,
        encoding: IntEncoding,
    ) -> Result<u32, DecodeError> {
        match encoding {
            IntEncoding::Variable => varint_decode_u32(read, endian),
            IntEncoding::Fixed => read_u32(read, endian),
        }
    }

    #[inline(always)]
    fn write<W: Writer>(
        self,
        writer: &mut W,
        endian: Endianness,
        encoding: IntEncoding,
    ) -> Result<(), EncodeError> {
        match encoding {
            IntEncoding::Variable => varint_encode_u32(writer, endian, self),
            IntEncoding::Fixed => writer.write(&bytes_of_u32(endian, self)),
        }
    }
}

impl Integer for u64 {
    ghost width = { 8 };

    ghost spelling = { unsigned_spelling U64 8 };

    ghost spelling_laws = { unsigned_spelling-laws U64 8 };

    #[inline(always)]
    fn read<R: Reader>(
        read: &mut R,
        endian: Endianness,
        encoding: IntEncoding,
    ) -> Result<u64, DecodeError> {
        match encoding {
            IntEncoding::Variable => varint_decode_u64(read, endian),
            IntEncoding::Fixed => read_u64(read, endian),
        }
    }

    #[inline(always)]
    fn write<W: Writer>(
        self,
        writer: &mut W,
        endian: Endianness,
        encoding: IntEncoding,
    ) -> Result<(), EncodeError> {
        match encoding {
            IntEncoding::Variable => varint_encode_u64(writer, endian, self),
            IntEncoding::Fixed => writer.write(&bytes_of_u64(endian, self)),
        }
    }
}

impl Integer for u128 {
    ghost width = { 16 };

    ghost spelling = { unsigned_spelling U128 16 };

    ghost spelling_laws = { unsigned_spelling-laws U128 16 };

    #[inline(always)]
    fn read<R: Reader>(
        read: &mut R,
        endian: Endianness,
        encoding: IntEncoding,
    ) -> Result<u128, DecodeError> {
        match encoding {
            IntEncoding::Variable => varint_decode_u128(read, endian),
            IntEncoding::Fixed => read_u128(read, endian),
        }
    }

    #[inline(always)]
    fn write<W: Writer>(
        self,
        writer: &mut W,
        endian: Endianness,
        encoding: IntEncoding,
    ) -> Result<(), EncodeError> {
        match encoding {
            IntEncoding::Variable => varint_encode_u128(writer, endian, self),
            IntEncoding::Fixed => writer.write(&bytes_of_u128(endian, self)),
        }
    }
}

impl Integer for usize {
    ghost width = { 8 };

    ghost spelling = { unsigned_spelling Usize 8 };

    ghost spelling_laws = { unsigned_spelling-laws Usize 8 };

    #[inline(always)]
    fn read<R: Reader>(
        read: &mut R,
        endian: Endianness,
        encoding: IntEncoding,
    ) -> Result<usize, DecodeError> {
        match encoding {
            IntEncoding::Variable => varint_decode_usize(read, endian),
            IntEncoding::Fixed => Ok(read_u64(read, endian)? as usize),
        }
    }

    #[inline(always)]
    fn write<W: Writer>(
        self,
        writer: &mut W,
        endian: Endianness,
        encoding: IntEncoding,
    ) -> Result<(), EncodeError> {
        match encoding {
            IntEncoding::Variable => varint_encode_usize(writer, endian, self),
            IntEncoding::Fixed => writer.write(&bytes_of_u64(endian, self as u64)),
        }
    }
}

impl Integer for i16 {
    ghost width = { 2 };

    ghost spelling = { signed_spelling I16 2 };

    ghost spelling_laws = { signed_spelling-laws I16 2 (Two refl) };

    #[inline(always)]
    fn read<R: Reader>(
        read: &mut R,
        endian: Endianness,
        encoding: IntEncoding,
    ) -> Result<i16, DecodeError> {
        match encoding {
            IntEncoding::Variable => varint_decode_i16(read, endian),
            IntEncoding::Fixed => Ok(read_u16(read, endian)?.cast_signed()),
        }
    }

    #[inline(always)]
    fn write<W: Writer>(
        self,
        writer: &mut W,
        endian: Endianness,
        encoding: IntEncoding,
    ) -> Result<(), EncodeError> {
        match encoding {
            IntEncoding::Variable => varint_encode_i16(writer, endian, self),
            IntEncoding::Fixed => writer.write(&bytes_of_i16(endian, self)),
        }
    }
}

impl Integer for i32 {
    ghost width = { 4 };

    ghost spelling = { signed_spelling I32 4 };

    ghost spelling_laws = { signed_spelling-laws I32 4 (Four refl) };

    #[inline(always)]
    fn read<R: Reader>(
        read: &mut R,
        endian: Endianness,
        encoding: IntEncoding,
    ) -> Result<i32, DecodeError> {
        match encoding {
            IntEncoding::Variable => varint_decode_i32(read, endian),
            IntEncoding::Fixed => Ok(read_u32(read, endian)?.cast_signed()),
        }
    }

    #[inline(always)]
    fn write<W: Writer>(
        self,
        writer: &mut W,
        endian: Endianness,
        encoding: IntEncoding,
    ) -> Result<(), EncodeError> {
        match encoding {
            IntEncoding::Variable => varint_encode_i32(writer, endian, self),
            IntEncoding::Fixed => writer.write(&bytes_of_i32(endian, self)),
        }
    }
}

impl Integer for i64 {
    ghost width = { 8 };

    ghost spelling = { signed_spelling I64 8 };

    ghost spelling_laws = { signed_spelling-laws I64 8 (Eight refl) };

    #[inline(always)]
    fn read<R: Reader>(
        read: &mut R,
        endian: Endianness,
        encoding: IntEncoding,
    ) -> Result<i64, DecodeError> {
        match encoding {
            IntEncoding::Variable => varint_decode_i64(read, endian),
            IntEncoding::Fixed => Ok(read_u64(read, endian)?.cast_signed()),
        }
    }

    #[inline(always)]
    fn write<W: Writer>(
        self,
        writer: &mut W,
        endian: Endianness,
        encoding: IntEncoding,
    ) -> Result<(), EncodeError> {
        match encoding {
            IntEncoding::Variable => varint_encode_i64(writer, endian, self),
            IntEncoding::Fixed => writer.write(&bytes_of_i64(endian, self)),
        }
    }
}

impl Integer for i128 {
    ghost width = { 16 };

    ghost spelling = { signed_spelling I128 16 };

    ghost spelling_laws = { signed_spelling-laws I128 16 (Sixteen refl) };

    #[inline(always)]
    fn read<R: Reader>(
        read: &mut R,
        endian: Endianness,
        encoding: IntEncoding,
    ) -> Result<i128, DecodeError> {
        match encoding {
            IntEncoding::Variable => varint_decode_i128(read, endian),
            IntEncoding::Fixed => Ok(read_u128(read, endian)?.cast_signed()),
        }
    }

    #[inline(always)]
    fn write<W: Writer>(
        self,
        writer: &mut W,
        endian: Endianness,
        encoding: IntEncoding,
    ) -> Result<(), EncodeError> {
        match encoding {
            IntEncoding::Variable => varint_encode_i128(writer, endian, self),
            IntEncoding::Fixed => writer.write(&bytes_of_i128(endian, self)),
        }
    }
}

impl Integer for isize {
    ghost width = { 8 };

    ghost spelling = { signed_spelling Isize 8 };

    ghost spelling_laws = { signed_spelling-laws Isize 8 (Eight refl) };

    #[inline(always)]
    fn read<R: Reader>(
        read: &mut R,
        endian: Endianness,
        encoding: IntEncoding,
    ) -> Result<isize, DecodeError> {
        match encoding {
            IntEncoding::Variable => varint_decode_isize(read, endian),
            IntEncoding::Fixed => Ok(read_u64(read, endian)?.cast_signed() as isize),
        }
    }

    #[inline(always)]
    fn write<W: Writer>(
        self,
        writer: &mut W,
        endian: Endianness,
        encoding: IntEncoding,
    ) -> Result<(), EncodeError> {
        match encoding {
            IntEncoding::Variable => varint_encode_isize(writer, endian, self),
            IntEncoding::Fixed => writer.write(&bytes_of_i64(endian, self as i64)),
        }
    }
}
