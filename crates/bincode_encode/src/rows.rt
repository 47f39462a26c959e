//! Rows of references: what tuples are encoded as.
ghost use Rattle.bincode_spec.specs.Allowed.{AllowedWord};
ghost use Rattle.bincode_spec.specs.Encoding.{Encodes};

use crate::encode::Encode;
use crate::runs::ByEncode;
use bincode_base::error::EncodeError;
use bincode_encoder::encoder::Encoder;
use bincode_encoder::room::most_of_both;
use bincode_encoder::runs::WriteValues;
use bincode_types::rows::{Cons, Cons4, Tail};
use bincode_types::wire::Wire;

/// A row whose maximum size may be known.
pub trait MostOfRow {
    /// The maximum size in bytes under fixed integers, as `Encode::MAX_FIXED_SIZE`.
    const MOST: Option<usize>;
}

impl MostOfRow for () {
    const MOST: Option<usize> = Some(0);
}

impl<A: Encode, Others: MostOfRow> MostOfRow for Cons<A, Others> {
    const MOST: Option<usize> = most_of_both(A::MAX_FIXED_SIZE, Others::MOST);
}

impl<A: Encode, B: Encode, C: Encode, D: Encode, Others: MostOfRow> MostOfRow
    for Cons4<A, B, C, D, Others> {
    const MOST: Option<usize> = most_of_both(
        most_of_both(A::MAX_FIXED_SIZE, B::MAX_FIXED_SIZE),
        most_of_both(C::MAX_FIXED_SIZE, <Cons<D, Others> as MostOfRow>::MOST),
    );
}

/// A row of references to parts. Not an `Encode`, since the proof for a tuple would then prove, of each reference, all
/// that `Encode` stands on, which takes long.
pub trait EncodeRow: Drop {
    /// The row of the parts themselves.
    type Parts: Wire + Tail;

    /// The parts that are referred to.
    ghost borrowed_parts: { Self → Self.Parts };

    /// Writes the encoding of the parts, like `Encode::encode`.
    fn encode_row<E: Encoder>(&self, encoder: &mut E) -> Result<(), EncodeError>
        ensures { Encodes E.W.adds E.W.refuses E.writer_of E.loans
            (Self.Parts.words.writable E.C.setting (Self.borrowed_parts self.now))
            (AllowedWord (Self.Parts.words.means (Self.borrowed_parts self.now)) (Self.Parts.words.format E.C.setting))
            Self.Parts.words.own_errors result encoder.old encoder.new };
}

// All are inlined: LLVM takes a call after several `?` for a rare one, and a call returns its result through memory.

impl EncodeRow for () {
    type Parts = ();

    ghost borrowed_parts = { λ v. v };

    #[inline(always)]
    fn encode_row<E: Encoder>(&self, encoder: &mut E) -> Result<(), EncodeError> {
        self.encode(encoder)
    }
}

/// A part and the tail: another row, or `()`.
#[derive(Drop)]
pub struct ConsRef<'a, A, Others>(pub &'a A, pub Others);

impl<'a, A: Encode, Others: EncodeRow> EncodeRow for ConsRef<'a, A, Others> {
    type Parts = Cons<A, Others::Parts>;

    ghost borrowed_parts = { λ v. record { 0 = v.0.now; 1 = Others.borrowed_parts v.1 } };

    #[inline(always)]
    fn encode_row<E: Encoder>(&self, encoder: &mut E) -> Result<(), EncodeError> {
        ByEncode::<A>::write_value(self.0, encoder)?;
        self.1.encode_row(encoder)
    }
}

/// Four parts and the tail.
#[derive(Drop)]
pub struct Cons4Ref<'a, A, B, C, D, Others>(pub &'a A, pub &'a B, pub &'a C, pub &'a D, pub Others);

impl<'a, A: Encode, B: Encode, C: Encode, D: Encode, Others: EncodeRow> EncodeRow
    for Cons4Ref<'a, A, B, C, D, Others> {
    type Parts = Cons4<A, B, C, D, Others::Parts>;

    ghost borrowed_parts = { λ v. record {
      0 = v.0.now;
      1 = v.1.now;
      2 = v.2.now;
      3 = v.3.now;
      4 = Others.borrowed_parts
          v.4;
    } };

    #[inline(always)]
    fn encode_row<E: Encoder>(&self, encoder: &mut E) -> Result<(), EncodeError> {
        ByEncode::<A>::write_value(self.0, encoder)?;
        ByEncode::<B>::write_value(self.1, encoder)?;
        ByEncode::<C>::write_value(self.2, encoder)?;
        ByEncode::<D>::write_value(self.3, encoder)?;
        self.4.encode_row(encoder)
    }
}
