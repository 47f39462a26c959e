//! `ReadValues`: how one element is decoded. The collection decoders are generic over it.
ghost use Rattle.std.specs.Prelude.{◌≡◌, ◌*◌, ◌<◌, length};
ghost use Rattle.std.specs.Option.{MatchOption};
ghost use Rattle.bincode_spec.specs.Answer.{Allows};
ghost use Rattle.bincode_spec.specs.Layers.Releases.{CanRelease};
ghost use Rattle.bincode_spec.specs.Layers.Values.{Reads, RunRead};

use bincode_base::error::DecodeError;
use bincode_decoder::bytes::decode_bytes;
use bincode_decoder::decoder::Decoder;
use bincode_types::wire::Wire;

/// How the values of a type are decoded.
pub trait ReadValues<D: Decoder> {
    /// The type of the values.
    type Value: Wire + Drop + Sized;

    /// Decodes a value, like `Decode::decode`.
    fn read_value(decoder: &mut D) -> Result<Self::Value, DecodeError>
        ensures { Reads D.is_known D.remaining D.charge D.failures D.loans D.C.bound D.R.end_error D.R.device
            Self.Value.words.may_allocate (Self.Value.words.format D.C.setting) Self.Value.words.decodes_to
            (D.charge decoder.old) result decoder.old decoder.new };

    /// How a slice of them is decoded.
    type Run: DecodeRun<Self::Value>;
}

/// How slices of a type's values are decoded.
pub trait DecodeRun<T: Wire> {
    /// An array of default values to decode over, if the type has them. With `None` an array is made through slots,
    /// which takes longer.
    fn blank_array<A: ArrayOf<T>>() -> Option<A>;

    /// Decodes into all of `values` in one read, if the bytes of the values are their encoding. Reads nothing and
    /// returns `None` otherwise. Only `decode_run` calls it.
    fn decode_at_once<D: Decoder>(
        decoder: &mut D,
        values: &mut [T],
    ) -> Option<Result<(), DecodeError>>
        requires { CanRelease D.C.bound (D.charge decoder.old) (length values.old * T.words.claim)
            × Allows D.C.bound (D.charge decoder.old) }
        ensures { MatchOption result (decoder.new ≡ decoder.old) (λ r. RunRead D.is_known D.remaining D.charge
            D.failures D.loans D.C.bound D.R.end_error D.R.device (T.words.may_allocate × (0 < length values.old))
            T.words.claim (T.words.format D.C.setting) T.words.decodes_to (length values.old) (λ _. values.new) r
            decoder.old decoder.new) };
}

/// Values that are decoded one by one: all but numbers and bytes.
pub struct Sequential;

impl<T: Wire> DecodeRun<T> for Sequential {
    #[inline(always)]
    fn blank_array<A: ArrayOf<T>>() -> Option<A> {
        None
    }

    #[inline(always)]
    fn decode_at_once<D: Decoder>(
        decoder: &mut D,
        values: &mut [T],
    ) -> Option<Result<(), DecodeError>> {
        let _ = &*decoder;
        let _ = &*values;
        None
    }
}

/// Values that are decoded one by one over default values: numbers and such.
pub struct OverDefaults;

impl<T: Wire + Default> DecodeRun<T> for OverDefaults {
    #[inline(always)]
    fn blank_array<A: ArrayOf<T>>() -> Option<A> {
        Some(A::of_defaults())
    }

    #[inline(always)]
    fn decode_at_once<D: Decoder>(
        decoder: &mut D,
        values: &mut [T],
    ) -> Option<Result<(), DecodeError>> {
        let _ = &*decoder;
        let _ = &*values;
        None
    }
}

/// Bytes, which are decoded in one read.
pub struct Bulk;

impl DecodeRun<u8> for Bulk {
    #[inline(always)]
    fn blank_array<A: ArrayOf<u8>>() -> Option<A> {
        Some(A::of_defaults())
    }

    #[inline(always)]
    fn decode_at_once<D: Decoder>(
        decoder: &mut D,
        values: &mut [u8],
    ) -> Option<Result<(), DecodeError>> {
        Some(decode_bytes(decoder, values))
    }
}

/// An array of a type's values.
pub trait ArrayOf<T> {
    /// The array of default values.
    fn of_defaults() -> Self
    where
        T: Default;
}

impl<T, const N: usize> ArrayOf<T> for [T; N] {
    #[inline(always)]
    fn of_defaults() -> [T; N]
    where
        T: Default,
    {
        std::array::from_fn(|_index: usize| T::default())
    }
}
