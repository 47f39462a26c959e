//! A number that is checked after decoding.
ghost use Rattle.std.specs.Prelude.{◌≡◌, ◌==◌, ◌%◌, true};

use bincode::de::{
    BorrowDecode, BorrowDecoder, BorrowedBytes, Decode, Decoder, Sequential, other_error,
};
use bincode::enc::{Encode, Encoder, encode_validated, tell_validated};
use bincode::error::{DecodeError, EncodeError};
use bincode::laws::{Canonical, Exact, Plain, canonical_by_parts, exact_by_parts, plain_by_parts};
use bincode::{HasParts, Validate, Validated, Wire};

/// An even number.
#[derive(Clone, Copy, PartialEq)]
pub struct Even {
    number: u8,
    ghost even: { (number % 2 == 0) ≡ true },
}

impl Validate for Even {
    ghost use Rattle.std.specs.Prelude.{codes};
    ghost use Rattle.bincode.specs.Fault.{Other};
    ghost use Rattle.bincode.specs.Passes.{number_passes};

    type Of = u8;

    ghost of = { λ v. v.number };

    ghost passes = { number_passes (λ n. n % 2 == 0) };

    ghost fault = { Other (codes "odd") };

    fn of(&self) -> &u8 {
        &self.number
    }

    fn validate(number: u8) -> Result<Even, DecodeError> {
        if number % 2 == 0 {
            Ok(Even { number })
        } else {
            Err(other_error("odd"))
        }
    }

    ghost each_passes = { λ v m h. rw h v.even };

    ghost is_no_end = { λ h. h };
}

impl HasParts<Validated<Even>> for Even {
    ghost parts = { λ v. record { 0 = v } };
}

impl Wire for Even {
    ghost use Rattle.bincode.specs.TypeWords.{words_by};

    ghost words = { words_by ⟦<Validated<Even> as Wire>⟧.words ⟦<Even as HasParts<Validated<Even>>>⟧.parts };

    fn claim_size() -> usize {
        Validated::<Even>::claim_size()
    }
}

impl Plain for Even {
    fn tell_plain() {
        plain_by_parts::<Validated<Even>, Even>();
    }
}

impl Exact for Even {
    fn tell_exact() {
        exact_by_parts::<Validated<Even>, Even>();
    }
}

impl Canonical for Even {
    fn tell_canonical() {
        canonical_by_parts::<Validated<Even>, Even>();
    }
}

impl Encode for Even {
    fn tell_valid(&self) {
        tell_validated(self);
    }

    fn encode<E: Encoder>(&self, encoder: &mut E) -> Result<(), EncodeError> {
        encode_validated(self, encoder)
    }
}

impl<Context: Drop> Decode<Context> for Even {
    type Run = Sequential;

    fn decode<D: Decoder<Context = Context>>(decoder: &mut D) -> Result<Even, DecodeError> {
        let passed: Validated<Even> = Decode::decode(decoder)?;
        Ok(passed.0)
    }
}

impl<B: BorrowedBytes, Context: Drop> BorrowDecode<B, Context> for Even {
    type Run = Sequential;

    fn borrow_decode<D: BorrowDecoder<B, Context = Context>>(
        decoder: &mut D,
    ) -> Result<Even, DecodeError> {
        Even::decode(decoder)
    }
}
