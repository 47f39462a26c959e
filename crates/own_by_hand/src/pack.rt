//! A list that is decoded by its own claim and loop.
ghost use Rattle.std.specs.Prelude.{◌≡◌, ◌*◌};
ghost use Rattle.bincode.specs.Releases.{CanRelease};
ghost use Rattle.bincode.specs.Values.{RunRead};

use bincode::de::{ClaimContainer, Decode, Decoder, Sequential};
use bincode::enc::{Encode, Encoder};
use bincode::error::{DecodeError, EncodeError};
use bincode::{HasParts, Items, Wire};

/// A list of items in a vector. Its words, and what it charges of a limit, are those of `Vec<T>`.
#[derive(Drop, PartialEq)]
pub struct Pack<T> {
    pub items: Vec<T>,
}

impl<T: Wire> HasParts<Items<T, 24>> for Pack<T> {
    ghost parts = { λ v. record { items = v.items.items } };
}

impl<T: Wire> Wire for Pack<T> {
    ghost use Rattle.bincode.specs.TypeWords.{words_by};

    ghost words = { words_by ⟦<Items<T, 24> as Wire>⟧.words ⟦<Pack<T> as HasParts<Items<T, 24>>>⟧.parts };

    fn claim_size() -> usize {
        24
    }
}

impl<T: Encode> Encode for Pack<T> {
    fn tell_valid(&self) {
        self.items.tell_valid();
    }

    fn encode<E: Encoder>(&self, encoder: &mut E) -> Result<(), EncodeError> {
        self.items.encode(encoder)
    }
}

/// Decodes `len` items whose claims were charged; each is released before its item is read. Fails with the error of an
/// item, or with `Memory` if the allocation is refused.
fn decode_claimed<Context: Drop, T: Decode<Context>, D: Decoder<Context = Context>>(
    decoder: &mut D,
    len: usize,
) -> Result<Pack<T>, DecodeError>
    requires { CanRelease D.C.bound (D.charge decoder.old) (len * T.words.claim) }
    ensures { RunRead D.is_known D.remaining D.charge D.failures D.loans D.C.bound D.R.end_error D.R.device (Unit {0})
        T.words.claim (T.words.format D.C.setting) T.words.decodes_to len (λ v. v.items.items) result decoder.old
        decoder.new }
{
    let Ok(mut items) = Vec::with_capacity(decoder.alloc(), len) else {
        return Err(DecodeError::Memory);
    };
    for _ in 0..len {
        decoder.unclaim_bytes_read(T::claim_size());
        items.push_reserved(T::decode(decoder)?);
    }
    Ok(Pack { items })
}

impl<Context: Drop, T: Decode<Context>> Decode<Context> for Pack<T> {
    type Run = Sequential;

    fn decode<D: Decoder<Context = Context>>(decoder: &mut D) -> Result<Pack<T>, DecodeError> {
        let len = u64::decode(decoder)? as usize;
        decoder.claim_container_read::<T>(len)?;
        decode_claimed(decoder, len)
    }
}
