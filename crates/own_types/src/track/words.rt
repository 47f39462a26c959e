//! What the types of `track.rt` are written as. Made from that file by the program `derive`, and not edited: run
//! `derive` on the file again where its types change.

use super::*;
use bincode::de::{Decode, Decoder, Sequential};
use bincode::enc::{Encode, Encoder};
use bincode::error::{DecodeError, EncodeError};
use bincode::laws::{Canonical, Exact, Plain, canonical_by_parts, exact_by_fields, plain_by_parts};
use bincode::{HasParts, Wire};

type TrackParts = (String, Vec<u16>, u8, bool);

impl HasParts<TrackParts> for Track {
    ghost parts = { λ v. (v.title, v.beats, v.side, v.live) };
}

impl Wire for Track {
    ghost use Rattle.bincode.specs.TypeWords.{words_by};

    ghost words = { words_by ⟦<TrackParts as Wire>⟧.words ⟦<Track as HasParts<TrackParts>>⟧.parts };

    fn claim_size() -> usize {
        TrackParts::claim_size()
    }
}

impl Plain for Track {
    fn tell_plain() {
        plain_by_parts::<TrackParts, Track>();
    }
}

impl Exact for Track {
    fn tell_exact() {
        exact_by_fields::<TrackParts, Track, _>();
    }
}

impl Canonical for Track {
    fn tell_canonical() {
        canonical_by_parts::<TrackParts, Track>();
    }
}

impl Encode for Track {
    fn tell_valid(&self) {
        (&self.title, &self.beats, &self.side, &self.live).tell_valid();
    }

    fn encode<E: Encoder>(&self, encoder: &mut E) -> Result<(), EncodeError> {
        (&self.title, &self.beats, &self.side, &self.live).encode(encoder)
    }
}

impl<Context: Drop> Decode<Context> for Track {
    type Run = Sequential;

    fn decode<D: Decoder<Context = Context>>(decoder: &mut D) -> Result<Track, DecodeError> {
        let (title, beats, side, live): TrackParts = Decode::decode(decoder)?;
        Ok(Track {
            title,
            beats,
            side,
            live,
        })
    }
}
