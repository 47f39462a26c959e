//! What the types of `report.rt` are written as. Made from that file by the program `derive`, and not edited: run
//! `derive` on the file again where its types change.

use super::*;
use bincode::de::{Decode, Decoder, FromParts, Sequential, decode_by_parts};
use bincode::enc::{Encode, Encoder};
use bincode::error::{DecodeError, EncodeError};
use bincode::laws::{Canonical, Exact, Plain, canonical_by_parts, exact_by_fields, plain_by_parts};
use bincode::{HasParts, Wire};

type ReportParts = (
    (u32, u64, bool, String),
    (i16, u16, u8, u32),
    (u16, u16, u8, u16),
);

impl HasParts<ReportParts> for Report {
    ghost parts = { λ v. (
      (v.station, v.second, v.looked_at, v.words),
      (v.temperature, v.pressure, v.humidity, v.rain),
      (v.wind_speed, v.wind_direction, v.cloud, v.sight),
    ) };
}

impl Wire for Report {
    ghost use Rattle.bincode.specs.TypeWords.{words_by};

    ghost words = { words_by ⟦<ReportParts as Wire>⟧.words ⟦<Report as HasParts<ReportParts>>⟧.parts };

    fn claim_size() -> usize {
        ReportParts::claim_size()
    }
}

impl Plain for Report {
    fn tell_plain() {
        plain_by_parts::<ReportParts, Report>();
    }
}

impl Exact for Report {
    fn tell_exact() {
        exact_by_fields::<ReportParts, Report, _>();
    }
}

impl Canonical for Report {
    fn tell_canonical() {
        canonical_by_parts::<ReportParts, Report>();
    }
}

impl Encode for Report {
    fn tell_valid(&self) {
        (
            (&self.station, &self.second, &self.looked_at, &self.words),
            (
                &self.temperature,
                &self.pressure,
                &self.humidity,
                &self.rain,
            ),
            (
                &self.wind_speed,
                &self.wind_direction,
                &self.cloud,
                &self.sight,
            ),
        )
            .tell_valid();
    }

    fn encode<E: Encoder>(&self, encoder: &mut E) -> Result<(), EncodeError> {
        (
            (&self.station, &self.second, &self.looked_at, &self.words),
            (
                &self.temperature,
                &self.pressure,
                &self.humidity,
                &self.rain,
            ),
            (
                &self.wind_speed,
                &self.wind_direction,
                &self.cloud,
                &self.sight,
            ),
        )
            .encode(encoder)
    }
}

impl FromParts<ReportParts> for Report {
    fn from_parts(parts: ReportParts) -> Report {
        let (
            (station, second, looked_at, words),
            (temperature, pressure, humidity, rain),
            (wind_speed, wind_direction, cloud, sight),
        ) = parts;
        Report {
            station,
            second,
            looked_at,
            words,
            temperature,
            pressure,
            humidity,
            rain,
            wind_speed,
            wind_direction,
            cloud,
            sight,
        }
    }
}

impl<Context: Drop> Decode<Context> for Report {
    type Run = Sequential;

    fn decode<D: Decoder<Context = Context>>(decoder: &mut D) -> Result<Report, DecodeError> {
        decode_by_parts::<ReportParts, Report, D>(decoder)
    }
}
