//! Encoding of `Duration`.
use crate::encode::Encode;
use bincode_base::error::EncodeError;
use bincode_encoder::encoder::Encoder;
use bincode_types::own::time::Duration;

impl Encode for Duration {
    fn tell_valid(&self) {
        let _secs = self.as_secs();
        let _nanos = self.subsec_nanos();
    }

    fn encode<E: Encoder>(&self, encoder: &mut E) -> Result<(), EncodeError> {
        (self.as_secs(), self.subsec_nanos()).encode(encoder)
    }
}
