//! Encoding of cells.
use crate::encode::Encode;
use bincode_base::error::EncodeError;
use bincode_encoder::cells::borrowed_cell;
use bincode_encoder::encoder::Encoder;
use std::cell::{Cell, RefCell};

impl<T: Encode + Copy> Encode for Cell<T> {
    fn tell_valid(&self) {}

    fn encode<E: Encoder>(&self, encoder: &mut E) -> Result<(), EncodeError> {
        let value = self.get();
        value.tell_valid();
        value.encode(encoder)
    }
}

impl<T: Encode> Encode for RefCell<T> {
    fn tell_valid(&self) {}

    fn encode<E: Encoder>(&self, encoder: &mut E) -> Result<(), EncodeError> {
        let Ok(guard) = self.try_borrow() else {
            return Err(borrowed_cell());
        };
        let value = &*guard;
        value.tell_valid();
        value.encode(encoder)
    }
}
