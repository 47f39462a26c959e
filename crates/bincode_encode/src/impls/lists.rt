//! Encoding of lists, and of heaps.
ghost use Rattle.bincode_spec.specs.Collections.{AreValid};

use crate::encode::Encode;
use crate::encode_parts::EncodeParts;
use crate::runs::ByEncode;
use bincode_base::error::EncodeError;
use bincode_encoder::answers::rebuild_result;
use bincode_encoder::encoder::Encoder;
use bincode_encoder::lists::{encode_deque, encode_heap, encode_list, tell_list_valid};
use bincode_encoder::runs::tell_each_valid;
use std::borrow::CowSlice;
use std::boxed::BoxedSlice;
use std::collections::{BinaryHeap, VecDeque};
use std::rc::RcSlice;

impl<T: Encode> Encode for Vec<T> {
    fn tell_valid(&self) {
        tell_list_valid::<ByEncode<T>>(self);
    }

    #[inline(always)]
    fn encode<E: Encoder>(&self, encoder: &mut E) -> Result<(), EncodeError> {
        rebuild_result(encode_list::<ByEncode<T>, E>(self, encoder))
    }
}

/// Proves that each item of a queue is valid and that its length fits 64 bits. Walks the items: O(n).
fn tell_deque_valid<T: Encode>(queue: &VecDeque<T>)
    ensures { AreValid T.words.valid queue.now.items }
{
    let _len = queue.len();
    let (first, second) = queue.as_slices();
    tell_each_valid::<ByEncode<T>>(first);
    tell_each_valid::<ByEncode<T>>(second);
}

impl<T: Encode> EncodeParts for VecDeque<T> {
    fn tell_valid_parts(&self) {
        tell_deque_valid(self);
    }

    #[inline(always)]
    fn encode_parts<E: Encoder>(&self, encoder: &mut E) -> Result<(), EncodeError> {
        encode_deque::<ByEncode<T>, E>(self, encoder)
    }
}

impl<T: Encode> Encode for &[T] {
    fn tell_valid(&self) {
        tell_list_valid::<ByEncode<T>>(self);
    }

    #[inline(always)]
    fn encode<E: Encoder>(&self, encoder: &mut E) -> Result<(), EncodeError> {
        rebuild_result(encode_list::<ByEncode<T>, E>(self, encoder))
    }
}

impl<T: Encode> EncodeParts for BoxedSlice<T> {
    fn tell_valid_parts(&self) {
        tell_list_valid::<ByEncode<T>>(self);
    }

    #[inline(always)]
    fn encode_parts<E: Encoder>(&self, encoder: &mut E) -> Result<(), EncodeError> {
        encode_list::<ByEncode<T>, E>(self, encoder)
    }
}

impl<T: Encode> EncodeParts for RcSlice<T> {
    fn tell_valid_parts(&self) {
        tell_list_valid::<ByEncode<T>>(self);
    }

    #[inline(always)]
    fn encode_parts<E: Encoder>(&self, encoder: &mut E) -> Result<(), EncodeError> {
        encode_list::<ByEncode<T>, E>(self, encoder)
    }
}

impl<T: Encode> EncodeParts for CowSlice<'_, T> {
    fn tell_valid_parts(&self) {
        tell_list_valid::<ByEncode<T>>(self);
    }

    #[inline(always)]
    fn encode_parts<E: Encoder>(&self, encoder: &mut E) -> Result<(), EncodeError> {
        encode_list::<ByEncode<T>, E>(self, encoder)
    }
}

impl<T: Encode + Ord> EncodeParts for BinaryHeap<T> {
    fn tell_valid_parts(&self) {
        tell_list_valid::<ByEncode<T>>(self.as_slice());
    }

    #[inline(always)]
    fn encode_parts<E: Encoder>(&self, encoder: &mut E) -> Result<(), EncodeError> {
        encode_heap::<ByEncode<T>, E>(self, encoder)
    }
}
