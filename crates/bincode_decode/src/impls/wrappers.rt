//! Decoding of wrappers.
use crate::make_by_parts::MakeByParts;
use std::cmp::Reverse;
use std::marker::PhantomData;
use std::num::Wrapping;

impl<T> MakeByParts for Wrapping<T> {
    fn make_by_parts(parts: T) -> Wrapping<T> {
        Wrapping(parts)
    }
}

impl<T> MakeByParts for Reverse<T> {
    fn make_by_parts(parts: T) -> Reverse<T> {
        Reverse(parts)
    }
}

impl<T> MakeByParts for PhantomData<T> {
    fn make_by_parts(_parts: ()) -> PhantomData<T> {
        PhantomData
    }
}
