//! `Wire` for lists.
ghost use Rattle.std.specs.Prelude.{◌≡◌, length, vec_capacity, refl};
ghost use Rattle.std.specs.Box.{boxed_slice_items};
ghost use Rattle.std.specs.Cow.{cow_slice_items};
ghost use Rattle.std.specs.Rc.{rc_slice_items};

use crate::by_parts::{ByParts, SameParts};
use crate::laws::Exact;
use crate::lists::{Items, ListItems};
use std::borrow::CowSlice;
use std::boxed::BoxedSlice;
use std::collections::VecDeque;
use std::rc::RcSlice;

impl<T> ByParts for Vec<T> {
    type Parts = Items<T, 24>;

    ghost parts = { λ v. record { items = v.items } };

    // A decoded vector has no spare capacity.
    ghost promise = { λ v. record {
      OfValue = vec_capacity v ≡ length v.items;
      Promised = λ of_parts. of_parts × (vec_capacity v ≡ length v.items);
      keeps = λ of_parts h. h.0;
      joins = λ of_parts alone h. (h, alone);
    } };
}

impl<T: Exact> SameParts<Items<T, 24>> for Vec<T> {
    ghost same_parts = { λ v w. refl };
}

impl<T> ByParts for VecDeque<T> {
    type Parts = Items<T, 24>;

    ghost parts = { λ v. record { items = v.items } };
}

impl<T: Exact> SameParts<Items<T, 24>> for VecDeque<T> {
    ghost same_parts = { λ v w. refl };
}

impl<T> ByParts for &[T] {
    type Parts = ListItems<T, 16, false>;

    ghost parts = { λ v. record { items = v.now } };
}

impl<T: Exact> SameParts<ListItems<T, 16, false>> for &[T] {
    ghost same_parts = { λ v w. refl };
}

impl<T> ByParts for BoxedSlice<T> {
    type Parts = Items<T, 16>;

    ghost parts = { λ v. record { items = boxed_slice_items v } };
}

impl<T: Exact> SameParts<Items<T, 16>> for BoxedSlice<T> {
    ghost same_parts = { λ v w. refl };
}

impl<T> ByParts for RcSlice<T> {
    type Parts = Items<T, 16>;

    ghost parts = { λ v. record { items = rc_slice_items v } };
}

impl<T: Exact> SameParts<Items<T, 16>> for RcSlice<T> {
    ghost same_parts = { λ v w. refl };
}

impl<T> ByParts for CowSlice<'_, T> {
    type Parts = Items<T, 24>;

    ghost parts = { λ v. record { items = cow_slice_items v } };
}

impl<T: Exact> SameParts<Items<T, 24>> for CowSlice<'_, T> {
    ghost same_parts = { λ v w. refl };
}
