//! `Wire` for texts: UTF-8 (RFC 3629).
ghost use Rattle.std.specs.Prelude.{◌≡◌, length, refl};
ghost use Rattle.std.specs.String.{string_bytes, string_capacity};
ghost use Rattle.std.specs.Box.{boxed_str_bytes};
ghost use Rattle.std.specs.Rc.{rc_str_bytes};
ghost use Rattle.std.specs.Cow.{cow_str_bytes};

use crate::by_parts::{ByParts, SameParts};
use crate::texts::TextBytes;
use std::borrow::CowStr;
use std::boxed::BoxedStr;
use std::rc::RcStr;

impl ByParts for String {
    type Parts = TextBytes<24, true>;

    ghost parts = { λ v. record { bytes = string_bytes v } };

    // A decoded text has no spare capacity.
    ghost promise = { λ v. record {
      OfValue = string_capacity v ≡ length (string_bytes v);
      Promised = λ of_parts. of_parts × (string_capacity v ≡ length (string_bytes v));
      keeps = λ of_parts h. h.0;
      joins = λ of_parts alone h. (h, alone);
    } };
}

impl SameParts<TextBytes<24, true>> for String {
    ghost same_parts = { λ v w. refl };
}

impl ByParts for &str {
    type Parts = TextBytes<16, false>;

    ghost parts = { λ v. record { bytes = v.now } };
}

impl SameParts<TextBytes<16, false>> for &str {
    ghost same_parts = { λ v w. refl };
}

impl ByParts for BoxedStr {
    type Parts = TextBytes<16, true>;

    ghost parts = { λ v. record { bytes = boxed_str_bytes v } };
}

impl SameParts<TextBytes<16, true>> for BoxedStr {
    ghost same_parts = { λ v w. refl };
}

impl ByParts for RcStr {
    type Parts = TextBytes<16, true>;

    ghost parts = { λ v. record { bytes = rc_str_bytes v } };
}

impl SameParts<TextBytes<16, true>> for RcStr {
    ghost same_parts = { λ v w. refl };
}

impl ByParts for CowStr<'_> {
    type Parts = TextBytes<24, true>;

    ghost parts = { λ v. record { bytes = cow_str_bytes v } };
}

impl SameParts<TextBytes<24, true>> for CowStr<'_> {
    ghost same_parts = { λ v w. refl };
}
