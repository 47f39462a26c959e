//! `Wire` for C strings.
ghost use Rattle.std.specs.Prelude.{◌≡◌, length, refl, vec_capacity};
ghost use Rattle.bincode_types.specs.CStrings.{c_string_vec, c_string_bytes, c_str_bytes};

use crate::by_parts::{ByParts, SameParts};
use crate::c_strings::BytesWithoutZero;
use crate::own::ffi::{CStr, CString};

impl ByParts for CString {
    type Parts = BytesWithoutZero<24, true>;

    ghost parts = { λ v. record { bytes = c_string_bytes v } };

    // A decoded C string has no spare capacity.
    ghost promise = { λ v. record {
      OfValue = vec_capacity (c_string_vec v) ≡ length (c_string_bytes v);
      Promised = λ of_parts. of_parts × (vec_capacity (c_string_vec v) ≡ length (c_string_bytes v));
      keeps = λ of_parts h. h.0;
      joins = λ of_parts alone h. (h, alone);
    } };
}

impl SameParts<BytesWithoutZero<24, true>> for CString {
    ghost same_parts = { λ v w. refl };
}

impl ByParts for CStr<'_> {
    type Parts = BytesWithoutZero<16, false>;

    ghost parts = { λ v. record { bytes = c_str_bytes v } };
}

impl SameParts<BytesWithoutZero<16, false>> for CStr<'_> {
    ghost same_parts = { λ v w. refl };
}
