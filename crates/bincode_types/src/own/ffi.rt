//! C strings without a closing zero, owned and borrowed.
ghost use Rattle.std.specs.Prelude.{◌≡◌, Some, None, MatchResult};
ghost use Rattle.bincode_spec.specs.NoZero.{first_zero, HasNoZero};
ghost use Rattle.std.proofs.Props.{props};

use std::alloc::AllocError;

/// An owned C string: bytes without a zero.
///
/// It stands for the standard library's `CString`, which stores a closing zero. This one holds the bytes alone, so that
/// it is made of a vector without a copy.
#[derive(Debug, Drop, PartialEq, Eq, PartialOrd, Ord, Hash)]
pub struct CString {
    bytes: Vec<u8>,
    ghost without_zero: { HasNoZero bytes.items } by { Prim.hlevel props },
}

/// A borrowed C string: bytes without a zero. It is passed by value where Rust has `&CStr`.
#[derive(Clone, Copy, Debug, PartialEq, Eq, PartialOrd, Ord, Hash)]
pub struct CStr<'a> {
    bytes: &'a [u8],
    ghost without_zero: { HasNoZero bytes.now } by { Prim.hlevel props },
}

/// The error of bytes that contain a zero, with the bytes.
#[derive(Clone, Debug, Drop, PartialEq, Eq)]
pub struct NulError {
    position: usize,
    bytes: Vec<u8>,
}

/// The index of the first zero byte.
fn first_zero(bytes: &[u8]) -> Option<usize>
    ensures { result ≡ first_zero bytes.now }
{
    bytes.iter().position(|&b| b == 0)
}

impl CString {
    ghost use Rattle.bincode_types.specs.CStrings.{c_string_vec, c_string_bytes, c_str_bytes, nul_place, nul_vec};

    /// Makes a C string of these bytes without a copy; O(n). Fails if one of them is zero, with the index of the first
    /// and with the bytes.
    pub fn new(bytes: Vec<u8>) -> Result<CString, NulError>
        ensures { MatchResult result (λ s. (c_string_vec s ≡ bytes) × HasNoZero bytes.items)
            (λ e. (first_zero bytes.items ≡ Some (nul_place e)) × (nul_vec e ≡ bytes)) }
    {
        match first_zero(&bytes) {
            None => Ok(CString { bytes }),
            Some(position) => Err(NulError { position, bytes }),
        }
    }

    /// The bytes, without a closing zero.
    pub fn as_bytes(&self) -> &[u8]
        ensures bytes { result.now ≡ c_string_bytes self.now }
        ensures without_zero { HasNoZero result.now }
    {
        &self.bytes
    }

    /// Borrows the C string.
    pub fn as_c_str(&self) -> CStr<'_>
        ensures { c_str_bytes result ≡ c_string_bytes self.now }
    {
        CStr { bytes: &self.bytes }
    }

    /// The bytes, without a closing zero.
    pub fn into_bytes(self) -> Vec<u8>
        ensures { result ≡ c_string_vec self }
    {
        self.bytes
    }
}

impl Clone for CString {
    ghost use Rattle.bincode_types.specs.CStrings.{c_string_bytes};

    ghost is_clone = { λ s copy. c_string_bytes copy ≡ c_string_bytes s };

    fn clone(&self) -> Result<CString, AllocError> {
        let bytes = self.bytes.clone()?;
        Ok(CString { bytes })
    }
}

impl<'a> CStr<'a> {
    ghost use Rattle.bincode_types.specs.CStrings.{c_str_bytes};

    /// Borrows these bytes as a C string; O(n). Fails if one of them is zero, with the index of the first.
    pub fn from_bytes(bytes: &'a [u8]) -> Result<CStr<'a>, usize>
        ensures { MatchResult result (λ s. (c_str_bytes s ≡ bytes.now) × HasNoZero bytes.now)
            (λ place. first_zero bytes.now ≡ Some place) }
    {
        match first_zero(bytes) {
            None => Ok(CStr { bytes }),
            Some(place) => Err(place),
        }
    }

    /// The bytes, without a closing zero.
    pub fn to_bytes(self) -> &'a [u8]
        ensures bytes { result.now ≡ c_str_bytes self.entry }
        ensures without_zero { HasNoZero result.now }
    {
        self.bytes
    }
}

impl NulError {
    ghost use Rattle.bincode_types.specs.CStrings.{nul_place, nul_vec};

    /// The index of the first zero byte.
    pub fn nul_position(&self) -> usize
        ensures { result ≡ nul_place self.now }
    {
        self.position
    }

    /// The bytes that were refused.
    pub fn into_vec(self) -> Vec<u8>
        ensures { result ≡ nul_vec self }
    {
        self.bytes
    }
}
