//! What a case wants of a decoded value.

use crate::addresses::{Socket, address_of};
use bincode::ffi::CString;
use bincode::time::Duration;
use std::collections::BTreeMap;
use std::net::SocketAddrV6;
use std::num::NonZeroU16;

/// What a case wants a decoded value to be.
pub(crate) trait Wanted<T> {
    fn is_met_by(&self, value: &T) -> bool;
}

impl<T: PartialEq> Wanted<T> for T {
    fn is_met_by(&self, value: &T) -> bool {
        value == self
    }
}

/// The number of a `NonZeroU16`.
impl Wanted<NonZeroU16> for u16 {
    fn is_met_by(&self, value: &NonZeroU16) -> bool {
        value.get() == *self
    }
}

/// The seconds and nanoseconds of a `Duration`.
impl Wanted<Duration> for (u64, u32) {
    fn is_met_by(&self, value: &Duration) -> bool {
        value.as_secs() == self.0 && value.subsec_nanos() == self.1
    }
}

impl Wanted<String> for &'static str {
    fn is_met_by(&self, value: &String) -> bool {
        value.as_str() == *self
    }
}

/// The bytes of a C string.
impl Wanted<CString> for &'static [u8] {
    fn is_met_by(&self, value: &CString) -> bool {
        value.as_bytes() == *self
    }
}

/// The items of a list.
impl Wanted<Vec<u32>> for &'static [u32] {
    fn is_met_by(&self, value: &Vec<u32>) -> bool {
        value.as_slice() == *self
    }
}

/// The items of a list.
impl Wanted<Vec<Option<()>>> for &'static [Option<()>] {
    fn is_met_by(&self, value: &Vec<Option<()>>) -> bool {
        value.as_slice() == *self
    }
}

/// The lists of a list.
impl Wanted<Vec<Vec<u8>>> for &'static [&'static [u8]] {
    fn is_met_by(&self, value: &Vec<Vec<u8>>) -> bool {
        value.len() == self.len()
            && value
                .iter()
                .zip(self.iter())
                .all(|(list, wanted)| list.as_slice() == *wanted)
    }
}

/// The length of a list without bytes.
impl Wanted<Vec<()>> for usize {
    fn is_met_by(&self, value: &Vec<()>) -> bool {
        value.len() == *self
    }
}

/// The entries of a map.
impl Wanted<BTreeMap<u8, u8>> for &'static [(u8, u8)] {
    fn is_met_by(&self, value: &BTreeMap<u8, u8>) -> bool {
        value.len() == self.len()
            && self
                .iter()
                .all(|entry| value.get(&entry.0) == Some(&entry.1))
    }
}

/// The parts of an address.
impl Wanted<SocketAddrV6> for Socket {
    fn is_met_by(&self, value: &SocketAddrV6) -> bool {
        *value == address_of(*self)
    }
}
