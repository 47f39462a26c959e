//! C strings.

use bincode::ffi::{CStr, CString, NulError};
use std::alloc::Global;
use test_helpers::checks::{borrowed, either, is_written_as, read_word};

/// The encoding of Hello world.
static WORD: [u8; 12] = [11, 72, 101, 108, 108, 111, 32, 119, 111, 114, 108, 100];

/// Row: a C string of twelve bytes.
#[test]
fn keeps_a_c_string(rt: HostRuntime) {
    let alloc = rt.alloc();
    let lent = CStr::from_bytes(b"Hello world").ok();
    assert!(rt; is_written_as(alloc, lent, &WORD) && CStr::from_bytes(&[72, 0, 101]) == Err(1));
    let Some(text) = read_word::<CString>(alloc, &WORD) else {
        assert!(rt; false);
        return;
    };
    assert!(rt; text.as_bytes() == b"Hello world".as_slice() && Some(text.as_c_str()) == lent);
    let Some(copy) = either(text.clone(), text.clone()) else {
        assert!(rt; false);
        return;
    };
    assert!(rt; copy == text && is_written_as(alloc, Some(copy), &WORD));
}

#[test]
fn is_owned_by_borrowed_decoding(rt: HostRuntime) {
    let alloc = rt.alloc();
    let Ok((text, 12)) = borrowed::<CString>(alloc, &WORD) else {
        assert!(rt; false);
        return;
    };
    assert!(rt; text.into_bytes().as_slice() == b"Hello world".as_slice());
}

/// What is refused of bytes with a zero, if memory was there for them.
fn refused(alloc: Global, bytes: &[u8]) -> Option<NulError> {
    let bytes = either(Vec::from_slice(alloc, bytes), Vec::from_slice(alloc, bytes))?;
    CString::new(bytes).err()
}

/// Row: a C string with a zero.
#[test]
fn tells_the_first_zero_of_a_vector(rt: HostRuntime) {
    let Some(fault) = refused(rt.alloc(), &[65, 0, 66]) else {
        assert!(rt; false);
        return;
    };
    assert!(rt; fault.nul_position() == 1 && fault.into_vec().as_slice() == [65, 0, 66].as_slice());
}
