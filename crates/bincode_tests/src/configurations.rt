//! Building configurations part by part, and how they are printed.

use bincode::config::{self, Config, Endianness, IntEncoding};
use std::alloc::{AllocError, Global};
use test_helpers::checks::either;

#[test]
fn changes_each_part(rt: HostRuntime) {
    let back = config::standard()
        .with_big_endian()
        .with_fixed_int_encoding()
        .with_limit::<7>()
        .with_little_endian()
        .with_variable_int_encoding()
        .with_no_limit();
    assert!(rt;
        back.endianness() == Endianness::Little
            && back.int_encoding() == IntEncoding::Variable
            && back.limit() == None
    );
}

/// How a configuration is printed.
fn printed(alloc: Global) -> Result<String, AllocError> {
    let limited = config::legacy().with_limit::<7>();
    format!(in alloc; "{limited:?}")
}

#[test]
fn prints_its_parts(rt: HostRuntime) {
    let Some(text) = either(printed(rt.alloc()), printed(rt.alloc())) else {
        assert!(rt; false);
        return;
    };
    assert!(rt;
        text.as_str() == "Configuration { endian: Little, int_encoding: Fixed, limit: Some(7) }"
    );
}
