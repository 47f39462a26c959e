//! Addresses. A socket is read and written by the types of its parts.

use crate::asserts::rows_hold;
use crate::encodings::is_encoded;
use bincode::config;
use std::alloc::{AllocError, Global};
use std::collections::BTreeMap;
use std::net::{IpAddr, Ipv4Addr, Ipv6Addr, SocketAddr, SocketAddrV4, SocketAddrV6};
use test_helpers::checks::{either, keeps, read_word, refuses_tag};

/// The word of an address of six.
static SIX: [u8; 17] = [1, 1, 2, 3, 4, 5, 6, 7, 8, 9, 10, 11, 12, 13, 14, 15, 16];

/// The same, and a port.
static SOCKET: [u8; 18] = [1, 1, 2, 3, 4, 5, 6, 7, 8, 9, 10, 11, 12, 13, 14, 15, 16, 80];

#[test]
fn keeps_addresses_and_names_a_tag_that_none_has(rt: HostRuntime) {
    let alloc = rt.alloc();
    let socket = SocketAddr::V4(SocketAddrV4::new(Ipv4Addr::LOCALHOST, 80));
    let big = config::legacy().with_big_endian();
    rows_hold(
        &rt,
        &[
            (
                "an address with a port",
                is_encoded(&socket, &[0, 127, 0, 0, 1, 80], config::standard()),
            ),
            (
                "an address with a port, legacy and big endian",
                is_encoded(&socket, &[0, 0, 0, 0, 127, 0, 0, 1, 0, 80], big),
            ),
            (
                "sockets of both kinds",
                keeps::<SocketAddr>(alloc, &[0, 1, 2, 3, 4, 80])
                    && keeps::<SocketAddr>(alloc, &SOCKET),
            ),
            (
                "a socket of no kind",
                refuses_tag::<SocketAddr>(alloc, 2, "SocketAddr", 1),
            ),
            ("an address of six", keeps::<IpAddr>(alloc, &SIX)),
        ],
    );
}

/// Twice the address ::1 with the port 1, each followed by a number.
static TWICE: [u8; 37] = [
    2, 0, 0, 0, 0, 0, 0, 0, 0, 0, 0, 0, 0, 0, 0, 0, 1, 1, 10, 0, 0, 0, 0, 0, 0, 0, 0, 0, 0, 0, 0,
    0, 0, 0, 1, 1, 20,
];

/// ::1 with the port 1 and this scope.
fn scoped(scope: u32) -> SocketAddrV6 {
    SocketAddrV6::new(Ipv6Addr::LOCALHOST, 1, 0, scope)
}

/// Two addresses that differ in their scope alone, 10 to the first and 20 to the second.
fn scopes(alloc: Global) -> Result<BTreeMap<SocketAddrV6, u8>, AllocError> {
    let mut map = BTreeMap::new(alloc);
    map.insert(scoped(2), 20)?;
    map.insert(scoped(1), 10)?;
    Ok(map)
}

/// Whether keys that differ by their scope are encoded twice, and decoded as one without a scope.
fn reads_one_key(alloc: Global) -> bool {
    let map = either(scopes(alloc), scopes(alloc));
    let read: Option<BTreeMap<SocketAddrV6, u8>> = read_word(alloc, &TWICE);
    match (map, read) {
        (Some(map), Some(read)) => {
            is_encoded(&map, &TWICE, config::standard())
                && read.len() == 1
                && read.get(&scoped(0)) == Some(&20)
        }
        _ => false,
    }
}

/// Row: scopes as keys.
#[test]
fn leaves_scopes_out(rt: HostRuntime) {
    assert!(rt; reads_one_key(rt.alloc()));
}
