//! Addresses with a port, by address and port.

use std::net::{Ipv6Addr, SocketAddrV6};

/// The parts of a `SocketAddrV6`.
#[derive(Clone, Copy)]
pub struct Socket {
    pub ip: Ipv6Addr,
    pub port: u16,
    pub flow: u32,
    pub scope: u32,
}

/// The encoding of ::1 with the port 12345.
pub(crate) const SOCKET: [u8; 19] = [0, 0, 0, 0, 0, 0, 0, 0, 0, 0, 0, 0, 0, 0, 0, 1, 251, 57, 48];

/// The address with these parts.
pub(crate) fn address_of(socket: Socket) -> SocketAddrV6 {
    SocketAddrV6::new(socket.ip, socket.port, socket.flow, socket.scope)
}
