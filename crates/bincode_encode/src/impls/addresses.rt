//! Encoding of addresses.
use crate::encode::Encode;
use crate::encode_parts::EncodeParts;
use crate::variants::encode_variant;
use bincode_base::error::EncodeError;
use bincode_encoder::encoder::Encoder;
use bincode_encoder::octets::{encode_octets, encode_socket};
use std::net::{IpAddr, Ipv4Addr, Ipv6Addr, SocketAddr, SocketAddrV4, SocketAddrV6};

impl EncodeParts for Ipv4Addr {
    fn tell_valid_parts(&self) {
        let _octets = self.octets();
    }

    #[inline]
    fn encode_parts<E: Encoder>(&self, encoder: &mut E) -> Result<(), EncodeError> {
        encode_octets(encoder, &self.octets())
    }
}

impl EncodeParts for Ipv6Addr {
    fn tell_valid_parts(&self) {
        self.octets().tell_valid();
    }

    #[inline]
    fn encode_parts<E: Encoder>(&self, encoder: &mut E) -> Result<(), EncodeError> {
        encode_octets(encoder, &self.octets())
    }
}

impl EncodeParts for IpAddr {
    fn tell_valid_parts(&self) {
        match self {
            IpAddr::V4(address) => address.tell_valid(),
            IpAddr::V6(address) => address.tell_valid(),
        }
    }

    fn encode_parts<E: Encoder>(&self, encoder: &mut E) -> Result<(), EncodeError> {
        match self {
            IpAddr::V4(address) => encode_variant(self, 0, address, encoder),
            IpAddr::V6(address) => encode_variant(self, 1, address, encoder),
        }
    }
}

impl EncodeParts for SocketAddrV4 {
    fn tell_valid_parts(&self) {
        (*self.ip(), self.port()).tell_valid();
    }

    fn encode_parts<E: Encoder>(&self, encoder: &mut E) -> Result<(), EncodeError> {
        encode_socket(encoder, &self.ip().octets(), self.port())
    }
}

impl EncodeParts for SocketAddrV6 {
    fn tell_valid_parts(&self) {
        (*self.ip(), self.port()).tell_valid();
    }

    fn encode_parts<E: Encoder>(&self, encoder: &mut E) -> Result<(), EncodeError> {
        encode_socket(encoder, &self.ip().octets(), self.port())
    }
}

impl EncodeParts for SocketAddr {
    fn tell_valid_parts(&self) {
        match self {
            SocketAddr::V4(address) => address.tell_valid(),
            SocketAddr::V6(address) => address.tell_valid(),
        }
    }

    fn encode_parts<E: Encoder>(&self, encoder: &mut E) -> Result<(), EncodeError> {
        match self {
            SocketAddr::V4(address) => encode_variant(self, 0, address, encoder),
            SocketAddr::V6(address) => encode_variant(self, 1, address, encoder),
        }
    }
}
