//! Decoding of addresses.
ghost use Rattle.std.specs.Prelude.{◌≡◌};
ghost use Rattle.std.specs.Net.Addr.{ipv6_octets};

use crate::borrow_decode::BorrowDecode;
use crate::decode::Decode;
use crate::make_by_parts::MakeByParts;
use bincode_base::error::DecodeError;
use bincode_collections::values::Sequential;
use bincode_decoder::decoder::{BorrowDecoder, BorrowedBytes, Decoder};
use bincode_decoder::octets::decode_octets;
use bincode_types::octets::Octets;
use bincode_types::sums::VariantOf;
use std::net::{IpAddr, Ipv4Addr, Ipv6Addr, SocketAddr, SocketAddrV4, SocketAddrV6};

impl<Context: Drop, const N: usize> Decode<Context> for Octets<N> {
    type Run = Sequential;

    #[inline]
    fn decode<D: Decoder<Context = Context>>(decoder: &mut D) -> Result<Octets<N>, DecodeError> {
        decode_octets(decoder)
    }
}

impl<B: BorrowedBytes, Context: Drop, const N: usize> BorrowDecode<B, Context> for Octets<N> {
    type Run = Sequential;

    #[inline]
    fn borrow_decode<D: BorrowDecoder<B, Context = Context>>(
        decoder: &mut D,
    ) -> Result<Octets<N>, DecodeError> {
        decode_octets(decoder)
    }
}

impl MakeByParts for Ipv4Addr {
    fn make_by_parts(parts: Octets<4>) -> Ipv4Addr {
        Ipv4Addr::from_octets(parts.octets)
    }
}

/// The address with these octets.
#[inline]
fn address_of(octets: &[u8; 16]) -> Ipv6Addr
    ensures { ipv6_octets result ≡ octets.now }
{
    Ipv6Addr::from_octets(*octets)
}

impl MakeByParts for Ipv6Addr {
    fn make_by_parts(parts: Octets<16>) -> Ipv6Addr {
        address_of(&parts.octets)
    }
}

impl MakeByParts for IpAddr {
    fn make_by_parts(parts: Self::Parts) -> IpAddr {
        match parts.0 {
            VariantOf::This(address) => IpAddr::V4(address),
            VariantOf::Other(VariantOf::This(address)) => IpAddr::V6(address),
        }
    }
}

impl MakeByParts for SocketAddrV4 {
    fn make_by_parts((ip, port): (Ipv4Addr, u16)) -> SocketAddrV4 {
        SocketAddrV4::new(ip, port)
    }
}

impl MakeByParts for SocketAddrV6 {
    fn make_by_parts((ip, port): (Ipv6Addr, u16)) -> SocketAddrV6 {
        SocketAddrV6::new(ip, port, 0, 0)
    }
}

impl MakeByParts for SocketAddr {
    fn make_by_parts(parts: Self::Parts) -> SocketAddr {
        match parts.0 {
            VariantOf::This(address) => SocketAddr::V4(address),
            VariantOf::Other(VariantOf::This(address)) => SocketAddr::V6(address),
        }
    }
}
