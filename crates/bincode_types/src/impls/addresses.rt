//! `Wire` for addresses: their octets, the first one first (RFC 791, RFC 4291).
ghost use Rattle.std.specs.Prelude.{◌≡◌, refl};
ghost use Rattle.std.specs.Net.Addr.{ipv4_octets, ipv6_octets, ipv6_segments};
ghost use Rattle.std.specs.Net.Socket.{v4_ip, v4_port, v6_ip, v6_port, v6_flowinfo, v6_scope_id};
ghost use Rattle.bincode_types.specs.Addresses.{segments-alike};

use crate::by_parts::{ByParts, SameParts};
use crate::octets::Octets;
use crate::sums::{EnumOf, NoMoreVariants, VariantOf};
use std::net::{IpAddr, Ipv4Addr, Ipv6Addr, SocketAddr, SocketAddrV4, SocketAddrV6};

impl ByParts for Ipv4Addr {
    type Parts = Octets<4>;

    ghost parts = { λ v. record { octets = ipv4_octets v } };
}

impl SameParts<Octets<4>> for Ipv4Addr {
    ghost same_parts = { λ v w. refl };
}

impl ByParts for Ipv6Addr {
    type Parts = Octets<16>;

    ghost parts = { λ v. record { octets = ipv6_octets v } };
}

impl SameParts<Octets<16>> for Ipv6Addr {
    ghost same_parts = { λ v w. segments-alike (ipv6_segments v) (ipv6_segments w) };
}

type IpParts = EnumOf<VariantOf<0, Ipv4Addr, VariantOf<1, Ipv6Addr, NoMoreVariants<IpAddr>>>>;

impl ByParts for IpAddr {
    ghost use Rattle.std.specs.declared.net.ip_addr.IpAddr.TheVariants.{V4, V6};
    ghost use Rattle.bincode_types.specs.declared.sums.VariantOf.TheVariants.{This, Other};

    type Parts = IpParts;

    ghost parts = { elim [ V4 v ↦ record { 0 = This v } | V6 v ↦ record { 0 = Other (This v) } ] };
}

impl SameParts<IpParts> for IpAddr {
    ghost use Rattle.std.specs.declared.net.ip_addr.IpAddr.TheVariants.{V4, V6};

    ghost same_parts = { elim [
      | V4 v ↦ elim [ V4 w ↦ refl | V6 w ↦ refl ]
      | V6 v ↦ elim [ V4 w ↦ refl | V6 w ↦ refl ]
    ] };
}

impl ByParts for SocketAddrV4 {
    type Parts = (Ipv4Addr, u16);

    ghost parts = { λ v. (v4_ip v, v4_port v) };
}

impl SameParts<(Ipv4Addr, u16)> for SocketAddrV4 {
    ghost same_parts = { λ v w. refl };
}

// Not `SameParts`: the flow label and the scope id are not encoded, and `==` compares them.
impl ByParts for SocketAddrV6 {
    type Parts = (Ipv6Addr, u16);

    ghost parts = { λ v. (v6_ip v, v6_port v) };

    // A decoded address has flow label 0 and scope id 0.
    ghost promise = { λ v. record {
      OfValue = (v6_flowinfo v ≡ 0) × (v6_scope_id v ≡ 0);
      Promised = λ of_parts. (v6_flowinfo v ≡ 0) × (v6_scope_id v ≡ 0) × of_parts;
      keeps = λ of_parts h. h.2;
      joins = λ of_parts alone h. (alone.0, alone.1, h);
    } };
}

impl ByParts for SocketAddr {
    ghost use Rattle.std.specs.declared.net.socket_addr.SocketAddr.TheVariants.{V4, V6};
    ghost use Rattle.bincode_types.specs.declared.sums.VariantOf.TheVariants.{This, Other};

    type Parts = EnumOf<
        VariantOf<0, SocketAddrV4, VariantOf<1, SocketAddrV6, NoMoreVariants<SocketAddr>>>,
    >;

    ghost parts = { elim [ V4 v ↦ record { 0 = This v } | V6 v ↦ record { 0 = Other (This v) } ] };
}
