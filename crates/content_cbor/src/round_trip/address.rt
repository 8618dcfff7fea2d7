//! IP addresses come back from CBOR.

ghost use Rattle.content_cbor.specs.Typed.Addresses.{ip_kept, ip_not_null};
ghost use Rattle.content_cbor.specs.Typed.Addresses.{ipv4_kept, ipv4_not_null};
ghost use Rattle.content_cbor.specs.Typed.Addresses.{ipv6_kept, ipv6_not_null};

use crate::round_trip::{CborRoundTrip, NotNull};
use std::net::{IpAddr, Ipv4Addr, Ipv6Addr};

impl<'de> CborRoundTrip<'de> for Ipv4Addr {
    ghost kept = { ipv4_kept };
}

impl<'de> NotNull<'de> for Ipv4Addr {
    ghost refuses_null = { ipv4_not_null };
}

impl<'de> CborRoundTrip<'de> for Ipv6Addr {
    ghost kept = { ipv6_kept };
}

impl<'de> NotNull<'de> for Ipv6Addr {
    ghost refuses_null = { ipv6_not_null };
}

impl<'de> CborRoundTrip<'de> for IpAddr {
    ghost kept = { ip_kept };
}

impl<'de> NotNull<'de> for IpAddr {
    ghost refuses_null = { ip_not_null };
}
