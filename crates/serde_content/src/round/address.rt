//! IP addresses come back.

ghost use Rattle.std.specs.Net.Addr.{IsIpv4Addr, IsIpv6Addr};
ghost use Rattle.serde_content.specs.Laws.Addresses.{ipv4_back, ipv4_keeps, ipv6_back, ipv6_keeps};
ghost use Rattle.serde_content.specs.Laws.Addresses.{IsIpAddr, ip_back, ip_keeps};

use crate::round::RoundTrip;
use std::net::{IpAddr, Ipv4Addr, Ipv6Addr};

impl<'de> RoundTrip<'de> for Ipv4Addr {
    ghost exists = { IsIpv4Addr };

    fn known(&self) {
        let _octets = self.octets();
    }

    ghost comes_back = { ipv4_back };

    ghost keeps = { ipv4_keeps };
}

impl<'de> RoundTrip<'de> for Ipv6Addr {
    ghost exists = { IsIpv6Addr };

    fn known(&self) {
        let _segments = self.segments();
    }

    ghost comes_back = { ipv6_back };

    ghost keeps = { ipv6_keeps };
}

impl<'de> RoundTrip<'de> for IpAddr {
    ghost exists = { IsIpAddr };

    fn known(&self) {
        match self {
            IpAddr::V4(address) => address.known(),
            IpAddr::V6(address) => address.known(),
        }
    }

    ghost comes_back = { ip_back };

    ghost keeps = { ip_keeps };
}
