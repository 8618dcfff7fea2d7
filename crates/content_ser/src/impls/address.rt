//! IP addresses: as texts where the serialiser is human readable, and else by their octets.

#![tactic(auto, using(crate::proofs::Sending::sending, crate::proofs::Making::making))]

ghost use Rattle.content_ser.specs.Scripts.Addresses.{ip_script, ipv4_script, ipv6_script};
ghost use Rattle.content_ser.specs.Laws.Addresses.{ip_lawful, ipv4_lawful, ipv6_lawful};

use crate::call::Call;
use crate::direct::{Made, made_printed};
use crate::parts::Parts;
use crate::serialize::Serialize;
use crate::serializer::Serializer;
use content_tree::Result;
use std::alloc::Global;
use std::net::{IpAddr, Ipv4Addr, Ipv6Addr};

impl Serialize for Ipv4Addr {
    ghost script = { ipv4_script };

    ghost lawful = { ipv4_lawful };

    fn serialize<S: Serializer>(&self, alloc: Global, serializer: &mut S) -> Result<()> {
        if serializer.is_human_readable() {
            return serializer.collect_str(alloc, self);
        }
        let octets: [u8; 4] = self.octets();
        octets.serialize(alloc, serializer)
    }

    #[inline(always)]
    fn is_direct() -> bool {
        true
    }

    fn direct<'v, 'n>(&self, alloc: Global, readable: bool, room: usize) -> Made<'v, 'n> {
        if readable {
            return made_printed(alloc, self);
        }
        let parts: [u8; 4] = self.octets();
        parts.direct(alloc, readable, room)
    }
}

impl Serialize for Ipv6Addr {
    ghost script = { ipv6_script };

    ghost lawful = { ipv6_lawful };

    fn serialize<S: Serializer>(&self, alloc: Global, serializer: &mut S) -> Result<()> {
        if serializer.is_human_readable() {
            return serializer.collect_str(alloc, self);
        }
        let octets: [u8; 16] = self.octets();
        octets.serialize(alloc, serializer)
    }

    #[inline(always)]
    fn is_direct() -> bool {
        true
    }

    fn direct<'v, 'n>(&self, alloc: Global, readable: bool, room: usize) -> Made<'v, 'n> {
        if readable {
            return made_printed(alloc, self);
        }
        let parts: [u8; 16] = self.octets();
        parts.direct(alloc, readable, room)
    }
}

impl Serialize for IpAddr {
    ghost script = { ip_script };

    ghost lawful = { ip_lawful };

    fn serialize<S: Serializer>(&self, alloc: Global, serializer: &mut S) -> Result<()> {
        if serializer.is_human_readable() {
            return serializer.collect_str(alloc, self);
        }
        match self {
            IpAddr::V4(address) => {
                Call::NewtypeVariant("IpAddr", 0, "V4").around(address, alloc, serializer)
            }
            IpAddr::V6(address) => {
                Call::NewtypeVariant("IpAddr", 1, "V6").around(address, alloc, serializer)
            }
        }
    }

    #[inline(always)]
    fn is_direct() -> bool {
        true
    }

    fn direct<'v, 'n>(&self, alloc: Global, readable: bool, room: usize) -> Made<'v, 'n> {
        if readable {
            return made_printed(alloc, self);
        }
        match self {
            IpAddr::V4(address) => {
                Call::NewtypeVariant("IpAddr", 0, "V4").direct_around(
                    address, alloc, readable, room,
                )
            }
            IpAddr::V6(address) => {
                Call::NewtypeVariant("IpAddr", 1, "V6").direct_around(
                    address, alloc, readable, room,
                )
            }
        }
    }
}
