//! IP addresses: out of texts where they are human readable, and else out of their octets.

ghost use Rattle.std.specs.Prelude.{◌⊎◌, IfErr};
ghost use Rattle.content_tree.specs.Errors.Where.{under};
ghost use Rattle.std.specs.Net.Grammar.{IsIpText, IsIpv4Text, IsIpv6Text};
ghost use Rattle.content_de.specs.Reads.Addresses.{ip_refusal, ip_text_refusal, IpGives};
ghost use Rattle.content_de.specs.Reads.Addresses.{ipv4_refusal, ipv4_text_refusal, Ipv4Gives};
ghost use Rattle.content_de.specs.Reads.Addresses.{ipv6_refusal, ipv6_text_refusal, Ipv6Gives};
ghost use Rattle.content_de.specs.Reads.Addresses.{version_refusal, IsVersion};
ghost use Rattle.content_de.specs.Reads.Paths.{BeginsWith, IsWhole};
ghost use Rattle.content_de.specs.Reads.Read.{Reads};
ghost use Rattle.content_de.specs.Accesses.Enum.{variant_view};

use crate::deserialize::Deserialize;
use crate::deserializer::Deserializer;
use crate::refusal::custom;
use crate::unknown_names::unknown_variant;
use crate::variant_access::VariantAccess;
use content_tree::{CowStr, Result};
use std::alloc::Global;
use std::net::{IpAddr, Ipv4Addr, Ipv6Addr};

/// The text of an IPv4 address, or an array of four octets.
impl<'de> Deserialize<'de> for Ipv4Addr {
    ghost refusal = { ipv4_refusal };

    ghost gives = { Ipv4Gives };

    fn deserialize<'n: 'de>(alloc: Global, from: Deserializer<'de, 'n>) -> Result<Ipv4Addr> {
        if from.is_human_readable() {
            let text = from.deserialize_str(alloc)?;
            return parse_ipv4(alloc, text.as_str());
        }
        Ok(Ipv4Addr::from_octets(<[u8; 4]>::deserialize(alloc, from)?))
    }
}

/// The text of an IPv6 address, or an array of sixteen octets.
impl<'de> Deserialize<'de> for Ipv6Addr {
    ghost refusal = { ipv6_refusal };

    ghost gives = { Ipv6Gives };

    fn deserialize<'n: 'de>(alloc: Global, from: Deserializer<'de, 'n>) -> Result<Ipv6Addr> {
        if from.is_human_readable() {
            let text = from.deserialize_str(alloc)?;
            return parse_ipv6(alloc, text.as_str());
        }
        Ok(Ipv6Addr::from_octets(<[u8; 16]>::deserialize(alloc, from)?))
    }
}

/// The text of an address, or a variant of the enum `IpAddr`: `V4` or `V6`.
impl<'de> Deserialize<'de> for IpAddr {
    ghost refusal = { ip_refusal };

    ghost gives = { IpGives };

    fn deserialize<'n: 'de>(alloc: Global, from: Deserializer<'de, 'n>) -> Result<IpAddr> {
        if from.is_human_readable() {
            let text = from.deserialize_str(alloc)?;
            return parse_ip(alloc, text.as_str());
        }
        let access = from.deserialize_enum(alloc, "IpAddr", &["V4", "V6"])?;
        let (tag, variant) = access.variant::<CowStr<'de>>(alloc)?;
        read_version(alloc, tag.as_str(), variant)
    }
}

/// The address that the variant of this name holds.
fn read_version<'de, 'n: 'de>(
    alloc: Global,
    version: &str,
    variant: VariantAccess<'de, 'n>,
) -> Result<IpAddr>
    ensures value { Reads (version_refusal version.now (variant_view variant.entry))
        (λ address. IsVersion version.now (variant_view variant.entry) address) result }
    ensures path { IfErr result (λ e. IsWhole e ⊎ BeginsWith (under version.now) e) }
{
    match version {
        "V4" => match variant.newtype_variant(alloc) {
            Ok(address) => Ok(IpAddr::V4(address)),
            Err(error) => Err(error.at_name(alloc, "V4")),
        },
        "V6" => match variant.newtype_variant(alloc) {
            Ok(address) => Ok(IpAddr::V6(address)),
            Err(error) => Err(error.at_name(alloc, "V6")),
        },
        other => {
            drop(variant);
            Err(unknown_variant(alloc, other, &["V4", "V6"]))
        }
    }
}

/// The IPv4 address that the text writes.
fn parse_ipv4(alloc: Global, text: &str) -> Result<Ipv4Addr>
    ensures { Reads (ipv4_text_refusal text.now) (IsIpv4Text text.now) result }
{
    match text.parse() {
        Ok(address) => Ok(address),
        Err(_) => Err(custom(alloc, "invalid IPv4 address syntax")),
    }
}

/// The IPv6 address that the text writes.
fn parse_ipv6(alloc: Global, text: &str) -> Result<Ipv6Addr>
    ensures { Reads (ipv6_text_refusal text.now) (IsIpv6Text text.now) result }
{
    match text.parse() {
        Ok(address) => Ok(address),
        Err(_) => Err(custom(alloc, "invalid IPv6 address syntax")),
    }
}

/// The address that the text writes.
fn parse_ip(alloc: Global, text: &str) -> Result<IpAddr>
    ensures { Reads (ip_text_refusal text.now) (IsIpText text.now) result }
{
    match text.parse() {
        Ok(address) => Ok(address),
        Err(_) => Err(custom(alloc, "invalid IP address syntax")),
    }
}
