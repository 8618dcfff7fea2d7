//! Types that are read and not sent: what is told of their values.

use crate::answer::{refusal, shown};
use check_derive::places::Depot;
use check_fields::left_over::{Algorithm, Chat, Key, Lock, Package, Post};
use serde_content::de::Deserialize;
use serde_content::{Deserializer, Result};
use std::alloc::Global;

/// A type of which parts are told.
pub trait Parts: Drop {
    /// The parts, as they print when they are sent.
    fn parts(&self, alloc: Global) -> Result<String>;
}

/// The answer about a type of which parts are told.
pub fn tell<'de, 'n: 'de, T: Parts + Deserialize<'de>>(
    alloc: Global,
    from: Deserializer<'de, 'n>,
) -> Result<String> {
    let read = from.deserialize::<T>(alloc);
    let text = match &read {
        Ok(value) => value.parts(alloc),
        Err(error) => refusal(alloc, error),
    };
    drop(read);
    text
}

/// The name.
impl Parts for Depot {
    fn parts(&self, alloc: Global) -> Result<String> {
        shown(alloc, &self.name)
    }
}

/// The name, the other keys and the year.
impl Parts for Package {
    fn parts(&self, alloc: Global) -> Result<String> {
        shown(alloc, &(&self.name, &self.other_keys, self.first_year))
    }
}

/// How many bits a key has, if it isn't a curve.
fn bits(algorithm: &Algorithm) -> Option<u32> {
    match algorithm {
        Algorithm::Rsa { bits } => Some(*bits),
        Algorithm::Curve(_) => None,
    }
}

/// The number, the usage and the bits.
impl Parts for Key {
    fn parts(&self, alloc: Global) -> Result<String> {
        shown(
            alloc,
            &(self.common.id, &self.common.usage, bits(&self.algorithm)),
        )
    }
}

/// The number, and the bits of the algorithm, if there is one.
impl Parts for Lock {
    fn parts(&self, alloc: Global) -> Result<String> {
        shown(alloc, &(self.id, self.algorithm.as_ref().map(bits)))
    }
}

/// The number, and the variant of the chat with what that holds.
impl Parts for Post {
    fn parts(&self, alloc: Global) -> Result<String> {
        match &self.chat {
            Chat::Public { title } => shown(alloc, &(self.id, "Public", title)),
            Chat::Private(curve) => shown(alloc, &(self.id, "Private", &curve.crv)),
            Chat::Other(entries) => shown(alloc, &(self.id, "Other", entries)),
        }
    }
}
