//! How fields of `by_functions` are read and sent.

ghost use Rattle.content_ser.specs.Scripts.Sends.{Sends};
ghost use Rattle.content_de.specs.Sources.Deserializer.{subject};
ghost use Rattle.content_de.specs.Reads.Read.{Reads};
ghost use Rattle.check_fields.specs.Rules.{deserialize_refusal, DeserializeGives, serialize_script};
ghost use Rattle.check_fields.specs.Rules.{read_text_refusal, ReadTextGives, send_text_script};

use serde_content::de::Deserialize;
use serde_content::ser::Serializer;
use serde_content::{Deserializer, Result};
use std::alloc::Global;

/// Reads a flag out of a number: whether that is not 0.
pub fn deserialize<'de, 'n: 'de>(alloc: Global, from: Deserializer<'de, 'n>) -> Result<bool>
    ensures { Reads (deserialize_refusal (subject from.entry))
        (DeserializeGives (subject from.entry)) result }
{
    let number: u8 = Deserialize::deserialize(alloc, from)?;
    Ok(number != 0)
}

/// Sends a flag as a word.
#[tactic(auto, using(content_ser::proofs::Sending::sending))]
pub fn serialize<S: Serializer>(value: &bool, _alloc: Global, serializer: &mut S) -> Result<()>
    ensures { Sends S.step S.refuses (S.seen serializer.old) (serialize_script value.now) result
        (S.seen serializer.new) }
{
    if *value {
        serializer.serialize_str("yes")
    } else {
        serializer.serialize_str("no")
    }
}

/// Reads a text.
pub fn read_text<'de, 'n: 'de>(alloc: Global, from: Deserializer<'de, 'n>) -> Result<Option<String>>
    ensures { Reads (read_text_refusal (subject from.entry)) (ReadTextGives (subject from.entry))
        result }
{
    let text: String = Deserialize::deserialize(alloc, from)?;
    Ok(Some(text))
}

/// Sends a text, an empty one where there is none.
#[tactic(auto, using(content_ser::proofs::Sending::sending))]
pub fn send_text<S: Serializer>(
    value: &Option<String>,
    _alloc: Global,
    serializer: &mut S,
) -> Result<()>
    ensures { Sends S.step S.refuses (S.seen serializer.old) (send_text_script value.now) result
        (S.seen serializer.new) }
{
    match value {
        Some(text) => serializer.serialize_str(text.as_str()),
        None => serializer.serialize_str(""),
    }
}
