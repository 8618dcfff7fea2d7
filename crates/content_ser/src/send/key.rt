//! The keys of fields.

#![tactic(auto, using(crate::proofs::Sending::sending))]

ghost use Rattle.std.specs.Prelude.{◌≡◌, IfOk, string_bytes};
ghost use Rattle.content_tree.specs.Values.Text.{text_of};
ghost use Rattle.content_ser.specs.Scripts.Sends.{Sends};
ghost use Rattle.content_ser.specs.Sending.TreeScript.{key_script, owned_key_text};

use crate::serializer::Serializer;
use content_tree::{CowStr, Error, ErrorKind, Found, Result};
use std::alloc::{AllocError, Global};

/// The text of the error that a field's key is owned.
fn owned_key_message(alloc: Global, key: &str) -> std::result::Result<String, AllocError>
    ensures { IfOk result (λ message. string_bytes message ≡ owned_key_text key.now) }
{
    let found = Found::String(String::from_str(alloc, key)?);
    format!(in alloc; "failed to deserialize; expected a static string slice, found {found}")
}

/// Sends the key of a field, where it is static; where it is owned it makes no call and says so.
pub fn send_key<S: Serializer>(
    key: &CowStr<'static>,
    alloc: Global,
    serializer: &mut S,
) -> Result<()>
    ensures { Sends S.step S.refuses (S.seen serializer.old)
        (λ readable. key_script (text_of key.now)) result (S.seen serializer.new) }
{
    match key {
        CowStr::Borrowed(key) => serializer.serialize_field(key),
        CowStr::Owned(key) => {
            let message = owned_key_message(alloc, key.as_str())?;
            Err(Error::from(ErrorKind::Custom(message)))
        }
    }
}
