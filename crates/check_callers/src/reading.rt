//! Values read by requests.

ghost use Rattle.std.specs.Prelude.{◌≡◌, ◌≢◌, ◌<◌, IfOk, IfErr, IsOk, IsErr};
ghost use Rattle.content_tree.specs.Errors.Cause.{nameless, out_of_memory, unexpected};
ghost use Rattle.content_tree.specs.Images.Image as image;
ghost use Rattle.content_tree.specs.declared.expected.Expected.TheVariants as want;
ghost use Rattle.content_de.specs.Outcomes.{cause};

use serde_content::{Deserializer, Result, Value};
use std::alloc::Global;

/// A number that fits a byte, read as one with coercion: it is taken, and so it takes no memory; a
/// greater one is refused.
pub fn as_byte(alloc: Global, number: u64) -> Result<u8>
    ensures same { IfOk result (λ byte. byte ≡ number) }
    ensures taken { number < 256 → IsOk result }
    ensures refused { IsOk result → number < 256 }
{
    let value: Value<'static> = Value::from(number);
    Deserializer::new(value)
        .coerce_numbers()
        .deserialize_u8(alloc)
}

/// A boolean read as a unit: refused, and the error says what was found and what was expected.
pub fn boolean_as_unit(alloc: Global, boolean: bool) -> Result<()>
    ensures refused { IsErr result }
    ensures misfit { IfErr result (λ e. cause e ≢ out_of_memory
        → cause e ≡ unexpected (image.boolean boolean) (nameless want.Unit)) }
{
    let value: Value<'static> = Value::from(boolean);
    Deserializer::new(value).deserialize_unit(alloc)
}
