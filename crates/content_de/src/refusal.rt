//! Errors of what was found where something else was expected.

ghost use Rattle.std.specs.Prelude.{◌≡◌, ◌≢◌, IfOk, IfErr, MatchResult};
ghost use Rattle.content_tree.specs.Errors.Kind.{IsOutOfMemory, kind_of};
ghost use Rattle.content_tree.specs.Errors.Cause.{custom, expectation_of, out_of_memory};
ghost use Rattle.content_tree.specs.declared.error.ErrorKind.TheVariants as kind;
ghost use Rattle.content_de.specs.Outcomes.{cause};
ghost use Rattle.content_de.specs.Reads.Paths.{IsWhole};
ghost use Rattle.content_de.specs.Requests.Names.{a_struct, an_enum, a_variant};

use content_tree::{DataType, Error, Expected, Found, Result};
use std::alloc::Global;

/// The error of an image and an expectation, or of what could not be made of them.
pub(crate) fn refusal(found: Result<Found>, expected: Result<Expected>) -> Error
    ensures { MatchResult found
        (λ f. MatchResult expected (λ e. kind_of result ≡ kind.Unexpected f e) (λ e. result ≡ e))
        (λ e. result ≡ e) }
{
    match found {
        Err(error) => error,
        Ok(found) => match expected {
            Err(error) => error,
            Ok(expected) => Error::unexpected(found, expected),
        },
    }
}

/// A struct of this name and type.
pub(crate) fn a_struct(alloc: Global, name: &str, typ: DataType) -> Result<Expected>
    ensures value { IfOk result (λ e. expectation_of e ≡ a_struct name.now typ) }
    ensures memory { IfErr result (λ e. IsOutOfMemory e) }
{
    Ok(Expected::Struct {
        name: Some(String::from_str(alloc, name)?),
        typ: Some(typ),
    })
}

/// A variant of the enum of this name.
pub(crate) fn an_enum(alloc: Global, name: &str) -> Result<Expected>
    ensures value { IfOk result (λ e. expectation_of e ≡ an_enum name.now) }
    ensures memory { IfErr result (λ e. IsOutOfMemory e) }
{
    Ok(Expected::Enum {
        name: Some(String::from_str(alloc, name)?),
        typ: None,
    })
}

/// A variant of this type, of the enum of this name.
pub(crate) fn a_variant(alloc: Global, name: &str, typ: DataType) -> Result<Expected>
    ensures value { IfOk result (λ e. expectation_of e ≡ a_variant name.now typ) }
    ensures memory { IfErr result (λ e. IsOutOfMemory e) }
{
    Ok(Expected::Enum {
        name: Some(String::from_str(alloc, name)?),
        typ: Some(typ),
    })
}

/// The error of a text, or out of memory.
pub(crate) fn custom(alloc: Global, text: &str) -> Error
    ensures cause { cause result ≢ out_of_memory → cause result ≡ custom text.now }
    ensures path { IsWhole result }
{
    Error::custom(alloc, text)
}
