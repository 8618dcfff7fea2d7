//! What was expected, for errors.

#![tactic(auto, using(crate::proofs::Printing::two_writes, crate::proofs::Printing::three_writes, crate::proofs::Printing::four_writes))]

ghost use Rattle.std.specs.Prelude.{Some};
ghost use Rattle.std.specs.Fmt.{WritesStyledOnOk};
ghost use Rattle.content_tree.specs.Printed.Errors.{type_text, typed, with_name, expected_text};

use crate::display::write_bare;
use std::fmt;
use std::fmt::Display;

/// What a struct or a variant holds: nothing, one value, values by place or values by key.
#[derive(Clone, Copy, Debug, PartialEq, Eq, PartialOrd, Ord)]
pub enum DataType {
    /// A unit struct or variant.
    Unit,
    /// A newtype struct or variant.
    NewType,
    /// A tuple struct or variant.
    Tuple,
    /// An object-like struct or variant.
    Struct,
}

/// What was expected where something else was found.
#[derive(Debug, Drop, PartialEq, Eq, PartialOrd, Ord)]
pub enum Expected {
    /// The unit, `()`.
    Unit,
    /// A boolean.
    Bool,
    /// A character.
    Char,
    /// A text.
    String,
    /// A text that lives as long as the program.
    StaticStr,
    /// An array of bytes.
    Bytes,
    /// A sequence.
    Seq,
    /// A map.
    Map,
    /// A struct, of a name and a type where they matter.
    Struct {
        /// The name of the struct.
        name: Option<String>,
        /// What the struct holds.
        typ: Option<DataType>,
    },
    /// A variant of an enum, of a name and a type where they matter.
    Enum {
        /// The name of the enum.
        name: Option<String>,
        /// What the variant holds.
        typ: Option<DataType>,
    },
    /// A tuple of this many elements.
    Tuple(usize),
    /// The key of a field or the name of a variant.
    Identifier,
    /// A signed number of 8 bits.
    I8,
    /// An unsigned number of 8 bits.
    U8,
    /// A signed number of 16 bits.
    I16,
    /// An unsigned number of 16 bits.
    U16,
    /// A signed number of 32 bits.
    I32,
    /// An unsigned number of 32 bits.
    U32,
    /// A signed number of 64 bits.
    I64,
    /// An unsigned number of 64 bits.
    U64,
    /// A signed number of 128 bits.
    I128,
    /// An unsigned number of 128 bits.
    U128,
}

impl fmt::Display for DataType {
    ghost output = { λ t. Some (type_text t) };

    ghost styled_output = { λ t _options. Some (type_text t) };

    fn fmt<W: fmt::Write>(&self, f: &mut fmt::Formatter<W>) -> fmt::Result {
        f.write_str(match self {
            DataType::Unit => "a unit",
            DataType::NewType => "a newtype",
            DataType::Tuple => "a tuple",
            DataType::Struct => "an object-like",
        })
    }
}

impl fmt::Display for Expected {
    ghost output = { λ e. Some (expected_text e) };

    ghost styled_output = { λ e _options. Some (expected_text e) };

    fn fmt<W: fmt::Write>(&self, f: &mut fmt::Formatter<W>) -> fmt::Result {
        match self {
            Expected::Unit => f.write_str("a unit"),
            Expected::Bool => f.write_str("a boolean"),
            Expected::Char => f.write_str("a single character"),
            Expected::String => f.write_str("a string"),
            Expected::StaticStr => f.write_str("a static string slice"),
            Expected::Bytes => f.write_str("a byte array"),
            Expected::Seq => f.write_str("a sequence"),
            Expected::Map => f.write_str("a map"),
            Expected::Struct { name, typ } => {
                write_typed("a struct", " struct", typ, f)?;
                write_name(" named ", name, f)
            }
            Expected::Enum { name, typ } => {
                write_typed("an enum variant", " enum variant", typ, f)?;
                write_name(" of ", name, f)
            }
            Expected::Tuple(n) => write_bare(format_args!("a tuple with {n} elements"), f),
            Expected::Identifier => f.write_str("a struct field name or an enum variant"),
            Expected::I8 => f.write_str("an 8-bit signed integer"),
            Expected::U8 => f.write_str("an 8-bit unsigned integer"),
            Expected::I16 => f.write_str("a 16-bit signed integer"),
            Expected::U16 => f.write_str("a 16-bit unsigned integer"),
            Expected::I32 => f.write_str("a 32-bit signed integer"),
            Expected::U32 => f.write_str("a 32-bit unsigned integer"),
            Expected::I64 => f.write_str("a 64-bit signed integer"),
            Expected::U64 => f.write_str("a 64-bit unsigned integer"),
            Expected::I128 => f.write_str("a 128-bit signed integer"),
            Expected::U128 => f.write_str("a 128-bit unsigned integer"),
        }
    }
}

fn write_typed<W: fmt::Write>(
    alone: &str,
    noun: &str,
    typ: &Option<DataType>,
    f: &mut fmt::Formatter<W>,
) -> fmt::Result
    ensures { WritesStyledOnOk W.write_str_gives f.old result
        (typed alone.now noun.now typ.now) f.new }
{
    match typ {
        None => f.write_str(alone),
        Some(typ) => {
            typ.fmt(f)?;
            f.write_str(noun)
        }
    }
}

fn write_name<W: fmt::Write>(
    link: &str,
    name: &Option<String>,
    f: &mut fmt::Formatter<W>,
) -> fmt::Result
    ensures { WritesStyledOnOk W.write_str_gives f.old result (with_name link.now name.now) f.new }
{
    match name {
        None => Ok(()),
        Some(name) => {
            f.write_str(link)?;
            f.write_str(name.as_str())
        }
    }
}
