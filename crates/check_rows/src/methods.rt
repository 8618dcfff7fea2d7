//! The methods of a serialiser, by the calls that they make.

use serde_content::ser::{Call, Serializer};
use serde_content::{Number, Result};

/// Makes the call by its own method.
pub fn make_call<S: Serializer>(to: &mut S, call: &Call<'_>) -> Result<()> {
    match call {
        Call::Bool(flag) => to.serialize_bool(*flag),
        Call::Number(number) => make_number(to, number),
        Call::Char(character) => to.serialize_char(*character),
        Call::Str(text) => to.serialize_str(text.as_str()),
        Call::Bytes(bytes) => to.serialize_bytes(bytes.as_bytes()),
        Call::Unit => to.serialize_unit(),
        Call::NoneCall => to.serialize_none(),
        Call::SomeCall => to.serialize_some(),
        Call::UnitStruct(name) => to.serialize_unit_struct(name),
        Call::UnitVariant(name, i, variant) => to.serialize_unit_variant(name, *i, variant),
        Call::NewtypeStruct(name) => to.serialize_newtype_struct(name),
        Call::NewtypeVariant(name, i, variant) => to.serialize_newtype_variant(name, *i, variant),
        Call::Seq(hint) => to.serialize_seq(*hint),
        Call::Tuple(length) => to.serialize_tuple(*length),
        Call::TupleStruct(name, length) => to.serialize_tuple_struct(name, *length),
        Call::TupleVariant(name, i, variant, n) => to.serialize_tuple_variant(
            name, *i, variant, *n,
        ),
        Call::Map(hint) => to.serialize_map(*hint),
        Call::Struct(name, length) => to.serialize_struct(name, *length),
        Call::StructVariant(name, i, variant, n) => to.serialize_struct_variant(
            name, *i, variant, *n,
        ),
        Call::Element => to.serialize_element(),
        Call::TupleField => to.serialize_tuple_field(),
        Call::Field(key) => to.serialize_field(key),
        Call::Key => to.serialize_key(),
        Call::Value => to.serialize_value(),
        Call::Entry => to.serialize_entry(),
        Call::End => to.end(),
    }
}

/// Makes the call of a whole number by the method of its kind.
fn make_number<S: Serializer>(to: &mut S, number: &Number) -> Result<()> {
    match number {
        Number::I8(n) => to.serialize_i8(*n),
        Number::U8(n) => to.serialize_u8(*n),
        Number::I16(n) => to.serialize_i16(*n),
        Number::U16(n) => to.serialize_u16(*n),
        Number::I32(n) => to.serialize_i32(*n),
        Number::U32(n) => to.serialize_u32(*n),
        Number::I64(n) => to.serialize_i64(*n),
        Number::U64(n) => to.serialize_u64(*n),
        Number::I128(n) => to.serialize_i128(*n),
        Number::U128(n) => to.serialize_u128(*n),
    }
}
