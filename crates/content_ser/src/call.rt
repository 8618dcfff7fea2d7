//! Serialiser calls as data.

ghost use Rattle.std.specs.Prelude.{◌≡◌, true, None, Ok, IfOk, IfErr, IfSome, IsOk};
ghost use Rattle.content_tree.specs.Errors.Kind.{IsOutOfMemory};
ghost use Rattle.content_ser.specs.Calls.Call.{event_of, text_part, IsOwned};

use content_tree::{CowBytes, CowStr, Number, Result};
use std::alloc::Global;

/// One call on a serialiser, as data, of 26 kinds: 19 of Serde's data model without floats, its ten
/// whole numbers as one, and seven more, which announce an item or close what was opened.
///
/// Hints and lengths are what the caller says: no tree depends on them. Two calls are equal where
/// they are of one kind and hold the same contents, hints and lengths: whether a text or bytes are
/// borrowed does not count.
///
/// ```rust
/// let calls = [Call::Seq(Some(1)), Call::Element, Call::Bool(true), Call::End];
/// let value = from_calls(alloc, &calls)?;
/// assert!(rt; value == Value::Seq(vec![in alloc; Value::Bool(true)]?));
/// ```
#[derive(Debug, Drop, PartialEq, Eq)]
pub enum Call<'a> {
    /// A boolean.
    Bool(bool),
    /// A whole number.
    Number(Number),
    /// A character.
    Char(char),
    /// A text.
    Str(CowStr<'a>),
    /// An array of bytes.
    Bytes(CowBytes<'a>),
    /// The unit, `()`.
    Unit,
    /// An absent optional value.
    NoneCall,
    /// A present optional value: its tree follows.
    SomeCall,
    /// A struct that holds nothing: its name.
    UnitStruct(&'static str),
    /// A variant that holds nothing: the enum's name, the variant's index and its name.
    UnitVariant(&'static str, u32, &'static str),
    /// A struct around one value: its tree follows.
    NewtypeStruct(&'static str),
    /// A variant around one value: its tree follows.
    NewtypeVariant(&'static str, u32, &'static str),
    /// Opens a sequence, with a hint of its length.
    Seq(Option<usize>),
    /// Opens a tuple, with its length.
    Tuple(usize),
    /// Opens a struct of values by place, with its length.
    TupleStruct(&'static str, usize),
    /// Opens a variant of values by place, with its length.
    TupleVariant(&'static str, u32, &'static str, usize),
    /// Opens a map, with a hint of its length.
    Map(Option<usize>),
    /// Opens a struct of values by key, with its length.
    Struct(&'static str, usize),
    /// Opens a variant of values by key, with its length.
    StructVariant(&'static str, u32, &'static str, usize),
    /// Announces an item of a sequence or a tuple: its tree follows.
    Element,
    /// Announces an item of a tuple struct or a tuple variant: its tree follows.
    TupleField,
    /// Announces a field of a struct or a struct variant: its tree follows.
    Field(&'static str),
    /// Announces a key of a map: its tree follows.
    Key,
    /// Announces a value of a map: its tree follows.
    Value,
    /// Announces a pair of a map: the key's tree and the value's tree follow.
    Entry,
    /// Closes what was opened last.
    End,
}

impl<'a> Call<'a> {
    /// Copies the call, its text or bytes borrowed or owned as here.
    ///
    /// Memory is taken where it holds an owned text or owned bytes, and nowhere else; where that
    /// fails: an error of kind `OutOfMemory`.
    pub fn try_clone(&self, alloc: Global) -> Result<Call<'a>>
        ensures value { IfOk result (λ copy. event_of copy ≡ event_of self.now) }
        ensures kept { IfOk result (λ copy. text_part copy ≡ text_part self.now) }
        ensures succeeds { IfSome (text_part self.now) (λ part. part.borrowed ≡ true)
            → IsOk result }
        ensures memory { IfErr result (λ e. IsOutOfMemory e) }
    {
        match self {
            Call::Str(text) => Ok(Call::Str(text.try_clone(alloc)?)),
            Call::Bytes(bytes) => Ok(Call::Bytes(bytes.try_clone(alloc)?)),
            other => Ok(other.bare()),
        }
    }

    /// The same call with its text or bytes borrowed from this one. It takes no memory.
    #[inline(always)]
    pub fn lend(&self) -> Call<'_>
        ensures { event_of result ≡ event_of self.now }
    {
        match self {
            Call::Str(text) => Call::Str(CowStr::Borrowed(text.as_str())),
            Call::Bytes(bytes) => Call::Bytes(CowBytes::Borrowed(bytes.as_bytes())),
            other => other.bare(),
        }
    }

    /// Makes the call's text or bytes owned. Owned ones are moved, without memory, and borrowed
    /// ones copied; where that allocation fails: an error of kind `OutOfMemory`.
    pub fn into_owned(self, alloc: Global) -> Result<Call<'static>>
        ensures value { IfOk result (λ call. event_of call ≡ event_of self.entry) }
        ensures owned { IfOk result IsOwned }
        ensures moved { IsOwned self.entry → result ≡ Ok self.entry }
        ensures memory { IfErr result (λ e. IsOutOfMemory e) }
    {
        match self {
            Call::Str(text) => Ok(Call::Str(CowStr::Owned(text.into_owned(alloc)?))),
            Call::Bytes(bytes) => Ok(Call::Bytes(CowBytes::Owned(bytes.into_owned(alloc)?))),
            other => Ok(other.bare()),
        }
    }

    /// The same call, with an empty text or empty bytes in the place of its own.
    #[inline(always)]
    fn bare<'b>(&self) -> Call<'b>
        ensures { text_part self.now ≡ None → result ≡ self.now }
    {
        match self {
            Call::Bool(b) => Call::Bool(*b),
            Call::Number(n) => Call::Number(*n),
            Call::Char(c) => Call::Char(*c),
            Call::Str(_) => Call::Str(CowStr::Borrowed("")),
            Call::Bytes(_) => Call::Bytes(CowBytes::Borrowed(&[])),
            Call::Unit => Call::Unit,
            Call::NoneCall => Call::NoneCall,
            Call::SomeCall => Call::SomeCall,
            Call::UnitStruct(name) => Call::UnitStruct(name),
            Call::UnitVariant(name, index, variant) => Call::UnitVariant(name, *index, variant),
            Call::NewtypeStruct(name) => Call::NewtypeStruct(name),
            Call::NewtypeVariant(name, index, variant) => Call::NewtypeVariant(
                name, *index, variant,
            ),
            Call::Seq(hint) => Call::Seq(*hint),
            Call::Tuple(len) => Call::Tuple(*len),
            Call::TupleStruct(name, len) => Call::TupleStruct(name, *len),
            Call::TupleVariant(name, index, variant, len) => Call::TupleVariant(
                name, *index, variant, *len,
            ),
            Call::Map(hint) => Call::Map(*hint),
            Call::Struct(name, len) => Call::Struct(name, *len),
            Call::StructVariant(name, index, variant, len) => Call::StructVariant(
                name, *index, variant, *len,
            ),
            Call::Element => Call::Element,
            Call::TupleField => Call::TupleField,
            Call::Field(key) => Call::Field(key),
            Call::Key => Call::Key,
            Call::Value => Call::Value,
            Call::Entry => Call::Entry,
            Call::End => Call::End,
        }
    }
}
