//! What each call is in a list: the table of calls.

ghost use Rattle.std.specs.Prelude.{◌≡◌};
ghost use Rattle.content_ser.specs.Calls.Call.{event_of};
ghost use Rattle.content_ser.specs.Grammar.Token.{token_of};
ghost use Rattle.content_build.specs.Inner.Tokens.{token_view};

use crate::parts::{Series, Wrap};
use content_ser::{Call, Head};
use content_tree::Number;

/// A call whose tree is whole.
#[derive(Drop)]
pub(crate) enum LeafCall<'a> {
    Unit,
    Bool(bool),
    Number(Number),
    Char(char),
    Text(&'a str),
    Bytes(&'a [u8]),
    Absent,
    Head(Head),
}

/// A call that announces an item.
#[derive(Drop)]
pub(crate) enum ItemCall {
    Element,
    TupleField,
    Field(&'static str),
    Key,
    Value,
    Entry,
}

/// What a call is in a list; hints and lengths are not in it.
#[derive(Drop)]
pub(crate) enum Token<'a> {
    Leaf(LeafCall<'a>),
    Wrap(Wrap),
    Series(Series),
    Map,
    Record(Head),
    Item(ItemCall),
    End,
}

impl<'b> Token<'b> {
    /// What the call is in a list.
    #[inline(always)]
    pub(crate) fn of(call: &'b Call<'_>) -> Token<'b>
        ensures { token_view result ≡ token_of (event_of call.now) }
    {
        match call {
            Call::Bool(v) => Token::Leaf(LeafCall::Bool(*v)),
            Call::Number(v) => Token::Leaf(LeafCall::Number(*v)),
            Call::Char(v) => Token::Leaf(LeafCall::Char(*v)),
            Call::Str(text) => Token::Leaf(LeafCall::Text(text.as_str())),
            Call::Bytes(bytes) => Token::Leaf(LeafCall::Bytes(bytes.as_bytes())),
            Call::Unit => Token::Leaf(LeafCall::Unit),
            Call::NoneCall => Token::Leaf(LeafCall::Absent),
            Call::SomeCall => Token::Wrap(Wrap::Present),
            Call::UnitStruct(name) => Token::Leaf(LeafCall::Head(Head::Struct(*name))),
            Call::UnitVariant(name, index, variant) => {
                Token::Leaf(LeafCall::Head(Head::Variant(*name, *index, *variant)))
            }
            Call::NewtypeStruct(name) => Token::Wrap(Wrap::Head(Head::Struct(*name))),
            Call::NewtypeVariant(name, index, variant) => {
                Token::Wrap(Wrap::Head(Head::Variant(*name, *index, *variant)))
            }
            Call::Seq(_) => Token::Series(Series::Seq),
            Call::Tuple(_) => Token::Series(Series::Tuple),
            Call::TupleStruct(name, _) => Token::Series(Series::Head(Head::Struct(*name))),
            Call::TupleVariant(name, index, variant, _) => {
                Token::Series(Series::Head(Head::Variant(*name, *index, *variant)))
            }
            Call::Map(_) => Token::Map,
            Call::Struct(name, _) => Token::Record(Head::Struct(*name)),
            Call::StructVariant(name, index, variant, _) => {
                Token::Record(Head::Variant(*name, *index, *variant))
            }
            Call::Element => Token::Item(ItemCall::Element),
            Call::TupleField => Token::Item(ItemCall::TupleField),
            Call::Field(key) => Token::Item(ItemCall::Field(*key)),
            Call::Key => Token::Item(ItemCall::Key),
            Call::Value => Token::Item(ItemCall::Value),
            Call::Entry => Token::Item(ItemCall::Entry),
            Call::End => Token::End,
        }
    }
}
