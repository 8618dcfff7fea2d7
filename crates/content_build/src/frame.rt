//! Frames of the tape.

ghost use Rattle.std.specs.Prelude.{◌≡◌, IfOk};
ghost use Rattle.content_tree.specs.Values.Value.{tree_of};
ghost use Rattle.content_ser.specs.Calls.Head.{head_of};
ghost use Rattle.content_build.specs.Inner.Cells as cells;
ghost use Rattle.content_build.specs.Inner.Cells.{names_of};
ghost use Rattle.content_build.specs.Inner.Frames.{leaf_view, label_view, sort_view};
ghost use Rattle.content_build.specs.Inner.Forest.{leaf_tree};

use content_ser::Head;
use content_tree::{CowBytes, CowStr, NamedValue, Number};
use std::alloc::{AllocError, Global};

/// A node that has no children and no name. A number of 128 bits is boxed, so that a frame stays
/// small.
#[derive(Drop)]
pub(crate) enum Leaf {
    Unit,
    Absent,
    Bool(bool),
    Char(char),
    I8(i8),
    U8(u8),
    I16(i16),
    U16(u16),
    I32(i32),
    U32(u32),
    I64(i64),
    U64(u64),
    Wide(Box<Number>),
    Text(String),
    Bytes(Vec<u8>),
}

/// What a struct or a variant holds.
#[derive(Clone, Copy)]
pub(crate) enum Sort {
    Nothing,
    One,
    Many,
    Fields,
}

/// The label of a node, which is the node without its children, or the key of the field whose node
/// comes next.
#[derive(Drop)]
pub(crate) enum Label {
    Leaf(Leaf),
    Present,
    Seq,
    Tuple,
    Map,
    Struct(Sort, &'static str),
    Variant(Sort, u32, &'static str, &'static str),
    Key(&'static str),
}

/// The label of a node, with the number of frames of the node's whole tree, or 0 while it is open.
#[derive(Drop)]
pub(crate) struct Frame {
    pub(crate) label: Label,
    pub(crate) size: usize,
}

/// What an opening waits for: a tree, or a call.
#[derive(Clone, Copy)]
pub(crate) enum Waits {
    Child,
    Element,
    TupleField,
    Key,
    Value,
    EntryKey,
    EntryValue,
    Field,
    InElements,
    InTupleFields,
    InMap,
    InRecord,
}

/// An opening: its place on the tape, where the last value of a map begins, or 0, and what it
/// waits for.
#[derive(Drop)]
pub(crate) struct Opening {
    pub(crate) at: usize,
    pub(crate) last: usize,
    pub(crate) waits: Waits,
}

/// The label of a head that holds this.
#[inline(always)]
pub(crate) fn headed(sort: Sort, head: Head) -> Label
    ensures { label_view result ≡ cells.headed (sort_view sort) (names_of (head_of head)) }
{
    match head {
        Head::Struct(name) => Label::Struct(sort, name),
        Head::Variant(name, index, variant) => Label::Variant(sort, index, name, variant),
    }
}

/// The leaf of a number.
#[inline(always)]
pub(crate) fn number_leaf(alloc: Global, number: Number) -> Result<Leaf, AllocError>
    ensures { IfOk result (λ leaf. leaf_view leaf ≡ cells.number number) }
{
    match number {
        Number::I8(v) => Ok(Leaf::I8(v)),
        Number::U8(v) => Ok(Leaf::U8(v)),
        Number::I16(v) => Ok(Leaf::I16(v)),
        Number::U16(v) => Ok(Leaf::U16(v)),
        Number::I32(v) => Ok(Leaf::I32(v)),
        Number::U32(v) => Ok(Leaf::U32(v)),
        Number::I64(v) => Ok(Leaf::I64(v)),
        Number::U64(v) => Ok(Leaf::U64(v)),
        Number::I128(_) => Ok(Leaf::Wide(Box::new(alloc, number)?)),
        Number::U128(_) => Ok(Leaf::Wide(Box::new(alloc, number)?)),
    }
}

/// The value of a leaf.
#[inline(always)]
pub(crate) fn leaf_value<'v, 'n>(leaf: Leaf) -> NamedValue<'v, 'n>
    ensures { tree_of result ≡ leaf_tree (leaf_view leaf) }
{
    match leaf {
        Leaf::Unit => NamedValue::Unit,
        Leaf::Absent => NamedValue::Option(None),
        Leaf::Bool(v) => NamedValue::Bool(v),
        Leaf::Char(v) => NamedValue::Char(v),
        Leaf::I8(v) => NamedValue::Number(Number::from(v)),
        Leaf::U8(v) => NamedValue::Number(Number::from(v)),
        Leaf::I16(v) => NamedValue::Number(Number::from(v)),
        Leaf::U16(v) => NamedValue::Number(Number::from(v)),
        Leaf::I32(v) => NamedValue::Number(Number::from(v)),
        Leaf::U32(v) => NamedValue::Number(Number::from(v)),
        Leaf::I64(v) => NamedValue::Number(Number::from(v)),
        Leaf::U64(v) => NamedValue::Number(Number::from(v)),
        Leaf::Wide(v) => NamedValue::Number(*v),
        Leaf::Text(text) => NamedValue::String(CowStr::Owned(text)),
        Leaf::Bytes(bytes) => NamedValue::Bytes(CowBytes::Owned(bytes)),
    }
}
