//! Values that are sent one after another, each after the call that announces it, and the end: a
//! row of them is itself a type, so that one proof serves rows of every length.

#![tactic(auto, using(content_ser::proofs::Sending::sending, content_ser::proofs::Making::making))]

ghost use Rattle.std.specs.Prelude.{◌≡◌, ℕ, [], Bool, slice_index_or};
ghost use Rattle.content_ser.specs.Calls.Call.{event_of};
ghost use Rattle.content_ser.specs.Calls.Event as event;
ghost use Rattle.content_ser.specs.Calls.Event.{Event};
ghost use Rattle.content_ser.specs.Calls.Head.{head_of};
ghost use Rattle.content_ser.specs.Grammar.Token.{element, open_record, open_series, series_head};
ghost use Rattle.content_ser.specs.Grammar.Token.{series_tuple, token_of, tuple_field};
ghost use Rattle.content_ser.specs.Scripts.Direct.{AddsFields, AddsItems, Spelled};
ghost use Rattle.content_ser.specs.Scripts.Script.{Script};
ghost use Rattle.content_ser.specs.Scripts.Sends.{Sends};
ghost use Rattle.content_ser.specs.Scripts.Own.{end_script, field_first, tuple_field_first};
ghost use Rattle.content_ser.specs.Scripts.Standard.{call_first, element_first, only};
ghost use Rattle.content_ser.specs.Sending.Aside.{answer_of};
ghost use Rattle.content_ser.specs.Serializers.Step.{Takes};
ghost use Rattle.serde_content.specs.Skips.{field_unless, unsent_script};

use crate::name_lists::{Names, name_at};
use crate::skips::Skip;
use content_ser::{
    Aside, Call, Head, Made, Sent, Serialize, Serializer, Unmade, inside, made_of, made_text,
};
use content_tree::{CowStr, Error, ErrorKind, NamedData, NamedValue, Result};
use std::alloc::Global;
use std::result::Result as StdResult;

/// The call that announces the field whose name has this index among the names `K`.
#[inline(always)]
fn announce_field<K: Names, S: Serializer>(
    index: usize,
    serializer: &mut S,
    error: &mut Error,
) -> Sent
    ensures { Takes S.step S.refuses (S.seen serializer.old)
        (event.field (slice_index_or K.names index []))
        (answer_of result error.new) (S.seen serializer.new) }
{
    serializer.call_aside(Call::Field(name_at::<K>(index)), error)
}

/// The name with this index among the names `K`, as a text.
#[inline(always)]
pub(crate) fn send_name<K: Names, S: Serializer>(
    index: usize,
    serializer: &mut S,
    error: &mut Error,
) -> Sent
    ensures { Takes S.step S.refuses (S.seen serializer.old)
        (event.text (slice_index_or K.names index []))
        (answer_of result error.new) (S.seen serializer.new) }
{
    let name = CowStr::Borrowed(name_at::<K>(index));
    serializer.call_aside(Call::Str(name), error)
}

/// Values that are sent one after another, and the end of what they are in.
pub trait SendRow {
    /// The calls that send them.
    ghost script: { Self → Bool → Script };

    /// Makes these calls, with the error put aside, as
    /// [`serialize_aside`](Serialize::serialize_aside) does.
    fn send<S: Serializer>(&self, alloc: Global, serializer: &mut S, error: &mut Error) -> Sent
        ensures { Sends S.step S.refuses (S.seen serializer.old) (script self.now)
            (answer_of result error.new) (S.seen serializer.new) };

    /// How many values there are, for which memory is taken at once.
    #[inline(always)]
    fn count(&self) -> usize {
        0
    }

    /// Makes the value that the calls spell, as [`direct`](Serialize::direct) does; `ByCalls` where
    /// they are no whole value.
    fn direct<'v, 'n>(&self, alloc: Global, readable: bool, room: usize) -> Made<'v, 'n>
        ensures { Spelled room (script self.now readable) result }
    {
        let _unused = (alloc, readable, room);
        Err(Unmade::ByCalls)
    }

    /// Makes the fields that the calls spell, and puts them after those that are there. Where they
    /// can't be made, nothing is said of what is there.
    fn add_fields<'v, 'n>(
        &self,
        alloc: Global,
        readable: bool,
        room: usize,
        fields: &mut Fields<'v, 'n>,
    ) -> Added
        ensures { AddsFields room (script self.now readable) fields.old.items fields.new.items
            result }
    {
        let _unused = (alloc, readable, room);
        let _fields = fields;
        Err(Unmade::ByCalls)
    }

    /// The same of the values by place of a struct or variant.
    fn add_parts<'v, 'n>(
        &self,
        alloc: Global,
        readable: bool,
        room: usize,
        parts: &mut Vec<NamedValue<'v, 'n>>,
    ) -> Added
        ensures { AddsItems tuple_field room (script self.now readable) parts.old.items
            parts.new.items result }
    {
        let _unused = (alloc, readable, room);
        let _parts = parts;
        Err(Unmade::ByCalls)
    }

    /// The same of the elements of a tuple.
    fn add_elements<'v, 'n>(
        &self,
        alloc: Global,
        readable: bool,
        room: usize,
        elements: &mut Vec<NamedValue<'v, 'n>>,
    ) -> Added
        ensures { AddsItems element room (script self.now readable) elements.old.items
            elements.new.items result }
    {
        let _unused = (alloc, readable, room);
        let _elements = elements;
        Err(Unmade::ByCalls)
    }
}

/// Fields that are made.
pub type Fields<'v, 'n> = Vec<(CowStr<'n>, NamedValue<'v, 'n>)>;

/// Whether values were made.
pub type Added = StdResult<(), Unmade>;

/// The end.
#[derive(Drop)]
pub struct SendEnd;

impl SendRow for SendEnd {
    ghost script = { λ row. end_script };

    #[inline(always)]
    fn send<S: Serializer>(&self, _alloc: Global, serializer: &mut S, error: &mut Error) -> Sent {
        serializer.call_aside(Call::End, error)
    }

    #[inline(always)]
    fn add_fields<'v, 'n>(
        &self,
        _alloc: Global,
        _readable: bool,
        _room: usize,
        _fields: &mut Fields<'v, 'n>,
    ) -> Added {
        Ok(())
    }

    #[inline(always)]
    fn add_parts<'v, 'n>(
        &self,
        _alloc: Global,
        _readable: bool,
        _room: usize,
        _parts: &mut Vec<NamedValue<'v, 'n>>,
    ) -> Added {
        Ok(())
    }

    #[inline(always)]
    fn add_elements<'v, 'n>(
        &self,
        _alloc: Global,
        _readable: bool,
        _room: usize,
        _elements: &mut Vec<NamedValue<'v, 'n>>,
    ) -> Added {
        Ok(())
    }
}

/// The field whose name has this index among the names `K`, and those after it.
#[inline(always)]
pub(crate) fn send_field<K: Names, T: Serialize, R: SendRow, S: Serializer>(
    index: usize,
    value: &T,
    rest: &R,
    alloc: Global,
    serializer: &mut S,
    error: &mut Error,
) -> Sent
    ensures { Sends S.step S.refuses (S.seen serializer.old)
        (field_first (slice_index_or K.names index []) (T.script value.now) (R.script rest.now))
        (answer_of result error.new) (S.seen serializer.new) }
{
    announce_field::<K, S>(index, serializer, error)?;
    value.serialize_aside(alloc, serializer, error)?;
    rest.send(alloc, serializer, error)
}

/// The same field, made and put after those that are there, and those after it.
#[inline(always)]
pub(crate) fn add_field<'v, 'n, K: Names, T: Serialize, R: SendRow>(
    index: usize,
    value: &T,
    rest: &R,
    alloc: Global,
    readable: bool,
    room: usize,
    fields: &mut Fields<'v, 'n>,
) -> Added
    ensures { AddsFields room
        (field_first (slice_index_or K.names index []) (T.script value.now) (R.script rest.now)
        readable)
        fields.old.items fields.new.items result }
{
    let value = value.direct(alloc, readable, room)?;
    fields.push((CowStr::Borrowed(name_at::<K>(index)), value))?;
    rest.add_fields(alloc, readable, room, fields)
}

/// A field whose name has this index among the names `K`, and those after it.
#[derive(Drop)]
pub struct SendField<'a, K, T, R>(pub K, pub usize, pub &'a T, pub R);

impl<'a, K: Names, T: Serialize, R: SendRow> SendRow for SendField<'a, K, T, R> {
    ghost script = { λ row. field_first (slice_index_or K.names row.1 []) (T.script row.2.now)
        (R.script row.3) };

    #[inline(always)]
    fn send<S: Serializer>(&self, alloc: Global, serializer: &mut S, error: &mut Error) -> Sent {
        send_field::<K, T, R, S>(self.1, self.2, &self.3, alloc, serializer, error)
    }

    #[inline(always)]
    fn count(&self) -> usize {
        self.3.count().saturating_add(1)
    }

    #[inline(always)]
    fn add_fields<'v, 'n>(
        &self,
        alloc: Global,
        readable: bool,
        room: usize,
        fields: &mut Fields<'v, 'n>,
    ) -> Added {
        add_field::<K, T, R>(self.1, self.2, &self.3, alloc, readable, room, fields)
    }
}

/// The same, unless the value is empty: it is left out then.
#[derive(Drop)]
pub struct SendFieldUnless<'a, K, T, R>(pub K, pub usize, pub &'a T, pub R);

impl<'a, K: Names, T: Serialize + Skip, R: SendRow> SendRow for SendFieldUnless<'a, K, T, R> {
    ghost script = { λ row. field_unless (T.is_empty row.2.now) (slice_index_or K.names row.1 [])
        (T.script row.2.now) (R.script row.3) };

    #[inline(always)]
    fn send<S: Serializer>(&self, alloc: Global, serializer: &mut S, error: &mut Error) -> Sent {
        let value = self.2;
        if value.is_skipped() {
            self.3.send(alloc, serializer, error)
        } else {
            send_field::<K, T, R, S>(self.1, value, &self.3, alloc, serializer, error)
        }
    }

    #[inline(always)]
    fn count(&self) -> usize {
        self.3
            .count()
            .saturating_add(usize::from(!self.2.is_skipped()))
    }

    #[inline(always)]
    fn add_fields<'v, 'n>(
        &self,
        alloc: Global,
        readable: bool,
        room: usize,
        fields: &mut Fields<'v, 'n>,
    ) -> Added {
        if self.2.is_skipped() {
            return self.3.add_fields(alloc, readable, room, fields);
        }
        add_field::<K, T, R>(self.1, self.2, &self.3, alloc, readable, room, fields)
    }
}

/// The field that tags a variant: its name is the first of the names `K`, and the variant's has
/// this index among the names `V`.
#[derive(Drop)]
pub struct SendTag<K, V, R>(pub K, pub V, pub usize, pub R);

impl<K: Names, V: Names, R: SendRow> SendRow for SendTag<K, V, R> {
    ghost script = { λ row. field_first (slice_index_or K.names 0 [])
        (only (event.text (slice_index_or V.names row.2 []))) (R.script row.3) };

    #[inline(always)]
    fn send<S: Serializer>(&self, alloc: Global, serializer: &mut S, error: &mut Error) -> Sent {
        announce_field::<K, S>(0, serializer, error)?;
        send_name::<V, S>(self.2, serializer, error)?;
        self.3.send(alloc, serializer, error)
    }

    #[inline(always)]
    fn count(&self) -> usize {
        self.3.count().saturating_add(1)
    }

    #[inline(always)]
    fn add_fields<'v, 'n>(
        &self,
        alloc: Global,
        readable: bool,
        room: usize,
        fields: &mut Fields<'v, 'n>,
    ) -> Added {
        let variant = made_text(alloc, name_at::<V>(self.2))?;
        fields.push((CowStr::Borrowed(name_at::<K>(0)), variant))?;
        self.3.add_fields(alloc, readable, room, fields)
    }
}

/// A field whose name has this index among the names `K` and whose value is a row, and those after
/// it.
#[derive(Drop)]
pub struct SendInside<K, C, R>(pub K, pub usize, pub C, pub R);

impl<K: Names, C: SendRow, R: SendRow> SendRow for SendInside<K, C, R> {
    ghost script = { λ row. field_first (slice_index_or K.names row.1 []) (C.script row.2)
        (R.script row.3) };

    #[inline(always)]
    fn send<S: Serializer>(&self, alloc: Global, serializer: &mut S, error: &mut Error) -> Sent {
        announce_field::<K, S>(self.1, serializer, error)?;
        self.2.send(alloc, serializer, error)?;
        self.3.send(alloc, serializer, error)
    }

    #[inline(always)]
    fn count(&self) -> usize {
        self.3.count().saturating_add(1)
    }

    #[inline(always)]
    fn add_fields<'v, 'n>(
        &self,
        alloc: Global,
        readable: bool,
        room: usize,
        fields: &mut Fields<'v, 'n>,
    ) -> Added {
        let value = self.2.direct(alloc, readable, room)?;
        fields.push((CowStr::Borrowed(name_at::<K>(self.1)), value))?;
        self.3.add_fields(alloc, readable, room, fields)
    }
}

/// A value by place in a struct or variant, and those after it.
#[derive(Drop)]
pub struct SendPart<'a, T, R>(pub &'a T, pub R);

impl<'a, T: Serialize, R: SendRow> SendRow for SendPart<'a, T, R> {
    ghost script = { λ row. tuple_field_first (T.script row.0.now) (R.script row.1) };

    #[inline(always)]
    fn send<S: Serializer>(&self, alloc: Global, serializer: &mut S, error: &mut Error) -> Sent {
        serializer.call_aside(Call::TupleField, error)?;
        self.0.serialize_aside(alloc, serializer, error)?;
        self.1.send(alloc, serializer, error)
    }

    #[inline(always)]
    fn count(&self) -> usize {
        self.1.count().saturating_add(1)
    }

    #[inline(always)]
    fn add_parts<'v, 'n>(
        &self,
        alloc: Global,
        readable: bool,
        room: usize,
        parts: &mut Vec<NamedValue<'v, 'n>>,
    ) -> Added {
        parts.push(self.0.direct(alloc, readable, room)?)?;
        self.1.add_parts(alloc, readable, room, parts)
    }
}

/// An element of a tuple, and those after it.
#[derive(Drop)]
pub struct SendElement<'a, T, R>(pub &'a T, pub R);

impl<'a, T: Serialize, R: SendRow> SendRow for SendElement<'a, T, R> {
    ghost script = { λ row. element_first (T.script row.0.now) (R.script row.1) };

    #[inline(always)]
    fn send<S: Serializer>(&self, alloc: Global, serializer: &mut S, error: &mut Error) -> Sent {
        serializer.call_aside(Call::Element, error)?;
        self.0.serialize_aside(alloc, serializer, error)?;
        self.1.send(alloc, serializer, error)
    }

    #[inline(always)]
    fn count(&self) -> usize {
        self.1.count().saturating_add(1)
    }

    #[inline(always)]
    fn add_elements<'v, 'n>(
        &self,
        alloc: Global,
        readable: bool,
        room: usize,
        elements: &mut Vec<NamedValue<'v, 'n>>,
    ) -> Added {
        elements.push(self.0.direct(alloc, readable, room)?)?;
        self.1.add_elements(alloc, readable, room, elements)
    }
}

/// A call that is kept.
#[inline(always)]
fn send_call<S: Serializer>(call: &Call<'static>, serializer: &mut S, error: &mut Error) -> Sent
    ensures { Takes S.step S.refuses (S.seen serializer.old) (event_of call.now)
        (answer_of result error.new) (S.seen serializer.new) }
{
    serializer.call_aside(call.lend(), error)
}

/// The call that opens a struct, variant, tuple or map, and what is in it.
#[derive(Drop)]
pub struct SendOpen<R>(pub Call<'static>, pub R);

impl<R: SendRow> SendRow for SendOpen<R> {
    ghost script = { λ row. call_first (event_of row.0) (R.script row.1) };

    #[inline(always)]
    fn send<S: Serializer>(&self, alloc: Global, serializer: &mut S, error: &mut Error) -> Sent {
        send_call(&self.0, serializer, error)?;
        self.1.send(alloc, serializer, error)
    }

    #[inline(always)]
    fn direct<'v, 'n>(&self, alloc: Global, readable: bool, room: usize) -> Made<'v, 'n> {
        let row = &self.1;
        match &self.0 {
            Call::Struct(name, _) => made_record(alloc, Head::Struct(name), row, readable, room),
            Call::StructVariant(name, index, variant, _) => {
                made_record(
                    alloc,
                    Head::Variant(name, *index, variant),
                    row,
                    readable,
                    room,
                )
            }
            Call::TupleStruct(name, _) => {
                made_series(alloc, Head::Struct(name), row, readable, room)
            }
            Call::TupleVariant(name, index, variant, _) => {
                made_series(
                    alloc,
                    Head::Variant(name, *index, variant),
                    row,
                    readable,
                    room,
                )
            }
            Call::Tuple(_) => made_tuple(alloc, row, readable, room),
            _ => Err(Unmade::ByCalls),
        }
    }
}

/// The struct or the variant of these names that holds the fields of the row.
#[inline(always)]
fn made_record<'v, 'n, R: SendRow>(
    alloc: Global,
    head: Head,
    row: &R,
    readable: bool,
    room: usize,
) -> Made<'v, 'n>
    ensures { (c : Event) → token_of c ≡ open_record (head_of head)
        → Spelled room (call_first c (R.script row.now) readable) result }
{
    let levels = inside(room)?;
    let mut fields: Fields<'v, 'n> = Vec::with_capacity(alloc, row.count())?;
    row.add_fields(alloc, readable, levels, &mut fields)?;
    made_of(alloc, head, NamedData::Struct { fields })
}

/// The struct or the variant of these names that holds the values of the row by place.
#[inline(always)]
fn made_series<'v, 'n, R: SendRow>(
    alloc: Global,
    head: Head,
    row: &R,
    readable: bool,
    room: usize,
) -> Made<'v, 'n>
    ensures { (c : Event) → token_of c ≡ open_series (series_head (head_of head))
        → Spelled room (call_first c (R.script row.now) readable) result }
{
    let levels = inside(room)?;
    let mut values: Vec<NamedValue<'v, 'n>> = Vec::with_capacity(alloc, row.count())?;
    row.add_parts(alloc, readable, levels, &mut values)?;
    made_of(alloc, head, NamedData::Tuple { values })
}

/// The tuple of the elements of the row.
#[inline(always)]
fn made_tuple<'v, 'n, R: SendRow>(
    alloc: Global,
    row: &R,
    readable: bool,
    room: usize,
) -> Made<'v, 'n>
    ensures { (c : Event) → token_of c ≡ open_series series_tuple
        → Spelled room (call_first c (R.script row.now) readable) result }
{
    let levels = inside(room)?;
    let mut elements: Vec<NamedValue<'v, 'n>> = Vec::with_capacity(alloc, row.count())?;
    row.add_elements(alloc, readable, levels, &mut elements)?;
    Ok(NamedValue::Tuple(elements))
}

/// The answer of what was sent with its error put aside.
fn answer(sent: Sent, error: Error) -> Result<()>
    ensures { result ≡ answer_of sent error }
{
    match sent {
        Ok(()) => Ok(()),
        Err(Aside) => Err(error),
    }
}

/// Makes the calls of a row. The error is that of the first call that is refused, or of the first
/// value that stops.
#[inline(always)]
pub fn send_row<S: Serializer, R: SendRow>(alloc: Global, serializer: &mut S, row: &R) -> Result<()>
    ensures { Sends S.step S.refuses (S.seen serializer.old) (R.script row.now) result
        (S.seen serializer.new) }
{
    let mut error = Error::from(ErrorKind::OutOfMemory);
    let sent = row.send(alloc, serializer, &mut error);
    answer(sent, error)
}

/// Makes the value that the calls of a row spell, as [`direct`](Serialize::direct) does.
#[inline(always)]
pub fn direct_row<'v, 'n, R: SendRow>(
    alloc: Global,
    readable: bool,
    room: usize,
    row: &R,
) -> Made<'v, 'n>
    ensures { Spelled room (R.script row.now readable) result }
{
    row.direct(alloc, readable, room)
}

/// Refuses a variant that isn't sent: the error has this text, or is out of memory. It makes no call.
pub fn refuse_unsent<S: Serializer>(alloc: Global, serializer: &mut S, text: &str) -> Result<()>
    ensures { Sends S.step S.refuses (S.seen serializer.old) (unsent_script text.now) result
        (S.seen serializer.new) }
{
    let _serializer = serializer;
    Err(Error::custom(alloc, text))
}
