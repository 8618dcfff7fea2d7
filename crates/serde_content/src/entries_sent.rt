//! Entries of a map whose keys are texts, as the fields of a struct with flattened ones are sent,
//! one after another.

#![tactic(auto, using(content_ser::proofs::Sending::sending))]

ghost use Rattle.std.specs.Prelude.{[], slice_index_or};
ghost use Rattle.content_ser.specs.Scripts.Begins.{Begins};
ghost use Rattle.content_ser.specs.Scripts.Sends.{Sends};
ghost use Rattle.content_ser.specs.Sending.Aside.{answer_of};
ghost use Rattle.serde_content.specs.Entries.{flattened_unless, key_first, tag_first};
ghost use Rattle.serde_content.specs.Laws.Flattened.{flattened_first};

use crate::fields_sent::{SendRow, send_name};
use crate::name_lists::Names;
use crate::own_functions::SkipIf;
use crate::skips::Skip;
use content_ser::{Call, Sent, Serialize, Serializer};
use content_tree::Error;
use std::alloc::Global;

/// The key of an entry, which is the name with this index among the names `K`, and the call that
/// announces its value.
#[inline(always)]
fn announce_entry<K: Names, S: Serializer>(
    index: usize,
    serializer: &mut S,
    error: &mut Error,
) -> Sent
    ensures { Begins S.step S.refuses (S.seen serializer.old)
        (key_first (slice_index_or K.names index []))
        (answer_of result error.new) (S.seen serializer.new) }
{
    serializer.call_aside(Call::Key, error)?;
    send_name::<K, S>(index, serializer, error)?;
    serializer.call_aside(Call::Value, error)
}

/// The entry whose key is the name with this index among the names `K`, and those after it.
#[inline(always)]
fn send_entry<K: Names, T: Serialize, R: SendRow, S: Serializer>(
    index: usize,
    value: &T,
    rest: &R,
    alloc: Global,
    serializer: &mut S,
    error: &mut Error,
) -> Sent
    ensures { Sends S.step S.refuses (S.seen serializer.old)
        (flattened_first (slice_index_or K.names index []) (T.script value.now)
        (R.script rest.now))
        (answer_of result error.new) (S.seen serializer.new) }
{
    announce_entry::<K, S>(index, serializer, error)?;
    value.serialize_aside(alloc, serializer, error)?;
    rest.send(alloc, serializer, error)
}

/// An entry whose key is the name with this index among the names `K`, and those after it.
#[derive(Drop)]
pub struct SendEntry<'a, K, T, R>(pub K, pub usize, pub &'a T, pub R);

impl<'a, K: Names, T: Serialize, R: SendRow> SendRow for SendEntry<'a, K, T, R> {
    ghost script = { λ row. flattened_first (slice_index_or K.names row.1 []) (T.script row.2.now)
        (R.script row.3) };

    #[inline(always)]
    fn send<S: Serializer>(&self, alloc: Global, serializer: &mut S, error: &mut Error) -> Sent {
        send_entry::<K, T, R, S>(self.1, self.2, &self.3, alloc, serializer, error)
    }
}

/// The same, unless the value is empty: it is left out then.
#[derive(Drop)]
pub struct SendEntryUnless<'a, K, T, R>(pub K, pub usize, pub &'a T, pub R);

impl<'a, K: Names, T: Serialize + Skip, R: SendRow> SendRow for SendEntryUnless<'a, K, T, R> {
    ghost script = { λ row. flattened_unless (T.is_empty row.2.now)
        (slice_index_or K.names row.1 []) (T.script row.2.now) (R.script row.3) };

    #[inline(always)]
    fn send<S: Serializer>(&self, alloc: Global, serializer: &mut S, error: &mut Error) -> Sent {
        let value = self.2;
        if value.is_skipped() {
            self.3.send(alloc, serializer, error)
        } else {
            send_entry::<K, T, R, S>(self.1, value, &self.3, alloc, serializer, error)
        }
    }
}

/// The same, unless `P` says that it is left out.
#[derive(Drop)]
pub struct SendEntryIf<'a, K, P, T, R>(pub K, pub P, pub usize, pub &'a T, pub R);

impl<'a, K: Names, P: SkipIf<T>, T: Serialize, R: SendRow> SendRow for SendEntryIf<'a, K, P, T, R> {
    ghost script = { λ row. flattened_unless (P.is_skipped row.3.now)
        (slice_index_or K.names row.2 []) (T.script row.3.now) (R.script row.4) };

    #[inline(always)]
    fn send<S: Serializer>(&self, alloc: Global, serializer: &mut S, error: &mut Error) -> Sent {
        let value = self.3;
        if P::is_skipped(value) {
            self.4.send(alloc, serializer, error)
        } else {
            send_entry::<K, T, R, S>(self.2, value, &self.4, alloc, serializer, error)
        }
    }
}

/// The entry that tags a variant of a flattened enum: its key is the first of the names `K`, and
/// the variant's name has this index among the names `V`.
#[derive(Drop)]
pub struct SendTagEntry<K, V, R>(pub K, pub V, pub usize, pub R);

impl<K: Names, V: Names, R: SendRow> SendRow for SendTagEntry<K, V, R> {
    ghost script = { λ row. tag_first (slice_index_or K.names 0 [])
        (slice_index_or V.names row.2 []) (R.script row.3) };

    #[inline(always)]
    fn send<S: Serializer>(&self, alloc: Global, serializer: &mut S, error: &mut Error) -> Sent {
        announce_entry::<K, S>(0, serializer, error)?;
        send_name::<V, S>(self.2, serializer, error)?;
        self.3.send(alloc, serializer, error)
    }
}

/// An entry whose key is the name with this index among the names `K` and whose value is a row,
/// and those after it.
#[derive(Drop)]
pub struct SendEntryInside<K, C, R>(pub K, pub usize, pub C, pub R);

impl<K: Names, C: SendRow, R: SendRow> SendRow for SendEntryInside<K, C, R> {
    ghost script = { λ row. flattened_first (slice_index_or K.names row.1 []) (C.script row.2)
        (R.script row.3) };

    #[inline(always)]
    fn send<S: Serializer>(&self, alloc: Global, serializer: &mut S, error: &mut Error) -> Sent {
        announce_entry::<K, S>(self.1, serializer, error)?;
        self.2.send(alloc, serializer, error)?;
        self.3.send(alloc, serializer, error)
    }
}
