//! What functions of the user's say of fields: the value that is read where one is missing, and
//! whether one is left out.

ghost use Rattle.std.specs.Prelude.{◌≡◌, [], None, Bool, slice_index_or, string_bytes};
ghost use Rattle.content_ser.specs.Scripts.Sends.{Sends};
ghost use Rattle.content_ser.specs.Sending.Aside.{answer_of};
ghost use Rattle.content_de.specs.Accesses.ByName.{field_named, fields_left, without_field};
ghost use Rattle.content_de.specs.Reads.Read.{Reads};
ghost use Rattle.content_de.specs.Reads.ByName.{found_refusal, FoundGives};
ghost use Rattle.serde_content.specs.Literals.{row_or_then, RowOrThen};
ghost use Rattle.serde_content.specs.Skips.{fields_less, field_unless};

use crate::fields_read::ReadFields;
use crate::fields_sent::{Added, Fields, SendRow, add_field, send_field};
use crate::name_lists::{Names, name_at};
use content_de::{Deserialize, FieldsByName};
use content_ser::{Sent, Serialize, Serializer};
use content_tree::{Error, Result};
use std::alloc::Global;
use std::marker::PhantomData;

/// What is read where a field is missing.
pub trait DefaultOf<T> {
    /// Such a value.
    ghost is_default: { T → Type 0 };

    /// Makes one. The error is out of memory.
    fn make(alloc: Global) -> Result<T>
        ensures { Reads None (λ x. is_default x) result };
}

/// A text that is read where a field is missing. The error is out of memory.
pub fn default_text(alloc: Global, text: &str) -> Result<String>
    ensures { Reads None (λ x. string_bytes x ≡ text.now) result }
{
    Ok(String::from_str(alloc, text)?)
}

/// The field whose name has this index among the names `K`, wherever it is; where it is missing,
/// what `D` makes.
#[inline(always)]
fn field_at_else<'de, 'n: 'de, K: Names, T: Deserialize<'de>, D: DefaultOf<T>>(
    alloc: Global,
    fields: &mut FieldsByName<'de, 'n>,
    index: usize,
) -> Result<T>
    ensures value { Reads
        (found_refusal None T.refusal
        (field_named (slice_index_or K.names index []) (fields_left fields.old)))
        (FoundGives D.is_default T.gives
        (field_named (slice_index_or K.names index []) (fields_left fields.old))) result }
    ensures rest { fields_left fields.new
        ≡ without_field (slice_index_or K.names index []) (fields_left fields.old) }
{
    match fields.take_named(name_at::<K>(index)) {
        Some(field) => field.deserialize_field(alloc, name_at::<K>(index)),
        None => D::make(alloc),
    }
}

/// The field whose name has the index `I` among the names `K`, and those after it; where it is
/// missing, what `D` makes.
#[derive(Drop)]
pub struct ReadFieldElse<K, const I: usize, D, T, R>(pub T, pub R, pub PhantomData<(K, D)>);

impl<
    'de,
    K: Names,
    const I: usize,
    D: DefaultOf<T>,
    T: Deserialize<'de>,
    R: ReadFields<'de>,
> ReadFields<'de> for ReadFieldElse<K, I, D, T, R> {
    ghost refusal = { row_or_then (slice_index_or K.names I []) T.refusal R.refusal };

    ghost gives = { λ row. RowOrThen (slice_index_or K.names I []) D.is_default T.gives row.0
        (R.gives row.1) };

    #[tactic(auto, unfolding(crate::specs::Literals::row_or_then, crate::specs::Literals::RowOrThen))]
    #[inline(always)]
    fn read<'n: 'de>(alloc: Global, mut fields: FieldsByName<'de, 'n>) -> Result<Self> {
        match field_at_else::<K, T, D>(alloc, &mut fields, I) {
            Ok(value) => Ok(ReadFieldElse(value, R::read(alloc, fields)?, PhantomData)),
            Err(error) => {
                drop(fields);
                Err(error)
            }
        }
    }
}

/// When a field is left out.
pub trait SkipIf<T> {
    /// Whether it is where it has this value.
    ghost is_skipped: { T → Bool };

    /// Whether it is where it has this value.
    fn is_skipped(value: &T) -> bool
        ensures { result ≡ is_skipped value.now };
}

/// So many fields, less one where `P` says that the one of this value is left out.
pub fn count_if<T, P: SkipIf<T>>(_test: &P, value: &T, count: usize) -> usize
    ensures { result ≡ fields_less (P.is_skipped value.now) count }
{
    if P::is_skipped(value) {
        count.saturating_sub(1)
    } else {
        count
    }
}

/// A field whose name has this index among the names `K`, and those after it, unless `P` says that
/// it is left out.
#[derive(Drop)]
pub struct SendFieldIf<'a, K, P, T, R>(pub K, pub P, pub usize, pub &'a T, pub R);

impl<'a, K: Names, P: SkipIf<T>, T: Serialize, R: SendRow> SendRow for SendFieldIf<'a, K, P, T, R> {
    ghost script = { λ row. field_unless (P.is_skipped row.3.now) (slice_index_or K.names row.2 [])
        (T.script row.3.now) (R.script row.4) };

    #[inline(always)]
    fn send<S: Serializer>(&self, alloc: Global, serializer: &mut S, error: &mut Error) -> Sent {
        let value = self.3;
        if P::is_skipped(value) {
            self.4.send(alloc, serializer, error)
        } else {
            send_field::<K, T, R, S>(self.2, value, &self.4, alloc, serializer, error)
        }
    }

    #[inline(always)]
    fn count(&self) -> usize {
        self.4
            .count()
            .saturating_add(usize::from(!P::is_skipped(self.3)))
    }

    #[inline(always)]
    fn add_fields<'v, 'n>(
        &self,
        alloc: Global,
        readable: bool,
        room: usize,
        fields: &mut Fields<'v, 'n>,
    ) -> Added {
        if P::is_skipped(self.3) {
            return self.4.add_fields(alloc, readable, room, fields);
        }
        add_field::<K, T, R>(self.2, self.3, &self.4, alloc, readable, room, fields)
    }
}
