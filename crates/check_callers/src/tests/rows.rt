//! Types that become values without calls, by rows of their fields.

ghost use Rattle.std.specs.Prelude.{◌≡◌, ◌∷◌, [], Option, refl};
ghost use Rattle.content_ser.specs.Scripts.Direct.{Spelled};
ghost use Rattle.content_ser.specs.Scripts.Sends.{Sends};
ghost use Rattle.content_ser.specs.Scripts.Standard.{tuple_script, element_first};
ghost use Rattle.content_ser.specs.Scripts.Own.{field_first, tuple_field_first, end_script};
ghost use Rattle.content_ser.specs.Scripts.Own.{tuple_struct_script, struct_script};
ghost use Rattle.content_ser.specs.Laws.StandardScripts.{leaf_lawful, option_lawful, seq_lawful};
ghost use Rattle.content_ser.specs.Laws.StandardScripts.{tuple_lawful, element_fits, end_fits};
ghost use Rattle.content_ser.specs.Laws.OwnScripts.{field_fits, struct_end_fits, tuple_field_fits};
ghost use Rattle.content_ser.specs.Laws.OwnScripts.{tuple_end_fits, tuple_struct_lawful};
ghost use Rattle.content_ser.specs.Laws.OwnScripts.{struct_lawful};
ghost use Rattle.serde_content.specs.Literals.{name};
ghost use Rattle.serde_content.specs.Skips.{fields_less, field_unless};
ghost use Rattle.serde_content.specs.Laws.Skips.{field_unless_fits};
ghost use Rattle.serde_content.specs.Laws.Tagged.{tagged_script};
ghost use Rattle.check_callers.specs.declared.tests.rows.Event.TheVariants as event;

use serde_content::derive_support::{
    Names, SendElement, SendEnd, SendField, SendFieldUnless, SendInside, SendOpen, SendPart,
    SendTag, Skip, count_unless, direct_row, send_row,
};
use serde_content::ser::{Builder, Call, Made, Serialize, Serializer, Unmade};
use serde_content::{Result as Answer, Serializer as ToValue, Value};
use std::alloc::Global;
use std::test::Fail;

/// What is sent.
#[derive(Drop)]
pub struct Parcel {
    /// To whom.
    pub name: String,
    /// How long it is, if that is known.
    pub size: Option<u64>,
    /// Where it lies.
    pub spot: Spot,
}

/// The names of its fields.
#[derive(Drop)]
struct FieldsOfParcel;

impl Names for FieldsOfParcel {
    ghost names = { name "name" ∷ name "size" ∷ name "spot" ∷ [] };

    #[tactic(auto, unfolding(serde_content::specs::Literals::name))]
    fn names() -> &'static [&'static str] {
        &["name", "size", "spot"]
    }
}

impl Serialize for Parcel {
    ghost use Rattle.check_callers.specs.contracts.tests.rows.SpotSerialize.TheImpl.Laws as spot_serialize;

    ghost script = { λ p. struct_script (name "Parcel")
        (fields_less (⟦<Option<u64> as Skip>⟧.is_empty p.size) 3)
        (field_first (name "name") (⟦<String as Serialize>⟧.script p.name)
        (field_unless (⟦<Option<u64> as Skip>⟧.is_empty p.size) (name "size")
        (⟦<Option<u64> as Serialize>⟧.script p.size)
        (field_first (name "spot") (⟦<Spot as Serialize>⟧.script p.spot)
        end_script))) };

    ghost lawful = { λ p readable. struct_lawful
        (field_fits (leaf_lawful refl)
        (field_unless_fits _ _ _ _ (⟦<Option<u64> as Skip>⟧.is_empty p.size)
        (option_lawful (λ x h. leaf_lawful refl) p.size readable)
        (field_fits (spot_serialize.lawful-law p.spot readable)
        struct_end_fits))) };

    fn serialize<S: Serializer>(&self, alloc: Global, serializer: &mut S) -> Answer<()> {
        let row = SendEnd;
        let row = SendField(FieldsOfParcel, 2, &self.spot, row);
        let row = SendFieldUnless(FieldsOfParcel, 1, &self.size, row);
        let row = SendField(FieldsOfParcel, 0, &self.name, row);
        let row = SendOpen(
            Call::Struct(name_parcel(), count_unless(&self.size, 3)),
            row,
        );
        send_row(alloc, serializer, &row)
    }

    fn is_direct() -> bool {
        <String as Serialize>::is_direct()
            && <Option<u64> as Serialize>::is_direct()
            && <Spot as Serialize>::is_direct()
    }

    fn direct<'v, 'n>(&self, alloc: Global, readable: bool, room: usize) -> Made<'v, 'n> {
        let row = SendEnd;
        let row = SendField(FieldsOfParcel, 2, &self.spot, row);
        let row = SendFieldUnless(FieldsOfParcel, 1, &self.size, row);
        let row = SendField(FieldsOfParcel, 0, &self.name, row);
        let row = SendOpen(
            Call::Struct(name_parcel(), count_unless(&self.size, 3)),
            row,
        );
        direct_row(alloc, readable, room, &row)
    }
}

/// A place.
#[derive(Drop)]
pub struct Spot(pub u8, pub Vec<i32>);

impl Serialize for Spot {
    ghost script = { λ p. tuple_struct_script (name "Spot") 2
        (tuple_field_first (⟦<u8 as Serialize>⟧.script p.0)
        (tuple_field_first (⟦<Vec<i32> as Serialize>⟧.script p.1)
        end_script)) };

    ghost lawful = { λ p readable. tuple_struct_lawful
        (tuple_field_fits (leaf_lawful refl)
        (tuple_field_fits (seq_lawful (λ x h. leaf_lawful refl) p.1.items readable)
        tuple_end_fits)) };

    fn serialize<S: Serializer>(&self, alloc: Global, serializer: &mut S) -> Answer<()> {
        let row = SendEnd;
        let row = SendPart(&self.1, row);
        let row = SendPart(&self.0, row);
        let row = SendOpen(Call::TupleStruct(name_spot(), 2), row);
        send_row(alloc, serializer, &row)
    }

    fn is_direct() -> bool {
        <u8 as Serialize>::is_direct() && <Vec<i32> as Serialize>::is_direct()
    }

    fn direct<'v, 'n>(&self, alloc: Global, readable: bool, room: usize) -> Made<'v, 'n> {
        let row = SendEnd;
        let row = SendPart(&self.1, row);
        let row = SendPart(&self.0, row);
        let row = SendOpen(Call::TupleStruct(name_spot(), 2), row);
        direct_row(alloc, readable, room, &row)
    }
}

/// What became of it.
#[derive(Drop)]
pub enum Event {
    /// It was packed.
    Packed,
    /// It was moved.
    Moved(Spot, Spot),
}

/// The names of its fields.
#[derive(Drop)]
struct FieldsOfEventPacked;

impl Names for FieldsOfEventPacked {
    ghost names = { name "event" ∷ [] };

    #[tactic(auto, unfolding(serde_content::specs::Literals::name))]
    fn names() -> &'static [&'static str] {
        &["event"]
    }
}

/// The names of its fields.
#[derive(Drop)]
struct FieldsOfEventMoved;

impl Names for FieldsOfEventMoved {
    ghost names = { name "event" ∷ name "of" ∷ [] };

    #[tactic(auto, unfolding(serde_content::specs::Literals::name))]
    fn names() -> &'static [&'static str] {
        &["event", "of"]
    }
}

/// Sends that variant.
fn send_whole_event_moved<S: Serializer>(
    alloc: Global,
    serializer: &mut S,
    whole: &Event,
    x1: &Spot,
    x2: &Spot,
) -> Answer<()>
    requires { whole.now ≡ event.Moved x1.now x2.now }
    ensures { Sends S.step S.refuses (S.seen serializer.old)
        (⟦<Event as Serialize>⟧.script whole.now)
        result (S.seen serializer.new) }
{
    let row = SendEnd;
    let row = SendElement(x2, row);
    let row = SendElement(x1, row);
    let row = SendOpen(Call::Tuple(2), row);
    let row = SendInside(FieldsOfEventMoved, 1, row, SendEnd);
    let row = SendTag(FieldsOfEventMoved, NamesOfEvent, 1, row);
    let row = SendOpen(Call::Struct(name_event(), 2), row);
    send_row(alloc, serializer, &row)
}

/// Makes directly that variant.
fn direct_whole_event_moved<'v, 'n>(
    alloc: Global,
    readable: bool,
    room: usize,
    whole: &Event,
    x1: &Spot,
    x2: &Spot,
) -> Made<'v, 'n>
    requires { whole.now ≡ event.Moved x1.now x2.now }
    ensures { Spelled room (⟦<Event as Serialize>⟧.script whole.now readable) result }
{
    let row = SendEnd;
    let row = SendElement(x2, row);
    let row = SendElement(x1, row);
    let row = SendOpen(Call::Tuple(2), row);
    let row = SendInside(FieldsOfEventMoved, 1, row, SendEnd);
    let row = SendTag(FieldsOfEventMoved, NamesOfEvent, 1, row);
    let row = SendOpen(Call::Struct(name_event(), 2), row);
    direct_row(alloc, readable, room, &row)
}

/// The names of its variants.
#[derive(Drop)]
struct NamesOfEvent;

impl Names for NamesOfEvent {
    ghost names = { name "Packed" ∷ name "Moved" ∷ [] };

    #[tactic(auto, unfolding(serde_content::specs::Literals::name))]
    fn names() -> &'static [&'static str] {
        &["Packed", "Moved"]
    }
}

impl Serialize for Event {
    ghost use Rattle.check_callers.specs.contracts.tests.rows.SpotSerialize.TheImpl.Laws as spot_serialize;

    ghost script = { elim [
      | event.Packed ↦ tagged_script (name "Event") 1 (name "event") (name "Packed")
          end_script
      | event.Moved x1 x2 ↦ tagged_script (name "Event") 2 (name "event") (name "Moved")
          (field_first (name "of") (tuple_script 2
          (element_first (⟦<Spot as Serialize>⟧.script x1)
          (element_first (⟦<Spot as Serialize>⟧.script x2)
          end_script)))
          end_script)
    ] };

    ghost lawful = { elim [
      | event.Packed ↦ λ readable. struct_lawful
          (field_fits (leaf_lawful refl)
          struct_end_fits)
      | event.Moved x1 x2 ↦ λ readable. struct_lawful
          (field_fits (leaf_lawful refl)
          (field_fits (tuple_lawful
          (element_fits (spot_serialize.lawful-law x1 readable)
          (element_fits (spot_serialize.lawful-law x2 readable)
          end_fits)))
          struct_end_fits))
    ] };

    fn serialize<S: Serializer>(&self, alloc: Global, serializer: &mut S) -> Answer<()> {
        match self {
            Event::Packed => {
                let row = SendEnd;
                let row = SendTag(FieldsOfEventPacked, NamesOfEvent, 0, row);
                let row = SendOpen(Call::Struct(name_event(), 1), row);
                send_row(alloc, serializer, &row)
            }
            Event::Moved(x1, x2) => send_whole_event_moved(alloc, serializer, self, x1, x2),
        }
    }

    fn is_direct() -> bool {
        <Spot as Serialize>::is_direct()
    }

    fn direct<'v, 'n>(&self, alloc: Global, readable: bool, room: usize) -> Made<'v, 'n> {
        match self {
            Event::Packed => {
                let row = SendEnd;
                let row = SendTag(FieldsOfEventPacked, NamesOfEvent, 0, row);
                let row = SendOpen(Call::Struct(name_event(), 1), row);
                direct_row(alloc, readable, room, &row)
            }
            Event::Moved(x1, x2) => direct_whole_event_moved(alloc, readable, room, self, x1, x2),
        }
    }
}

/// The name `Parcel`.
#[tactic(auto, unfolding(serde_content::specs::Literals::name))]
fn name_parcel() -> &'static str
    ensures { result.now ≡ name "Parcel" }
{
    "Parcel"
}

/// The name `Spot`.
#[tactic(auto, unfolding(serde_content::specs::Literals::name))]
fn name_spot() -> &'static str
    ensures { result.now ≡ name "Spot" }
{
    "Spot"
}

/// The name `Event`.
#[tactic(auto, unfolding(serde_content::specs::Literals::name))]
fn name_event() -> &'static str
    ensures { result.now ≡ name "Event" }
{
    "Event"
}

/// The value that the calls of something build.
fn built<T: Serialize>(alloc: Global, sent: &T) -> Answer<Value<'static>> {
    let mut builder = Builder::new(alloc, false);
    sent.serialize(alloc, &mut builder)?;
    builder.finish()
}

/// Whether something is made directly within so many levels, and is what its calls build.
fn is_made<T: Serialize>(alloc: Global, sent: &T, room: usize) -> Answer<bool> {
    let built = built(alloc, sent)?;
    let is_made = match sent.direct(alloc, false, room) {
        Ok(made) => made == built,
        Err(_) => false,
    };
    drop(built);
    Ok(is_made && T::is_direct())
}

/// A place of these numbers.
fn spot_at(alloc: Global, at: u8, further: &[i32]) -> Answer<Spot> {
    let mut all = Vec::new(alloc);
    for number in further {
        all.push(*number)?;
    }
    Ok(Spot(at, all))
}

#[test]
fn rows_make_what_their_calls_build(rt: HostRuntime) -> Result<(), Fail> {
    let alloc = rt.alloc();
    let parcel = Parcel {
        name: String::from_str(alloc, "a")?,
        size: Some(3),
        spot: spot_at(alloc, 1, &[-1, 2])?,
    };
    assert!(rt; is_made(alloc, &parcel, 3)?);
    assert!(rt; matches!(parcel.direct(alloc, false, 2), Err(Unmade::ByCalls)));
    let unknown = Parcel {
        size: None,
        ..parcel
    };
    assert!(rt; is_made(alloc, &unknown, 3)?);
    let value = ToValue::new().serialize(alloc, &unknown)?;
    assert!(rt; value.fields().len() == 2);
    assert!(rt; is_made(alloc, &Event::Packed, 1)?);
    let moved = Event::Moved(spot_at(alloc, 1, &[])?, spot_at(alloc, 2, &[7])?);
    assert!(rt; is_made(alloc, &moved, 4)?);
    assert!(rt; matches!(moved.direct(alloc, false, 3), Err(Unmade::ByCalls)));
    Ok(())
}
