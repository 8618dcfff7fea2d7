//! Structs of the other sorts, as a caller writes them, read back.

ghost use Rattle.std.specs.Prelude.{codes, ⊤};
ghost use Rattle.content_de.specs.Reads.Own.{unit_struct_refusal};
ghost use Rattle.content_de.specs.Reads.Own.{newtype_struct_refusal, NewtypeStructGives};
ghost use Rattle.content_de.specs.Reads.Own.{tuple_struct_refusal, TupleStructGives};
ghost use Rattle.content_de.specs.Reads.Tuples.{part_then, end_of_parts, PartThen, NoPart};

use serde_content::de::{Deserialize, two_parts};
use serde_content::{Deserializer, Result as Answer, Value};
use std::alloc::Global;
use std::test::Fail;

/// A struct that holds nothing.
#[derive(Drop)]
struct Marker;

impl<'de> Deserialize<'de> for Marker {
    ghost refusal = { unit_struct_refusal (codes "Marker") };

    ghost gives = { λ s v. ⊤ };

    fn deserialize<'n: 'de>(alloc: Global, from: Deserializer<'de, 'n>) -> Answer<Marker> {
        from.deserialize_unit_struct(alloc, "Marker")?;
        Ok(Marker)
    }
}

/// A struct around one value.
#[derive(Drop)]
struct Metres(u32);

impl<'de> Deserialize<'de> for Metres {
    ghost refusal = { newtype_struct_refusal (codes "Metres")
        (⟦<u32 as Deserialize<'de>>⟧.refusal) };

    ghost gives = { λ s m. NewtypeStructGives (codes "Metres")
        (⟦<u32 as Deserialize<'de>>⟧.gives) m.0 s };

    fn deserialize<'n: 'de>(alloc: Global, from: Deserializer<'de, 'n>) -> Answer<Metres> {
        let inside = from.deserialize_newtype_struct(alloc, "Metres")?;
        Ok(Metres(inside.deserialize(alloc)?))
    }
}

/// A struct of values by place.
#[derive(Drop)]
struct Pair(u32, u32);

impl<'de> Deserialize<'de> for Pair {
    ghost refusal = { tuple_struct_refusal (codes "Pair")
        (part_then 2 0 (⟦<u32 as Deserialize<'de>>⟧.refusal)
        (part_then 2 1 (⟦<u32 as Deserialize<'de>>⟧.refusal)
        (end_of_parts 2))) };

    ghost gives = { λ s p. TupleStructGives (codes "Pair")
        (PartThen (⟦<u32 as Deserialize<'de>>⟧.gives) p.0
        (PartThen (⟦<u32 as Deserialize<'de>>⟧.gives) p.1
        NoPart)) s };

    fn deserialize<'n: 'de>(alloc: Global, from: Deserializer<'de, 'n>) -> Answer<Pair> {
        let (a, b) = two_parts(alloc, from.deserialize_tuple_struct(alloc, "Pair", 2)?)?;
        Ok(Pair(a, b))
    }
}

/// Reads a pair of values by place.
fn read_pair(alloc: Global, values: &[u32]) -> Answer<Pair> {
    let mut items = Vec::new(alloc);
    for value in values {
        items.push(Value::from(*value))?;
    }
    Deserializer::new(Value::Seq(items)).deserialize(alloc)
}

#[test]
fn structs_of_other_sorts_are_read(rt: HostRuntime) -> Result<(), Fail> {
    let alloc = rt.alloc();
    let Marker = Deserializer::new(Value::Unit).deserialize(alloc)?;
    let metres: Metres = Deserializer::new(Value::from(7u32)).deserialize(alloc)?;
    assert!(rt; metres.0 == 7);
    let pair = read_pair(alloc, &[1, 2])?;
    assert!(rt; pair.0 == 1 && pair.1 == 2);
    Ok(())
}
