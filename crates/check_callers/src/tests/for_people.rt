//! A type that sends whether the serialiser is human readable.

ghost use Rattle.content_ser.specs.Calls.Event.{boolean};
ghost use Rattle.content_ser.specs.Scripts.Script.{call_then, done};
ghost use Rattle.content_ser.specs.Laws.StandardScripts.{leaf_lawful};
ghost use Rattle.std.specs.Prelude.{refl};

use serde_content::ser::{Serialize, Serializer as Sink};
use serde_content::{Result as Answer, Serializer, Value};
use std::alloc::Global;
use std::test::Fail;

/// Sends whether the serialiser is human readable.
struct ForPeople;

impl Serialize for ForPeople {
    ghost script = { λ x readable. call_then (boolean readable) done };

    ghost lawful = { λ x readable. leaf_lawful refl };

    #[tactic(auto, using(serde_content::proofs::Telling::told_flag))]
    fn serialize<S: Sink>(&self, _alloc: Global, serializer: &mut S) -> Answer<()> {
        let readable = serializer.is_human_readable();
        serializer.serialize_bool(readable)
    }
}

#[test]
fn a_type_learns_whether_it_is_for_people(rt: HostRuntime) -> Result<(), Fail> {
    let alloc = rt.alloc();
    let plain = Serializer::new();
    let readable = plain.human_readable();
    assert!(rt; plain.serialize(alloc, &ForPeople)? == Value::Bool(false));
    assert!(rt; readable.serialize(alloc, &ForPeople)? == Value::Bool(true));
    Ok(())
}
