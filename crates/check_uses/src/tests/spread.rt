//! Flattened values that are not inlined, as `tools/derive` wrote how they are sent. The texts are
//! what Serde's derive sends, printed here.

use super::answers::prints;
use check_fields::spread::{Page, Record, Seen, Seer, Sight, Sky};
use serde_content::{Result as Answer, Serializer};
use std::alloc::Global;
use std::collections::{BTreeMap, HashMap};
use std::process::Abort;
use std::test::Fail;

/// A page on which this was seen, and what was found elsewhere.
fn page(alloc: Global, seen: Option<Seen>, sight: Sight, seer: Seer) -> Answer<Page> {
    let mut more = BTreeMap::new(alloc);
    more.insert(String::from_str(alloc, "cold")?, -2)?;
    let mut unknown = BTreeMap::new(alloc);
    unknown.insert(String::from_str(alloc, "x")?, String::from_str(alloc, "y")?)?;
    Ok(Page {
        day: 3,
        tags: Vec::new(alloc),
        seen,
        sight,
        sky: Sky::Clear,
        seer: Box::new(alloc, seer)?,
        record: Record::Sketch(2),
        more,
        unknown,
    })
}

/// A page must be sent as what prints so.
fn check(rt: &impl Abort, alloc: Global, sent: &Page, wanted: &str) -> Result<(), Fail> {
    let value = Serializer::new().serialize(alloc, sent)?;
    let is_wanted = prints(alloc, &value.display(), wanted);
    drop(value);
    assert!(rt; is_wanted, "not {wanted}");
    Ok(())
}

#[test]
fn fields_of_a_variant_stand_among_the_others(rt: HostRuntime) -> Result<(), Fail> {
    let alloc = rt.alloc();
    let seen = Seen { at: 5, place: None };
    let sight = Sight::Birds {
        kind: String::from_str(alloc, "rook")?,
        count: 3,
    };
    let seer = Seer::Two(
        String::from_str(alloc, "Ann")?,
        String::from_str(alloc, "Bo")?,
    );
    let mut sent = page(alloc, Some(seen), sight, seer)?;
    sent.tags.push(String::from_str(alloc, "t")?)?;
    sent.record = Record::Film {
        file: String::from_str(alloc, "f")?,
        seconds: 9,
    };
    sent.sky = Sky::Clouds { tenths: 4 };
    let text = "{ \"day\": 3i32, \"tags\": [\"t\"], \"at\": 5u64, \"kind\": \"rook\", \
        \"count\": 3u32, \"sky\": \"Clouds\", \"tenths\": 4u8, \"by\": \"Two\", \
        \"who\": (\"Ann\", \"Bo\"), \"Film\": Film { file: \"f\", seconds: 9u32 }, \
        \"cold\": -2i64 }";
    check(&rt, alloc, &sent, text)
}

#[test]
fn what_is_empty_sends_nothing(rt: HostRuntime) -> Result<(), Fail> {
    let alloc = rt.alloc();
    let sent = page(alloc, None, Sight::Nothing, Seer::Unknown)?;
    let text = "{ \"day\": 3i32, \"sky\": \"Clear\", \"by\": \"Unknown\", \
        \"Sketch\": 2u32, \"cold\": -2i64 }";
    check(&rt, alloc, &sent, text)
}

#[test]
fn a_variant_of_one_value_sends_what_that_does(rt: HostRuntime) -> Result<(), Fail> {
    let alloc = rt.alloc();
    let place = Some(String::from_str(alloc, "moor")?);
    let trace = Sight::Trace(Seen { at: 7, place });
    let seer = Seer::One(String::from_str(alloc, "Ann")?);
    let text = "{ \"day\": 3i32, \"at\": 7u64, \"place\": Some(\"moor\"), \"sky\": \"Clear\", \
        \"by\": \"One\", \"who\": \"Ann\", \"Sketch\": 2u32, \"cold\": -2i64 }";
    check(&rt, alloc, &page(alloc, None, trace, seer)?, text)?;
    let mut others = HashMap::new(alloc);
    others.insert(String::from_str(alloc, "wren")?, 8)?;
    let text = "{ \"day\": 3i32, \"wren\": 8u8, \"sky\": \"Clear\", \"by\": \"Unknown\", \
        \"Sketch\": 2u32, \"cold\": -2i64 }";
    check(
        &rt,
        alloc,
        &page(alloc, None, Sight::Others(others), Seer::Unknown)?,
        text,
    )
}
