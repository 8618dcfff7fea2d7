//! The examples of the page on values.

use check_fields::attributes::Server;
use content_uses::merge;
use serde_content::{Deserializer, Value, value};
use std::collections::BTreeMap;
use std::test::Fail;

/// What the configuration prints.
const PRINTED: &str = r#"
{
  "web": {
    "host-name": "local",
    "port": 8443u16,
    "open": false
  },
  "mail": { "quiet": true }
}
"#;

#[test]
fn a_configuration_is_changed_and_read(rt: HostRuntime) -> Result<(), Fail> {
    let alloc = rt.alloc();

    let defaults = value!(in alloc; {
        "web": { "host-name": "local", "port": 80u16 },
        "mail": { "port": 25u16 },
    })?;
    let site = value!(in alloc; { "web": { "port": 8443u16, "open": false } })?;
    let mut config = merge(alloc, defaults, site)?;
    config.insert(Value::from("mail"), value!(in alloc; { "quiet": true })?)?;
    assert!(rt; config.pointer("/web/port").and_then(|port| port.as_i64()) == Some(8443));
    let text = format!(in alloc; "{}", config.pretty())?;

    assert!(rt; text.as_str() == PRINTED.trim());

    let servers: BTreeMap<String, Server> = Deserializer::new(config).deserialize(alloc)?;
    assert!(rt;
        servers
            .get("web")
            .is_some_and(|web| web.port == 8443 && !web.open)
    );
    Ok(())
}

#[test]
fn a_misfit_is_told_with_its_place(rt: HostRuntime) -> Result<(), Fail> {
    let alloc = rt.alloc();

    let wrong = value!(in alloc; { "web": { "host-name": "local", "port": "http" } })?;
    match Deserializer::new(wrong).deserialize::<BTreeMap<String, Server>>(alloc) {
        Ok(_) => assert!(rt; false),
        Err(error) => assert_eq!(rt;
            format!(in alloc; "{}", error.located())?.as_str(),
            "web.port: expected a 16-bit unsigned integer, found \"http\""
        ),
    }
    Ok(())
}
