//! Values written as lines of calls.

use content_lines::read_line;
use serde_content::ser::{Builder, Serializer as _};
use serde_content::{Result as Answer, Value};
use std::alloc::Global;

/// Makes the calls of lines.
fn put_lines(builder: &mut Builder<'static>, alloc: Global, calls: &str) -> Answer<()> {
    for line in calls.split("; ") {
        if let Some(line) = read_line(line.as_bytes()) {
            builder.call(line.into_call(alloc)?)?;
        }
    }
    Ok(())
}

/// The value that lines of calls spell.
pub fn spelled(alloc: Global, calls: &str) -> Answer<Value<'static>> {
    let mut builder: Builder<'static> = Builder::new(alloc, false);
    put_lines(&mut builder, alloc, calls)?;
    builder.finish()
}
