//! Long texts in short: `<<0..3: k#; >>` means `k0; k1; k2; `.

use crate::answer::Answer;
use crate::failure::{Failure, Result};
use serde_content::CowStr;
use std::alloc::Global;

/// The text with all that is in double angles written out; one with nothing to write out takes no
/// memory.
pub fn unfold<'a>(alloc: Global, text: &'a str) -> Result<CowStr<'a>> {
    if text.contains("<<") {
        Ok(CowStr::Owned(written_out(alloc, text)?))
    } else {
        Ok(CowStr::Borrowed(text))
    }
}

/// The text with all that is in double angles written out.
fn written_out(alloc: Global, text: &str) -> Result<String> {
    let mut out = Answer::new(alloc);
    for (place, piece) in text.split("<<").enumerate() {
        if place == 0 {
            out.push_str(piece);
        } else if write_piece(&mut out, piece).is_none() {
            out.fail(Failure::NoRow);
        }
    }
    out.finish()
}

/// Adds the text after a range such as `0..3: `, once for each number in it, and what follows.
fn write_piece(out: &mut Answer, piece: &str) -> Option<()> {
    let (repeated, after) = piece.split_once(">>")?;
    let (range, text) = repeated.split_once(": ")?;
    let (start, end) = range.split_once("..")?;
    for number in start.parse::<u32>().ok()?..end.parse().ok()? {
        write_numbered(out, text, number);
    }
    out.push_str(after);
    Some(())
}

/// Adds the text, with the number in the place of `#`.
fn write_numbered(out: &mut Answer, text: &str, number: u32) {
    for (place, piece) in text.split('#').enumerate() {
        if place > 0 {
            out.print(number);
        }
        out.push_str(piece);
    }
}
