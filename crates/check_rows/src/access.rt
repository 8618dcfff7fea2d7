//! Accesses as rows have them: sequences and maps, read to their end, and the tags of variants.

use crate::answer::Answer;
use crate::deserializer::{write_handed, write_inside};
use crate::flags::{Flags, flags_word};
use crate::show::write_comma;
use serde_content::de::{EnumAccess, Map, Seq, VariantAccess};
use serde_content::{Deserializer, Result};

/// Adds the opening of an access with these flags.
fn write_opening(out: &mut Answer, word: &str, flags: Flags) {
    out.push_str(word);
    out.push('(');
    out.push_str(flags_word(flags));
    out.push_str("; ");
}

/// Adds the items of a sequence.
pub fn write_seq(out: &mut Answer, flags: Flags, items: Result<Seq<'_, 'static>>) {
    if let Some(mut items) = out.given(items) {
        write_opening(out, "seq", flags);
        for place in 0..usize::MAX {
            let Some(item) = items.next_deserializer() else {
                break;
            };
            write_comma(out, place);
            write_inside(out, flags, item);
        }
        out.push(')');
    }
}

/// Adds the entries of a map, of each its key and then its value.
pub fn write_map(out: &mut Answer, flags: Flags, entries: Result<Map<'_, 'static>>) {
    if let Some(mut entries) = out.given(entries) {
        write_opening(out, "map", flags);
        for place in 0..usize::MAX {
            let key = entries.next_key_deserializer(out.alloc());
            let Some(key) = out.given(key).flatten() else {
                break;
            };
            write_comma(out, place);
            write_inside(out, flags, key);
            write_value(out, flags, &mut entries);
        }
        out.push(')');
    }
}

/// Adds the value of the entry whose key was read.
fn write_value(out: &mut Answer, flags: Flags, entries: &mut Map<'_, 'static>) {
    let value = entries.next_value_deserializer(out.alloc());
    if let Some(value) = out.given(value) {
        out.push_str(" => ");
        write_inside(out, flags, value);
    }
}

/// The tag of a variant, and what it holds.
pub fn open<'de>(
    out: &mut Answer,
    access: Result<EnumAccess<'de, 'static>>,
) -> Option<(Deserializer<'de, 'static>, VariantAccess<'de, 'static>)> {
    let access = out.given(access)?;
    out.given(access.variant_deserializer(out.alloc()))
}

/// Adds the tag of a variant.
pub fn write_enum(out: &mut Answer, access: Result<EnumAccess<'_, 'static>>) {
    if let Some((tag, held)) = open(out, access) {
        drop(held);
        out.push_str("enum ");
        write_handed(out, tag);
    }
}
