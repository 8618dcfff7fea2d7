//! What code calls that `tools/derive` writes. Call none of it by hand: it changes with that tool.

pub use crate::absent::Absent;
pub use crate::aliases::{FieldNames, NameAt, NoName, OfType, ReadAliased, ReadAliasedElse};
pub use crate::entries_sent::{
    SendEntry, SendEntryIf, SendEntryInside, SendEntryUnless, SendTagEntry,
};
pub use crate::fields_read::{
    OthersRefused, OthersSkipped, PartsEnd, ReadField, ReadFieldOr, ReadFields, ReadPart,
    ReadParts, ReadStruct, read_flattened, read_struct,
};
pub use crate::fields_sent::{
    SendElement, SendEnd, SendField, SendFieldUnless, SendInside, SendOpen, SendPart, SendRow,
    SendTag, direct_row, refuse_unsent, send_row,
};
pub use crate::flattened_sent::{SendAll, SendEntries, SendRest};
pub use crate::made_of::{
    MadeFrom, MadeOf, read_made, read_made_from, read_made_of_parts, read_tuple_variant_made_from,
    read_variant_made_from,
};
pub use crate::name_lists::{Names, no_such_variant, variant_index};
pub use crate::one_of::{
    OneOfFour, OneOfThree, OneOfTwo, first_of_four, first_of_three, first_of_two,
};
pub use crate::own_functions::{
    DefaultOf, ReadFieldElse, SendFieldIf, SkipIf, count_if, default_text,
};
pub use crate::rests::{ReadRest, TryRest};
pub use crate::skips::{Skip, count_unless};
pub use crate::tags::{Aliases, OtherAt, OwnNames, Tags, read_enum_by};
pub use crate::variants::{
    TaggedVariants, Variants, in_variant, read_adjacent, read_adjacent_by, read_enum, read_tagged,
    read_tagged_by,
};
