//! What reading needs: types that can be read, the parts of values, fields by name, variants.

pub use content_de::{
    Deserialize, EnumAccess, FieldsByName, IntoDeserializer, Map, Node, Seq, VariantAccess,
    attempt, attempt_fitting, attempt_last, deny_unknown_fields, end_parts, field_or, finish_parts,
    ignore_unknown_fields, internal_tag, keep_unknown_fields, named_field, next_field, next_part,
    refused_value, tag_field, two_parts, unknown_variant,
};
