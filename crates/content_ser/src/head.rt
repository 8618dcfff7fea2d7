//! The static names of a struct or a variant.

/// The static names of a struct, or of a variant with its index. Not in `serde-content`; for the
/// crates above.
#[derive(Clone, Copy)]
pub enum Head {
    /// The name of a struct.
    Struct(&'static str),
    /// The name of an enum, the index of the variant, and its name.
    Variant(&'static str, u32, &'static str),
}
