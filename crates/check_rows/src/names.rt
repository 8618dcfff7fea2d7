//! The names that a row may have static.

/// The names that a row may have static.
static NAMES: [&'static str; 33] = [
    "Foo", "Bar", "Baz", "Point", "Shape", "Dot", "Ring", "Span", "Area", "Other", "E", "K", "N",
    "S", "T", "V", "a", "b", "c", "h", "k", "p", "q", "w", "x", "y", "z", "bar", "baz", "Duration",
    "secs", "nanos", LONG_NAME,
];

/// A name of 200 bytes.
const LONG_NAME: &str = "\
nnnnnnnnnnnnnnnnnnnnnnnnnnnnnnnnnnnnnnnnnnnnnnnnnnnnnnnnnnnnnnnnnnnnnnnnnnnnnnnn\
nnnnnnnnnnnnnnnnnnnnnnnnnnnnnnnnnnnnnnnnnnnnnnnnnnnnnnnnnnnnnnnnnnnnnnnnnnnnnnnn\
nnnnnnnnnnnnnnnnnnnnnnnnnnnnnnnnnnnnnnnn";

/// The same name, for as long as the program runs, where it is one of these.
pub fn static_name(name: &str) -> Option<&'static str> {
    NAMES.iter().copied().find(|known| *known == name)
}
