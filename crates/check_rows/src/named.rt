//! Types and cases by their names.

/// What is done with the type among these that has this name, or else the last.
macro_rules! with_type {
    ($name:expr, $done:ident $given:tt, [$($known:ty),* $(,)?], $other:expr) => {
        match $name {
            $(stringify!($known) => $done::<$known> $given,)*
            _ => $other,
        }
    };
}

/// The case among these of an enum that has this name; of another name none.
macro_rules! case_named {
    ($name:expr, $of:ident, [$($known:ident),* $(,)?]) => {
        match $name {
            $(stringify!($known) => Some($of::$known),)*
            _ => None,
        }
    };
}

pub(crate) use case_named;
pub(crate) use with_type;
