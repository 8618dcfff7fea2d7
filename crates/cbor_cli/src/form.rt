//! How values print.

/// How a value prints.
#[derive(Clone, Copy, Debug, PartialEq, Eq)]
pub enum Form {
    /// On one line, and after a tab the bytes that are written of it.
    Plain,
    /// On several lines, without its bytes.
    Pretty,
}
