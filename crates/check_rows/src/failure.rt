//! Why a row has no answer.

/// Why a row has no answer.
#[derive(Clone, Copy)]
pub enum Failure {
    /// The line is no row.
    NoRow,
    /// An allocation failed.
    OutOfMemory,
}

/// What becomes of a line.
pub type Result<T> = std::result::Result<T, Failure>;
