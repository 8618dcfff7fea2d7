//! Values of Serde's data model except floats, and the errors that show them. Use it through
//! `serde_content`.
//!
//! ```rust
//! let fields = vec![in alloc; (CowStr::Borrowed("y"), Value::from(7i32))]?;
//! let user = Struct {
//!     name: CowStr::Borrowed("Point"),
//!     data: Data::Struct { fields },
//! };
//! ```
//!
//! | What | Where |
//! |---|---|
//! | values | [`Value`], [`Struct`], [`Enum`], [`Data`] |
//! | numbers, texts, bytes in them | [`Number`], [`CowStr`], [`CowBytes`] |
//! | values from numbers, vectors and so on; back | `convert`; `parts`, `integers` |
//! | `get`, `as_str` and so on | `lookup` |
//! | paths | `pointer` |
//! | `insert`, `remove` and so on; by a path | `edits`; `path_edits` |
//! | `display`, `pretty` | [`ValueDisplay`], [`PrettyDisplay`] |
//! | `try_clone`; `into_owned` | `copy_value`, `copy_found`, `copy_error`; `owned` |
//! | `==` and the order | `compare`, [`laws`] |
//! | errors; what they show; where | [`Error`], [`ErrorKind`]; [`Found`], [`Expected`]; [`Path`], [`Located`] |

#![tactic(auto)]

mod compare;
mod convert;
mod copy_error;
mod copy_found;
mod copy_value;
mod cow;
mod display;
mod edits;
mod error;
mod expected;
mod found;
mod image;
mod integers;
pub mod laws;
mod lookup;
mod number;
mod owned;
mod parts;
mod path;
mod path_edits;
mod pointer;
mod quote;
mod trades;
mod trail;
mod unexpected;
mod value;

pub use cow::{CowBytes, CowStr};
pub use display::{PrettyDisplay, ValueDisplay};
pub use edits::InsertError;
pub use error::{Error, ErrorKind, Result};
pub use expected::{DataType, Expected};
pub use found::{Found, FoundData};
pub use number::Number;
pub use path::{Located, Path};
pub use unexpected::Unexpected;
pub use value::{Data, Enum, NamedData, NamedEnum, NamedStruct, NamedValue, Struct, Value};
