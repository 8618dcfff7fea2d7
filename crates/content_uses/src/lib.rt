//! Keeps records of any type, and merges configurations, as values of `serde_content`.
//!
//! ```rust
//! let mut store = Store::new(alloc);
//! let first = store.put(alloc, &Point { x: 1, y: 2 })?;
//! let second = store.put(alloc, &Some(7u8))?;
//! let point: Point = store.get(alloc, first)?;
//! assert!(rt; point == Point { x: 1, y: 2 });
//! ```
//!
//! | To | Use |
//! |---|---|
//! | keep, save and load records | [`Store`], [`LoadError`] |
//! | put one configuration over another | [`merge`] |
//! | prove something of these | [`laws`] |

#![tactic(auto)]

pub mod laws;
mod load_error;
mod merging;
mod store;

pub use load_error::LoadError;
pub use merging::merge;
pub use store::Store;
