//! What several own.

use crate::deserialize::Deserialize;
use crate::deserializer::Deserializer;
use content_tree::Result;
use std::alloc::Global;
use std::rc::Rc;
use std::sync::Arc;

/// What the type in it reads, in memory of its own.
impl<'de, T: Deserialize<'de>> Deserialize<'de> for Rc<T> {
    ghost refusal = { T.refusal };

    ghost gives = { λ s v. T.gives s v.value };

    fn deserialize<'n: 'de>(alloc: Global, from: Deserializer<'de, 'n>) -> Result<Rc<T>> {
        Ok(Rc::new(alloc, T::deserialize(alloc, from)?)?)
    }
}

/// What the type in it reads, in memory of its own.
impl<'de, T: Deserialize<'de>> Deserialize<'de> for Arc<T> {
    ghost refusal = { T.refusal };

    ghost gives = { λ s v. T.gives s v.value };

    fn deserialize<'n: 'de>(alloc: Global, from: Deserializer<'de, 'n>) -> Result<Arc<T>> {
        Ok(Arc::new(alloc, T::deserialize(alloc, from)?)?)
    }
}
