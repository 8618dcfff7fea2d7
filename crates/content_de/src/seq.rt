//! The items of a sequence, one after another.

ghost use Rattle.std.specs.Prelude.{◌≡◌, Some, option_map};
ghost use Rattle.content_tree.specs.Values.Value.{trees_view};
ghost use Rattle.content_de.specs.Sources.Deserializer.{flags_of, subject};
ghost use Rattle.content_de.specs.Accesses.Seq.{seq_view, items_under, first_item, after_item};
ghost use Rattle.content_tree.specs.Values.Tree.{count};

use crate::deserializer::Deserializer;
use crate::source::Flags;
use content_tree::NamedValue;
use std::collections::VecDeque;

/// Gives out the items of a sequence, a tuple or a tuple struct, one by one, each in constant time
/// and without memory.
#[derive(Drop)]
pub struct Seq<'de, 'n> {
    items: VecDeque<NamedValue<'de, 'n>>,
    flags: Flags,
    /// How many items there were at first.
    count: usize,
}

impl<'de, 'n> Seq<'de, 'n> {
    /// All of these items.
    pub(crate) fn new(items: Vec<NamedValue<'de, 'n>>, flags: Flags) -> Seq<'de, 'n>
        ensures { seq_view result ≡ items_under (flags_of flags) (trees_view items.entry.items) }
    {
        let count = items.len();
        Seq {
            items: VecDeque::from_vec(items),
            flags,
            count,
        }
    }

    /// Whether the items are read out of a buffer.
    pub(crate) fn is_buffered(&self) -> bool
        ensures { result ≡ (seq_view self.now).flags.buffered }
    {
        self.flags.buffered
    }

    /// How many items were given out.
    pub(crate) fn taken(&self) -> usize {
        self.count.saturating_sub(self.items.len())
    }

    /// How many items are left, exactly. It takes no memory.
    #[tactic(auto, using(crate::proofs::Counts::count_values))]
    pub fn size_hint(&self) -> Option<usize>
        ensures { result ≡ Some (count (seq_view self.now).items) }
    {
        Some(self.items.len())
    }

    /// Gives the next item, to be read under the flags of the sequence, or none at the end. If
    /// [`Deserializer::deserialize_item`] reads it, the path of a refusal has its index. This takes
    /// no memory.
    pub fn next_deserializer(&mut self) -> Option<Deserializer<'de, 'n>>
        ensures value { option_map subject result ≡ first_item (seq_view self.old) }
        ensures rest { seq_view self.new ≡ after_item (seq_view self.old) }
    {
        match self.items.pop_front() {
            Some(item) => Some(Deserializer::inside(item, self.flags)),
            None => None,
        }
    }
}
