//! Typed data out of values and their parts.

ghost use Rattle.std.specs.Prelude.{◌≡◌, ℕ, IfErr, IfSome, IsOk, List, Option};
ghost use Rattle.content_tree.specs.Errors.Where.{item, Place};
ghost use Rattle.content_de.specs.Outcomes.{IsTaken};
ghost use Rattle.content_de.specs.Sources.Deserializer.{subject};
ghost use Rattle.content_de.specs.Accesses.Seq.{seq_view, first_item, after_item};
ghost use Rattle.content_de.specs.Accesses.Map.{map_view, first_key, first_value, first_entry};
ghost use Rattle.content_de.specs.Accesses.Map.{after_key, after_entry};
ghost use Rattle.content_de.specs.Accesses.Enum.{enum_view, variant_view, tag_of};
ghost use Rattle.content_de.specs.Accesses.Enum.{newtype_variant_of};
ghost use Rattle.content_de.specs.Reads.Paths.{BeginsWith, IsAtEntry, IsWhole};
ghost use Rattle.content_de.specs.Reads.Read.{Reads};
ghost use Rattle.content_de.specs.Reads.Access.{ReadsNext, ReadsInside, entry_refusal, EntryGives};
ghost use Rattle.content_de.specs.Reads.Access.{NextMemoryless, EntryMemoryless, TagMemoryless};

use crate::deserialize::Deserialize;
use crate::deserializer::Deserializer;
use crate::enum_access::EnumAccess;
use crate::map::Map;
use crate::seq::Seq;
use crate::variant_access::VariantAccess;
use crate::within::read_entry;
use content_tree::Result;
use std::alloc::Global;

impl<'de, 'n> Deserializer<'de, 'n> {
    /// Reads a value of this type. Only the type takes memory.
    ///
    /// # Errors
    ///
    /// That of the type's first refusal, in reading order; out of memory in its place.
    pub fn deserialize<T: Deserialize<'de>>(self, alloc: Global) -> Result<T>
    where
        'n: 'de,
        ensures value { Reads (T.refusal (subject self.entry)) (T.gives (subject self.entry))
            result }
        ensures succeeds { T.memoryless (subject self.entry) → IsOk result }
    {
        T::deserialize(alloc, self)
    }
}

impl<'de, 'n> Seq<'de, 'n> {
    /// Reads the next item as this type, or answers none at the end. The item is taken away also
    /// where its reading is refused. Only the type and a refusal take memory.
    ///
    /// # Errors
    ///
    /// That of the type's first refusal; out of memory in its place.
    pub fn next_element<T: Deserialize<'de>>(&mut self, alloc: Global) -> Result<Option<T>>
    where
        'n: 'de,
        ensures value { ReadsNext T.refusal T.gives (first_item (seq_view self.old)) result }
        ensures succeeds { NextMemoryless T.memoryless (first_item (seq_view self.old))
            → IsOk result }
        ensures path { IfErr result (λ e. (index : ℕ) × BeginsWith (item index) e) }
        ensures rest { seq_view self.new ≡ after_item (seq_view self.old) }
    {
        let index = self.taken();
        match self.next_deserializer() {
            None => Ok(None),
            Some(item) => Ok(Some(item.deserialize_item(alloc, index)?)),
        }
    }
}

impl<'de, 'n> Map<'de, 'n> {
    /// Reads the key of the next entry as this type, or answers none at the end. The entry stays,
    /// with the unit as its key, also where the reading is refused. Only the type takes memory.
    ///
    /// # Errors
    ///
    /// That of the type's first refusal; out of memory in its place.
    pub fn next_key<K: Deserialize<'de>>(&mut self, alloc: Global) -> Result<Option<K>>
    where
        'n: 'de,
        ensures value { ReadsNext K.refusal K.gives (first_key (map_view self.old)) result }
        ensures succeeds { NextMemoryless K.memoryless (first_key (map_view self.old))
            → IsOk result }
        ensures path { IfErr result (λ e. IsWhole e) }
        ensures rest { map_view self.new ≡ after_key (map_view self.old) }
    {
        match self.take_key() {
            None => Ok(None),
            Some(key) => Ok(Some(key.deserialize_unplaced(alloc)?)),
        }
    }

    /// Reads the value of the next entry as this type. The entry is taken away also where the
    /// reading is refused, and whether or not its key was read; the path of a refusal is that of
    /// the map. Only the type and the text of an error take memory.
    ///
    /// # Errors
    ///
    /// That of the type's first refusal, or at the end `Custom` with the text
    /// `[BUG] value is missing`; out of memory in its place.
    pub fn next_value<V: Deserialize<'de>>(&mut self, alloc: Global) -> Result<V>
    where
        'n: 'de,
        ensures value { ReadsInside V.refusal V.gives (first_value (map_view self.old)) result }
        ensures succeeds { IsTaken (first_value (map_view self.old)) V.memoryless → IsOk result }
        ensures path { IfErr result (λ e. IsWhole e) }
        ensures rest { map_view self.new ≡ after_entry (map_view self.old) }
    {
        let value = self.next_value_deserializer(alloc)?;
        value.deserialize_unplaced(alloc)
    }

    /// Reads the key and the value of the next entry as these types, or answers none at the end.
    /// The entry is taken away also where the reading is refused. The value is read first, but the
    /// refusal of the key goes before that of the value. Only the types and a refusal take memory.
    ///
    /// # Errors
    ///
    /// That of the first refusal; out of memory in its place. The [path](content_tree::Error::path)
    /// of a refused value begins with its key, where that is a text, a character, a number or a
    /// name.
    pub fn next_entry<K: Deserialize<'de>, V: Deserialize<'de>>(
        &mut self,
        alloc: Global,
    ) -> Result<Option<(K, V)>>
    where
        'n: 'de,
        ensures value { ReadsNext (entry_refusal K.refusal V.refusal) (EntryGives K.gives V.gives)
            (first_entry (map_view self.old)) result }
        ensures succeeds { NextMemoryless (EntryMemoryless K.memoryless V.memoryless)
            (first_entry (map_view self.old)) → IsOk result }
        ensures path { IfErr result (λ e. IfSome (first_entry (map_view self.old))
            (λ entry. (inner : Option (List Place)) × IsAtEntry K.refusal entry.0 inner e)) }
        ensures rest { map_view self.new ≡ after_entry (map_view self.old) }
    {
        let Some((key, value)) = self.take_entry() else {
            return Ok(None);
        };
        Ok(Some(read_entry(alloc, key, value)?))
    }
}

impl<'de, 'n> EnumAccess<'de, 'n> {
    /// Reads the tag as this type, and gives what the variant holds. Only the type takes memory,
    /// and the copy of a name that is owned.
    ///
    /// # Errors
    ///
    /// That of the type's first refusal; out of memory in its place.
    pub fn variant<T: Deserialize<'de>>(self, alloc: Global) -> Result<(T, VariantAccess<'de, 'n>)>
    where
        'n: 'de,
        ensures value { Reads (T.refusal (tag_of (enum_view self.entry)))
            (λ p. T.gives (tag_of (enum_view self.entry)) p.0
            × (variant_view p.1 ≡ (enum_view self.entry).variant)) result }
        ensures succeeds { TagMemoryless T.memoryless (enum_view self.entry) → IsOk result }
    {
        let (tag, variant) = self.variant_deserializer(alloc)?;
        let tag = tag.deserialize_unplaced(alloc)?;
        Ok((tag, variant))
    }
}

impl<'de, 'n> VariantAccess<'de, 'n> {
    /// Reads the one value of a newtype variant, or whatever a map's entry holds, as this type. The
    /// path of a refusal doesn't begin with the variant: [`Error::at_name`](content_tree::Error::at_name)
    /// adds it. Only the type and the making of an error take memory.
    ///
    /// # Errors
    ///
    /// `Unexpected`, where the variant is of another sort, or that of the type's first refusal;
    /// out of memory in its place.
    pub fn newtype_variant<T: Deserialize<'de>>(self, alloc: Global) -> Result<T>
    where
        'n: 'de,
        ensures value { ReadsInside T.refusal T.gives
            (newtype_variant_of (variant_view self.entry)) result }
        ensures succeeds { IsTaken (newtype_variant_of (variant_view self.entry)) T.memoryless
            → IsOk result }
    {
        let value = self.newtype_deserializer(alloc)?;
        T::deserialize(alloc, value)
    }
}
