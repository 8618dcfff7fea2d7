//! What `==` and the order of deserializers mean, and laws of the definitions, each a call that
//! answers nothing and whose contract is the law.

ghost use Rattle.std.specs.Prelude.{◌≡◌};
ghost use Rattle.std.specs.Bool.{Decides};
ghost use Rattle.content_de.specs.Sources.Deserializer.{subject};
ghost use Rattle.content_de.specs.Sources.Order.{SameSubject, subject_cmp};
ghost use Rattle.content_de.specs.Laws.{CoercionKeeps, PlainOnce, PlainVariant};

use crate::deserializer::Deserializer;
use std::cmp::Ordering;

/// How deserializers are ordered: by what is read (a tree before an identifier, identifiers by
/// name and then index), then whether it is human readable, whether numbers are coerced, and whether
/// it is buffered; what is off is less. It takes no memory.
pub fn compare_deserializers<'de, 'n>(
    left: &Deserializer<'de, 'n>,
    right: &Deserializer<'de, 'n>,
) -> Ordering
    ensures { result ≡ subject_cmp (subject left.now) (subject right.now) }
{
    left.cmp(right)
}

/// What `==` of deserializers answers: whether both read the same but for marks, under the same
/// flags. It takes no memory.
#[tactic(auto, using(crate::proofs::Ties::equal_deserializers))]
pub fn equal_deserializers<'de, 'n>(
    left: &Deserializer<'de, 'n>,
    right: &Deserializer<'de, 'n>,
) -> bool
    ensures { Decides result (SameSubject (subject left.now) (subject right.now)) }
{
    *left == *right
}

/// The plain form of a plain form is itself.
#[tactic(auto, using(crate::proofs::PlainLaws::twice))]
pub fn plain_once()
    ensures { PlainOnce }
{}

/// The plain form of a variant is a variant too. Asked for the sort that the variant is of, it is
/// taken: its tag is the variant's name as a text, and what it hands out is the plain form of what
/// the variant hands out. Nothing is said of other sorts: a map of one entry is any newtype
/// variant.
#[tactic(auto, using(crate::proofs::PlainLaws::variant_stays))]
pub fn plain_variant()
    ensures { PlainVariant }
{}

/// A request that is taken is taken with coercion too: with the same datum, and the same parts but
/// for that flag, which they have then. The parts of a variant are taken so as well.
#[tactic(auto, using(crate::proofs::Coercion::coercion_kept))]
pub fn coercion_keeps()
    ensures { CoercionKeeps }
{}
