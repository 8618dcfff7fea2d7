//! Laws of the builder, of the recorder and of the serialiser, and what `==` and the order mean.

ghost use Rattle.std.specs.Prelude.{◌≡◌};
ghost use Rattle.std.specs.Bool.{Decides};
ghost use Rattle.std.specs.Option.{option_cmp};
ghost use Rattle.std.specs.Ordering.{bool_cmp, nat_cmp, ordering_then};
ghost use Rattle.content_build.specs.Answers.{SameRefusal};
ghost use Rattle.content_build.specs.Builder.{StepsAreExact};
ghost use Rattle.content_build.specs.Canonical.{CanonicalBuilt, CanonicalStopped};
ghost use Rattle.content_build.specs.Recorder.{SentIsListed};
ghost use Rattle.content_build.specs.Serializer.{is_readable, limit_of};

use crate::calls_error::CallsError;
use crate::serializer::Serializer;
use std::cmp::Ordering;

/// Whatever call is made on a [`Builder`](crate::Builder) that has not failed: it is taken, or
/// refused for memory, only where some list that is whole, within the limit where there is one,
/// begins with the calls so far and this one, and refused as out of place only where none does.
pub fn steps_are_exact()
    ensures { StepsAreExact }
{}

/// Whatever is sent to a [`Recorder`](crate::Recorder): after `Ok` its list is the old one and then
/// the calls of the script, after an error the old one and then a beginning of them.
pub fn sent_is_listed()
    ensures { SentIsListed }
{}

/// What [`Serializer::serialize`](crate::Serializer::serialize) makes of a `Value` is its canonical
/// form, with every text and byte value owned.
pub fn canonical_is_built()
    ensures { CanonicalBuilt }
{}

/// Where [`Serializer::serialize`](crate::Serializer::serialize) answers an error for a `Value`,
/// and memory was enough, the `Value` has no canonical form: its loose form has an owned field key.
pub fn canonical_is_missing()
    ensures { CanonicalStopped }
{}

/// What `==` of refusals answers: whether their places are the same and their errors are equal. It
/// takes no memory.
pub fn equal_refusals(a: &CallsError, b: &CallsError) -> bool
    ensures { Decides result (SameRefusal a.now b.now) }
{
    *a == *b
}

/// What `==` of serialisers answers: whether their flags and their limits are the same. It takes
/// no memory.
pub fn equal_serializers(a: Serializer, b: Serializer) -> bool
    ensures { Decides result ((is_readable a ≡ is_readable b) × (limit_of a ≡ limit_of b)) }
{
    a == b
}

/// What the order of serialisers answers: that with the flag off is less than that with the flag
/// on; of two with the same flag that with no limit is less than that with one, and then that with
/// the smaller limit. It takes no memory.
pub fn compare_serializers(a: Serializer, b: Serializer) -> Ordering
    ensures { result ≡ ordering_then (bool_cmp (is_readable a) (is_readable b))
        (option_cmp nat_cmp (limit_of a) (limit_of b)) }
{
    a.cmp(&b)
}
