//! A list of calls, made on any serialiser.

#![tactic(auto, using(crate::proofs::Sending::sending))]

ghost use Rattle.content_ser.specs.Calls.Call.{events_of};
ghost use Rattle.content_ser.specs.Scripts.Sends.{Sends};
ghost use Rattle.content_ser.specs.Scripts.Replay.{calls_script};

use crate::call::Call;
use crate::serializer::Serializer;
use content_tree::Result;

/// Makes these calls on a serialiser, one after another, up to the first that is refused. A
/// serialiser that has failed before refuses the first. It takes no memory but what the serialiser
/// takes.
pub fn replay<S: Serializer>(calls: &[Call<'_>], serializer: &mut S) -> Result<()>
    ensures { Sends S.step S.refuses (S.seen serializer.old)
        (λ readable. calls_script (events_of calls.now)) result (S.seen serializer.new) }
{
    for made in calls {
        serializer.call(made.lend())?;
    }
    Ok(())
}
