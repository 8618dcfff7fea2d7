//! What sends and takes calls: serialisers, types that can be sent, calls as data.

pub use content_build::{
    Builder, CallsError, Recorder, from_calls, from_calls_prefix, from_calls_within,
};
pub use content_ser::{
    Announced, Aside, Call, Made, Parts, Sent, Serialize, Serializer, Unmade, replay,
};
