//! A serialiser that keeps the calls themselves.

ghost use Rattle.std.specs.Prelude.{◌≡◌, true, false, All, List, []};
ghost use Rattle.content_ser.specs.Calls.Event.{Event};
ghost use Rattle.content_ser.specs.Calls.Call.{event_of, events_of, IsOwned};
ghost use Rattle.content_ser.specs.Serializers.Step.{Seen, Takes};
ghost use Rattle.content_build.specs.Recorder.{recorded, refuses, Records};

use content_ser::{Call, Serializer};
use content_tree::{Error, ErrorKind, Result};
use std::alloc::Global;
use std::marker::Model;

/// A serialiser that records the calls that it takes, in order.
///
/// It takes any call, in or out of place, and refuses one only where an allocation failed: then it
/// answers `OutOfMemory`, from then on `Failed`, and keeps the calls taken before (`collect_str`
/// that can't print answers `OutOfMemory` and changes nothing). Its texts and bytes are owned; what
/// a call borrows is copied. Not in `serde-content`.
///
/// ```rust
/// let mut recorder = Recorder::new(alloc, false);
/// Some(7u8).serialize(alloc, &mut recorder)?;
/// let calls = [Call::SomeCall, Call::Number(Number::U8(7))];
/// assert!(rt; recorder.calls().iter().eq(calls.iter()));
/// ```
#[derive(Drop)]
pub struct Recorder {
    alloc: Global,
    calls: Vec<Call<'static>>,
    failed: bool,
    human_readable: bool,
}

impl Model for Recorder {
    ghost Value = { Seen (List Event) };

    ghost view = { λ r. record {
      state = events_of r.calls.items;
      failed = r.failed;
      readable =
          r.human_readable;
    } };

    ghost invariant = { λ r. All IsOwned r.calls.items };
}

impl Recorder {
    /// A recorder that has taken no call; it takes no memory yet. The flag is what it answers to
    /// [`is_human_readable`](Serializer::is_human_readable).
    pub fn new(alloc: Global, human_readable: bool) -> Recorder
        ensures { result ≡ record { state = []; failed = false; readable = human_readable } }
    {
        Recorder {
            alloc,
            calls: Vec::new(alloc),
            failed: false,
            human_readable,
        }
    }

    /// The calls taken so far, in order; their texts and bytes are owned. It takes no memory.
    pub fn calls(&self) -> &[Call<'static>]
        ensures value { events_of result.now ≡ self.now.state }
        ensures owned { All IsOwned result.now }
    {
        self.calls.as_slice()
    }

    /// The calls taken, in order, moved out; their texts and bytes are owned. It takes no memory.
    pub fn into_calls(self) -> Vec<Call<'static>>
        ensures value { events_of result.items ≡ self.state }
        ensures owned { All IsOwned result.items }
    {
        self.calls
    }

    /// Puts the call at the list's end.
    fn take(&mut self, call: Call<'static>) -> Result<()>
        requires { IsOwned call }
        ensures { Takes recorded refuses self.old (event_of call.entry) result self.new }
    {
        if self.failed {
            return Err(Error::from(ErrorKind::Failed));
        }
        match self.calls.push(call) {
            Ok(()) => Ok(()),
            Err(refused) => Err(self.fail(Error::from(refused))),
        }
    }

    /// From now on it has failed; the error is handed back.
    fn fail(&mut self, error: Error) -> Error
        ensures state { self.new
            ≡ record { state = self.old.state; failed = true; readable = self.old.readable } }
        ensures value { result ≡ error }
    {
        self.failed = true;
        error
    }
}

impl Serializer for Recorder {
    ghost State = { List Event };

    ghost seen = { λ r. r };

    ghost step = { recorded };

    ghost refuses = { refuses };

    /// An owned text or owned bytes are moved, borrowed ones copied; else memory is taken for the
    /// list's growth alone. Errors: `OutOfMemory` where an allocation failed, `Failed` after that.
    fn call(&mut self, call: Call<'_>) -> Result<()>
        // one step of the list
        ensures taken { Takes recorded refuses self.old (event_of call.entry) result self.new }
        // the call is at the list's end, or the list is kept and the recorder has failed for good
        ensures exact { Records self.old (event_of call.entry) result self.new }
    {
        if self.failed {
            return Err(Error::from(ErrorKind::Failed));
        }
        match call.into_owned(self.alloc) {
            Ok(owned) => self.take(owned),
            Err(refused) => Err(self.fail(refused)),
        }
    }

    fn is_human_readable(&self) -> bool {
        self.human_readable
    }

    fn is_failed(&self) -> bool {
        self.failed
    }
}
