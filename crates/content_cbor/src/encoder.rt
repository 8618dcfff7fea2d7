//! A serialiser that writes bytes.

ghost use Rattle.std.specs.Prelude.{◌≡◌, ◌++◌, Ok, Some, None, true, false, length};
ghost use Rattle.std.specs.Prelude.{IsOk, IsErr, if◌then◌else◌, take};
ghost use Rattle.content_tree.specs.Errors.Kind.{kind_of};
ghost use Rattle.content_tree.specs.declared.error.ErrorKind.TheVariants.{OutOfMemory};
ghost use Rattle.content_tree.specs.Values.Tree as tree;
ghost use Rattle.content_ser.specs.Calls.Call.{event_of};
ghost use Rattle.content_ser.specs.Grammar.Token as token;
ghost use Rattle.content_ser.specs.Sending.Aside.{answer_of};
ghost use Rattle.content_ser.specs.Serializers.Step.{Takes};
ghost use Rattle.content_cbor.specs.Encoder.{Written, Wrote, announced, begun, is_length, is_text};
ghost use Rattle.content_cbor.specs.Encoder.{TakenInPlace, nothing, refuses, seen_of, step};
ghost use Rattle.content_cbor.specs.Encoder.{with_bytes, writes, writes_nothing};
ghost use Rattle.content_cbor.specs.Heads.{head};
ghost use Rattle.content_cbor.specs.Inner.Output.{written_of};
ghost use Rattle.content_cbor.specs.Item.{bytes_item, text_item};

use crate::encoding::write_entry_of;
use crate::heads::{Major, write_head};
use crate::leaves::{write_bool, write_bytes, write_char, write_null, write_number, write_text};
use content_ser::{Aside, Call, Sent, Serializer};
use content_tree::{Error, ErrorKind, Number, Result};
use std::alloc::{AllocError, Global};
use std::marker::Model;
use std::result::Result as StdResult;

/// What is written, and how many items or pairs are due in each open array or map, the innermost
/// last.
#[derive(Drop)]
pub(crate) struct Output {
    pub(crate) bytes: Vec<u8>,
    pub(crate) due: Vec<usize>,
}

impl Output {
    /// Writes what a call says: whether it is in place.
    #[inline(always)]
    fn write(&mut self, call: &Call<'_>) -> StdResult<bool, AllocError>
        ensures value { Wrote (step (written_of self.old) (event_of call.now)) (written_of self.old)
            result (written_of self.new) }
        ensures succeeds { writes_nothing (event_of call.now) ≡ true → IsOk result }
    {
        match call {
            Call::Bool(flag) => self.bool(*flag),
            Call::Number(number) => self.number(*number),
            Call::Char(character) => self.char(*character),
            Call::Str(text) => self.text(text.as_str()),
            Call::Bytes(bytes) => self.bytes(bytes.as_bytes()),
            Call::Unit => self.null(),
            Call::NoneCall => self.null(),
            Call::UnitStruct(_) => self.null(),
            Call::UnitVariant(_, _, variant) => self.text(variant),
            Call::SomeCall => Ok(true),
            Call::NewtypeStruct(_) => Ok(true),
            Call::NewtypeVariant(_, _, variant) => self.variant(variant),
            Call::Seq(length) => self.begin(Major::Array, *length),
            Call::Tuple(length) => self.begin(Major::Array, Some(*length)),
            Call::TupleStruct(_, length) => self.begin(Major::Array, Some(*length)),
            Call::TupleVariant(_, _, variant, length) => {
                self.begin_under(variant, Major::Array, *length)
            }
            Call::Map(length) => self.begin(Major::Map, *length),
            Call::Struct(_, length) => self.begin(Major::Map, Some(*length)),
            Call::StructVariant(_, _, variant, length) => {
                self.begin_under(variant, Major::Map, *length)
            }
            Call::Element => Ok(self.announce()),
            Call::TupleField => Ok(self.announce()),
            Call::Entry => Ok(self.announce()),
            Call::Field(name) => self.field(name),
            Call::Key => Ok(false),
            Call::Value => Ok(false),
            Call::End => Ok(self.close()),
        }
    }

    #[inline(always)]
    fn null(&mut self) -> StdResult<bool, AllocError>
        ensures { Wrote (writes (token.leaf tree.unit) None (written_of self.old))
            (written_of self.old) result (written_of self.new) }
    {
        write_null(&mut self.bytes)?;
        Ok(true)
    }

    #[inline(always)]
    fn bool(&mut self, flag: bool) -> StdResult<bool, AllocError>
        ensures { Wrote (writes (token.leaf (tree.boolean flag)) None (written_of self.old))
            (written_of self.old) result (written_of self.new) }
    {
        write_bool(flag, &mut self.bytes)?;
        Ok(true)
    }

    #[inline(always)]
    fn number(&mut self, number: Number) -> StdResult<bool, AllocError>
        ensures { Wrote (writes (token.leaf (tree.number number)) None (written_of self.old))
            (written_of self.old) result (written_of self.new) }
    {
        write_number(number, &mut self.bytes)?;
        Ok(true)
    }

    #[tactic(auto, using(crate::proofs::Texts::passes))]
    fn char(&mut self, character: char) -> StdResult<bool, AllocError>
        ensures { Wrote (writes (token.leaf (tree.character character)) None (written_of self.old))
            (written_of self.old) result (written_of self.new) }
    {
        write_char(character, &mut self.bytes)?;
        Ok(true)
    }

    #[tactic(auto, using(crate::proofs::Texts::passes))]
    fn text(&mut self, text: &str) -> StdResult<bool, AllocError>
        ensures { Wrote (if is_text text.now
            then Some (with_bytes (text_item text.now) (written_of self.old)) else None)
            (written_of self.old) result (written_of self.new) }
    {
        write_text(text, &mut self.bytes)?;
        Ok(true)
    }

    fn bytes(&mut self, bytes: &[u8]) -> StdResult<bool, AllocError>
        ensures { Wrote (if is_length (length bytes.now)
            then Some (with_bytes (bytes_item bytes.now) (written_of self.old)) else None)
            (written_of self.old) result (written_of self.new) }
    {
        write_bytes(bytes, &mut self.bytes)?;
        Ok(true)
    }

    /// The map of a variant that holds something, and its name.
    #[tactic(auto, using(crate::proofs::Texts::passes))]
    fn variant(&mut self, name: &str) -> StdResult<bool, AllocError>
        ensures { Wrote (if is_text name.now
            then Some (with_bytes (head Major.Map 1 ++ text_item name.now) (written_of self.old))
            else None) (written_of self.old) result (written_of self.new) }
    {
        write_entry_of(name, &mut self.bytes)?;
        Ok(true)
    }

    /// An array or a map of so many begins, if it is known of how many.
    #[inline(always)]
    fn begin(&mut self, major: Major, length: Option<usize>) -> StdResult<bool, AllocError>
        ensures { Wrote (begun major length (written_of self.old)) (written_of self.old) result
            (written_of self.new) }
    {
        let Some(length) = length else {
            return Ok(false);
        };
        write_head(&mut self.bytes, major, length as u64)?;
        self.due.push(length)?;
        Ok(true)
    }

    /// The same under a variant's name.
    #[tactic(auto, using(crate::proofs::Texts::passes))]
    fn begin_under(
        &mut self,
        name: &str,
        major: Major,
        length: usize,
    ) -> StdResult<bool, AllocError>
        ensures { Wrote (if is_text name.now then begun major (Some length)
            (with_bytes (head Major.Map 1 ++ text_item name.now) (written_of self.old)) else None)
            (written_of self.old) result (written_of self.new) }
    {
        write_entry_of(name, &mut self.bytes)?;
        self.begin(major, Some(length))
    }

    /// An item or a pair comes, if one is due.
    #[inline(always)]
    fn announce(&mut self) -> bool
        ensures { Wrote (announced (written_of self.old)) (written_of self.old) (Ok result)
            (written_of self.new) }
    {
        match self.due.pop() {
            None => false,
            Some(0) => {
                self.due.push_reserved(0);
                false
            }
            Some(due) => {
                self.due.push_reserved(due - 1);
                true
            }
        }
    }

    /// A field comes, if one is due: its name.
    #[tactic(auto, using(crate::proofs::Texts::passes))]
    fn field(&mut self, name: &str) -> StdResult<bool, AllocError>
        ensures { Wrote (writes (token.field name.now) None (written_of self.old))
            (written_of self.old) result (written_of self.new) }
    {
        if !self.announce() {
            return Ok(false);
        }
        write_text(name, &mut self.bytes)?;
        Ok(true)
    }

    /// The innermost array or map ends, if none is due in it.
    fn close(&mut self) -> bool
        ensures { Wrote (writes token.finish None (written_of self.old)) (written_of self.old)
            (Ok result) (written_of self.new) }
    {
        match self.due.pop() {
            None => false,
            Some(0) => true,
            Some(due) => {
                self.due.push_reserved(due);
                false
            }
        }
    }
}

/// A serialiser that writes the data item of a tree while the tree's calls come, with definite
/// lengths and each head in as few bytes as can be, as [`encode`](crate::encode) writes a value. It
/// keeps no tree: a number for each array or map that is open, and the bytes.
///
/// A length is written where it is said, so a call is `Misplaced` that opens a sequence or a map
/// without a length, announces more than were said, or ends before all came; so are a key and a
/// value that aren't one entry. [`to_bytes`](crate::to_bytes) sends such a value through a tree.
/// Whether the calls spell a tree isn't checked: of others the bytes may be no item.
///
/// ```rust
/// let mut encoder = Encoder::new(alloc);
/// (7u8, "a").serialize(alloc, &mut encoder)?;
/// assert!(rt; encoder.into_bytes().as_slice() == [0x82, 0x07, 0x61, b'a'].as_slice());
/// ```
#[derive(Drop)]
pub struct Encoder {
    output: Output,
    failed: bool,
}

impl Model for Encoder {
    ghost use Rattle.content_cbor.specs.Encoder.{Encoding};
    ghost use Rattle.content_cbor.specs.Inner.Output.{written_of};

    ghost Value = { Encoding };

    ghost view = { λ e. record { written = written_of e.output; failed = e.failed } };
}

impl Encoder {
    /// An encoder that has written nothing; it takes no memory yet.
    pub fn new(alloc: Global) -> Encoder
        ensures { result ≡ record { written = nothing; failed = false } }
    {
        Encoder {
            output: Output {
                bytes: Vec::new(alloc),
                due: Vec::new(alloc),
            },
            failed: false,
        }
    }

    /// The bytes, moved out; after a refusal those that were written before. Of the calls of one
    /// whole tree, all taken, they are its data item: the law
    /// [`whole_trees_are_encoded`](crate::laws::whole_trees_are_encoded) says so.
    pub fn into_bytes(self) -> Vec<u8>
        ensures { result.items ≡ self.written.bytes }
    {
        let Encoder { output, failed: _ } = self;
        output.bytes
    }

    /// Marks it as failed, and answers an error of this cause. It is seldom called, so it isn't inlined.
    #[cold]
    #[inline(never)]
    fn fail(&mut self, cause: ErrorKind, error: &mut Error) -> Sent
        ensures state { self.new ≡ record { written = self.old.written; failed = true } }
        ensures value { IsErr result }
        ensures cause { kind_of error.new ≡ cause }
    {
        self.failed = true;
        *error = Error::from(cause);
        Err(Aside)
    }

    /// Takes back what a call wrote before memory ran out for it, and answers that error. So many
    /// bytes were there before the call.
    #[cold]
    #[inline(never)]
    fn take_back(&mut self, before: usize, error: &mut Error) -> Sent
        ensures bytes { self.new.written.bytes ≡ take before self.old.written.bytes }
        ensures failed { self.new.failed ≡ true }
        ensures value { IsErr result }
        ensures cause { kind_of error.new ≡ OutOfMemory }
    {
        self.output.bytes.truncate(before);
        self.fail(ErrorKind::OutOfMemory, error)
    }
}

impl Serializer for Encoder {
    ghost State = { Written };

    ghost seen = { seen_of };

    ghost step = { step };

    ghost refuses = { refuses };

    /// Errors: `Misplaced` where the call can't be written at once, `OutOfMemory` where an
    /// allocation failed, `Failed` after either. Memory is taken for the bytes, and for each array
    /// or map that is open; a call that writes nothing takes none.
    fn call(&mut self, call: Call<'_>) -> Result<()>
        // one step of what is written
        ensures taken { Takes step refuses (seen_of self.old) (event_of call.entry) result
            (seen_of self.new) }
        // it needs no memory
        ensures succeeds { TakenInPlace self.old (event_of call.entry) → IsOk result }
    {
        // In the place of an error before there is one; no answer shows it.
        let mut error = Error::from(ErrorKind::OutOfMemory);
        match self.call_aside(call, &mut error) {
            Ok(()) => Ok(()),
            Err(Aside) => Err(error),
        }
    }

    #[inline(always)]
    fn call_aside(&mut self, call: Call<'_>, error: &mut Error) -> Sent
        ensures taken { Takes step refuses (seen_of self.old) (event_of call.entry)
            (answer_of result error.new) (seen_of self.new) }
        ensures succeeds { TakenInPlace self.old (event_of call.entry) → IsOk result }
    {
        if self.failed {
            return self.fail(ErrorKind::Failed, error);
        }
        let before = self.output.bytes.len();
        match self.output.write(&call) {
            Ok(true) => Ok(()),
            Ok(false) => self.fail(ErrorKind::Misplaced, error),
            Err(AllocError) => self.take_back(before, error),
        }
    }

    fn is_human_readable(&self) -> bool {
        false
    }

    fn is_failed(&self) -> bool {
        self.failed
    }
}
