//! A serialiser that writes text.

ghost use Rattle.std.specs.Prelude.{◌≡◌, ◌++◌, ℕ, List, [], Some, None, ⊤, codes};
ghost use Rattle.std.specs.Prelude.{string_bytes, true, false};
ghost use Rattle.std.specs.Fmt.{signed_decimal};
ghost use Rattle.content_tree.specs.Errors.Kind.{kind_of, IsCustomOrMemory};
ghost use Rattle.content_tree.specs.Printed.Images.{quoted};
ghost use Rattle.content_tree.specs.declared.error.ErrorKind.TheVariants.{Failed};
ghost use Rattle.content_tree.specs.declared.number.Number.TheVariants.{I32};
ghost use Rattle.content_ser.specs.Calls.Event as event;
ghost use Rattle.content_ser.specs.Serializers.Step.{after_failure, out_of_place, no_memory};

use serde_content::ser::{Call, Serializer};
use serde_content::{Error, ErrorKind, Number, Result, Value};
use std::alloc::Global;
use std::fmt::Write;

/// A text of lists, as a Lisp reads them.
#[derive(Drop)]
pub struct Lisp {
    text: String,
    failed: bool,
    alloc: Global,
}

impl Lisp {
    /// No text yet; it takes no memory.
    pub fn new(alloc: Global) -> Lisp
        ensures { (string_bytes result.text ≡ []) × (result.failed ≡ false) }
    {
        Lisp {
            text: String::new(alloc),
            failed: false,
            alloc,
        }
    }

    /// The text so far.
    pub fn as_str(&self) -> &str
        ensures { result.now ≡ string_bytes self.now.text }
    {
        self.text.as_str()
    }
}

impl Serializer for Lisp {
    ghost State = { List ℕ };

    ghost seen = { λ l. record { state = string_bytes l.text; failed = l.failed; readable = true } };

    ghost step = { λ text. elim [
      | event.number (I32 n) ↦ Some (text ++ signed_decimal n)
      | event.text t ↦ Some (text ++ quoted t)
      | event.seq hint ↦ Some (text ++ codes "(")
      | event.structure name len ↦ Some (text ++ codes "(" ++ name)
      | event.element ↦ Some (text ++ codes " ")
      | event.field key ↦ Some (text ++ codes " :" ++ key ++ codes " ")
      | event.end ↦ Some (text ++ codes ")")
      | _ ↦ None
    ] };

    ghost refuses = { elim [
      | after_failure ↦ λ old e new. (kind_of e ≡ Failed) × (new ≡ old)
      | out_of_place ↦ λ old e new.
          IsCustomOrMemory (codes "no form in Lisp") (kind_of e) × (new ≡ old)
      | no_memory ↦ λ old e new. ⊤
    ] };

    fn call(&mut self, call: Call<'_>) -> Result<()> {
        if self.failed {
            return Err(Error::from(ErrorKind::Failed));
        }
        let text = &mut self.text;

        let written = match call {
            Call::Number(Number::I32(n)) => write!(text, "{n}"),
            Call::Str(t) => write!(text, "{}", Value::from(t).display()),
            Call::Seq(_) => write!(text, "("),
            Call::Struct(name, _) => write!(text, "({name}"),
            Call::Element => write!(text, " "),
            Call::Field(key) => write!(text, " :{key} "),
            Call::End => write!(text, ")"),
            _ => {
                self.failed = true;
                return Err(Error::custom(self.alloc, "no form in Lisp"));
            }
        };

        match written {
            Ok(()) => Ok(()),
            Err(_) => {
                self.failed = true;
                Err(Error::from(ErrorKind::OutOfMemory))
            }
        }
    }

    fn is_human_readable(&self) -> bool {
        true
    }

    fn is_failed(&self) -> bool {
        self.failed
    }
}
