//! Texts and bytes that are borrowed or owned.

ghost use Rattle.std.specs.Prelude.{◌≡◌, IsTrue, Ok, IfOk, IfErr, IsOk, IfSome, string_bytes};
ghost use Rattle.content_tree.specs.Values.Text.{text_of, bytes_of, text_content, bytes_content};
ghost use Rattle.content_tree.specs.Values.Cases.{string_in, vec_in};
ghost use Rattle.content_tree.specs.Errors.Kind.{IsOutOfMemory};

use crate::error::Result;
use std::alloc::{AllocError, Global};
use std::mem;
use std::result::Result as StdResult;

/// A text, borrowed or owned. A borrowed name is called static: in [`Value`](crate::Value) it lives
/// as long as the program.
#[derive(Debug, Drop)]
pub enum CowStr<'a> {
    /// A borrowed text.
    Borrowed(&'a str),
    /// An owned text.
    Owned(String),
}

/// Bytes, borrowed or owned.
#[derive(Debug, Drop)]
pub enum CowBytes<'a> {
    /// Borrowed bytes.
    Borrowed(&'a [u8]),
    /// Owned bytes.
    Owned(Vec<u8>),
}

impl<'a> CowStr<'a> {
    /// The text. It takes no memory.
    pub fn as_str(&self) -> &str
        ensures { result.now ≡ text_content self.now }
    {
        match self {
            CowStr::Borrowed(text) => text,
            CowStr::Owned(text) => text.as_str(),
        }
    }

    /// Whether the text is borrowed; of a name: whether it is static. It takes no memory.
    pub fn is_borrowed(&self) -> bool
        ensures { result ≡ (text_of self.now).borrowed }
    {
        match self {
            CowStr::Borrowed(_) => true,
            CowStr::Owned(_) => false,
        }
    }

    /// Makes the text owned: an owned one is moved, without memory; a borrowed one is copied. Where
    /// an allocation fails: an error of kind `OutOfMemory`.
    pub fn into_owned(self, alloc: Global) -> Result<String>
        ensures value { IfOk result (λ text. string_bytes text ≡ text_content self.entry) }
        ensures moved { IfSome (string_in self.entry) (λ text. result ≡ Ok text) }
        ensures memory { IfErr result (λ e. IsOutOfMemory e) }
    {
        Ok(self.own(alloc)?)
    }

    /// The same, where an allocation fails with that alone.
    #[inline(always)]
    pub(crate) fn own(self, alloc: Global) -> StdResult<String, AllocError>
        ensures value { IfOk result (λ text. string_bytes text ≡ text_content self.entry) }
        ensures moved { IfSome (string_in self.entry) (λ text. result ≡ Ok text) }
    {
        match self {
            CowStr::Borrowed(text) => String::from_str(alloc, text),
            CowStr::Owned(text) => Ok(text),
        }
    }

    /// Takes the text out of its place, owned; an empty text is left there.
    #[inline(always)]
    pub(crate) fn take(&mut self, alloc: Global) -> StdResult<String, AllocError>
        ensures value { IfOk result (λ text. string_bytes text ≡ text_content self.old) }
        ensures moved { IfSome (string_in self.old) (λ text. result ≡ Ok text) }
    {
        mem::replace(self, CowStr::Borrowed("")).own(alloc)
    }

    /// Copies the text: a borrowed one is borrowed again, without memory, and an owned one is
    /// copied. Where an allocation fails: an error of kind `OutOfMemory`.
    pub fn try_clone(&self, alloc: Global) -> Result<CowStr<'a>>
        ensures value { IfOk result (λ copy. text_of copy ≡ text_of self.now) }
        ensures succeeds { IsTrue (text_of self.now).borrowed → IsOk result }
        ensures memory { IfErr result (λ e. IsOutOfMemory e) }
    {
        Ok(self.copy(alloc)?)
    }

    /// The same, where an allocation fails with that alone.
    #[inline(always)]
    pub(crate) fn copy(&self, alloc: Global) -> StdResult<CowStr<'a>, AllocError>
        ensures value { IfOk result (λ copy. text_of copy ≡ text_of self.now) }
        ensures succeeds { IsTrue (text_of self.now).borrowed → IsOk result }
    {
        match self {
            CowStr::Borrowed(text) => Ok(CowStr::Borrowed(text)),
            CowStr::Owned(text) => Ok(CowStr::Owned(String::from_str(alloc, text.as_str())?)),
        }
    }
}

impl<'a> CowBytes<'a> {
    /// The bytes. It takes no memory.
    pub fn as_bytes(&self) -> &[u8]
        ensures { result.now ≡ bytes_content self.now }
    {
        match self {
            CowBytes::Borrowed(bytes) => bytes,
            CowBytes::Owned(bytes) => bytes.as_slice(),
        }
    }

    /// Whether the bytes are borrowed. It takes no memory.
    pub fn is_borrowed(&self) -> bool
        ensures { result ≡ (bytes_of self.now).borrowed }
    {
        match self {
            CowBytes::Borrowed(_) => true,
            CowBytes::Owned(_) => false,
        }
    }

    /// Makes the bytes owned: owned ones are moved, without memory; borrowed ones are copied. Where
    /// an allocation fails: an error of kind `OutOfMemory`.
    pub fn into_owned(self, alloc: Global) -> Result<Vec<u8>>
        ensures value { IfOk result (λ bytes. bytes.items ≡ bytes_content self.entry) }
        ensures moved { IfSome (vec_in self.entry) (λ bytes. result ≡ Ok bytes) }
        ensures memory { IfErr result (λ e. IsOutOfMemory e) }
    {
        Ok(self.own(alloc)?)
    }

    /// The same, where an allocation fails with that alone.
    #[inline(always)]
    pub(crate) fn own(self, alloc: Global) -> StdResult<Vec<u8>, AllocError>
        ensures value { IfOk result (λ bytes. bytes.items ≡ bytes_content self.entry) }
        ensures moved { IfSome (vec_in self.entry) (λ bytes. result ≡ Ok bytes) }
    {
        match self {
            CowBytes::Borrowed(bytes) => bytes.to_vec(alloc),
            CowBytes::Owned(bytes) => Ok(bytes),
        }
    }

    /// Takes the bytes out of their place, owned; no bytes are left there.
    #[inline(always)]
    pub(crate) fn take(&mut self, alloc: Global) -> StdResult<Vec<u8>, AllocError>
        ensures value { IfOk result (λ bytes. bytes.items ≡ bytes_content self.old) }
        ensures moved { IfSome (vec_in self.old) (λ bytes. result ≡ Ok bytes) }
    {
        mem::replace(self, CowBytes::Borrowed(&[])).own(alloc)
    }

    /// Copies the bytes: borrowed ones are borrowed again, without memory, and owned ones are
    /// copied. Where an allocation fails: an error of kind `OutOfMemory`.
    pub fn try_clone(&self, alloc: Global) -> Result<CowBytes<'a>>
        ensures value { IfOk result (λ copy. bytes_of copy ≡ bytes_of self.now) }
        ensures succeeds { IsTrue (bytes_of self.now).borrowed → IsOk result }
        ensures memory { IfErr result (λ e. IsOutOfMemory e) }
    {
        Ok(self.copy(alloc)?)
    }

    /// The same, where an allocation fails with that alone.
    #[inline(always)]
    pub(crate) fn copy(&self, alloc: Global) -> StdResult<CowBytes<'a>, AllocError>
        ensures value { IfOk result (λ copy. bytes_of copy ≡ bytes_of self.now) }
        ensures succeeds { IsTrue (bytes_of self.now).borrowed → IsOk result }
    {
        match self {
            CowBytes::Borrowed(bytes) => Ok(CowBytes::Borrowed(bytes)),
            CowBytes::Owned(bytes) => Ok(CowBytes::Owned(bytes.as_slice().to_vec(alloc)?)),
        }
    }
}
