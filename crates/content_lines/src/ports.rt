//! Where bytes come from and where they go.

ghost use Rattle.std.specs.Prelude.{◌≡◌, ◌≤◌, ◌<◌, ℕ, List, Bool, true, Option, length, take, IfOk};
ghost use Rattle.std.specs.Prelude.{OnOk, OnErr};
ghost use Rattle.std.specs.Io.KnownBytes.{Consumes, Appends, IsAtEnd};

/// A read or a write that went wrong.
#[derive(Clone, Copy, Debug, PartialEq, Eq)]
pub struct Fault;

/// Where bytes come from.
pub trait Input {
    /// The bytes still to come, where they are known.
    ghost left: { Self → Option (List ℕ) };

    /// Whether a read has gone wrong.
    ghost has_failed: { Self → Bool };

    /// Moves the next bytes to the front of the buffer, and answers how many. With a buffer that
    /// isn't empty it answers 0 only at the end. `Err` says that the read went wrong: nothing is
    /// said of the buffer, and it has failed.
    fn take(&mut self, buf: &mut [u8]) -> Result<usize, Fault>
        ensures bound { IfOk result (λ n. n ≤ length buf.new) }
        ensures moved { IfOk result (λ n. Consumes (left self.old) (left self.new)
            (take n buf.new)) }
        ensures ended { IfOk result (λ n. n ≡ 0 → 0 < length buf.new → IsAtEnd (left self.new)) }
        ensures kept { OnOk result (has_failed self.new ≡ has_failed self.old) }
        ensures fault { OnErr result (has_failed self.new ≡ true) };

    /// Whether a read has gone wrong.
    fn failed(&self) -> bool
        ensures { result ≡ has_failed self.now };
}

/// Where bytes go.
pub trait Output {
    /// The bytes written so far, where they are known.
    ghost written: { Self → Option (List ℕ) };

    /// Whether a write has gone wrong.
    ghost has_failed: { Self → Bool };

    /// Takes bytes from the front, and answers how many: at least one where there is one. `Err`
    /// says that the write went wrong, and it has failed.
    fn put(&mut self, bytes: &[u8]) -> Result<usize, Fault>
        ensures bound { IfOk result (λ n. n ≤ length bytes.now) }
        ensures moved { IfOk result (λ n. Appends (written self.old) (written self.new)
            (take n bytes.now)) }
        ensures some { IfOk result (λ n. 0 < length bytes.now → 0 < n) }
        ensures kept { OnOk result (has_failed self.new ≡ has_failed self.old) }
        ensures fault { OnErr result (has_failed self.new ≡ true) };

    /// Whether a write has gone wrong.
    fn failed(&self) -> bool
        ensures { result ≡ has_failed self.now };
}
