//! Sources and sinks of bytes. Each clause but the ones on bytes holds also where the bytes aren't told.

ghost use Rattle.std.specs.Prelude.{Option, List, ℕ, OnOk, ◌≡◌};
ghost use Rattle.std.specs.Io.{ReadsAtMost};
ghost use Rattle.std.specs.Io.KnownBytes.{ReadConsumes, WriteAppends};
ghost use Rattle.byte_io.specs.Causes.{HasCause, TakesSome};

use crate::Failed;

/// A source of bytes.
pub trait Source {
    /// The bytes that are left, where the source tells them.
    ghost left: { Self → Option (List ℕ) };

    /// How many reads have failed. It never falls.
    ghost faults: { Self → ℕ };

    /// Puts the next bytes into the front of `buf` and tells how many; 0 with a buffer that isn't empty means
    /// the end. A failed read takes nothing, and a read that didn't fail counts no fault.
    ///
    /// # Errors
    ///
    /// - `Failed`: the read failed, and the count of faults rose.
    fn read(&mut self, buf: &mut [u8]) -> Result<usize, Failed>
        ensures bound { ReadsAtMost result buf.new }
        ensures bytes { ReadConsumes (left self.old) (left self.new) result buf.new }
        ensures cause { HasCause (faults self.old) (faults self.new) result }
        ensures clean { OnOk result (faults self.new ≡ faults self.old) };
}

/// A sink for bytes.
pub trait Sink {
    /// The bytes that are held, where the sink tells them.
    ghost held: { Self → Option (List ℕ) };

    /// How many writes have failed. It never falls.
    ghost faults: { Self → ℕ };

    /// Adds a prefix of `piece` and tells how long it was, at least 1 where the piece isn't empty. A failed
    /// write adds nothing.
    ///
    /// # Errors
    ///
    /// - `Failed`: the write failed, and the count of faults rose.
    fn write(&mut self, piece: &[u8]) -> Result<usize, Failed>
        ensures bound { TakesSome result piece.now }
        ensures bytes { WriteAppends (held self.old) (held self.new) result piece.now }
        ensures cause { HasCause (faults self.old) (faults self.new) result };
}
