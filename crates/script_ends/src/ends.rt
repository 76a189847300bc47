//! The two ends of a run: the source of its bytes, and the sink of its output.

ghost use Rattle.std.specs.Prelude.{ℕ, List, Option, Bool};
ghost use Rattle.std.specs.Io.{ReadsAtMost, WritesAtMost};
ghost use Rattle.std.specs.Io.KnownBytes.{ReadConsumes, WriteAppends};
ghost use Rattle.script_ends.specs.Ends.{ReadTells, WriteTells};

use thiserror::Error;

/// A read failed.
#[derive(Clone, Copy, Debug, PartialEq, Eq, Error)]
#[error("read fault")]
pub struct ReadFailed;

/// A write failed, or took no byte.
#[derive(Clone, Copy, Debug, PartialEq, Eq, Error)]
#[error("write fault")]
pub struct WriteFailed;

/// A source of bytes.
pub trait Source {
    /// The bytes that reads will return from here on, if they are known.
    ghost remaining: { Self → Option (List ℕ) };

    /// Whether a read has failed so far.
    ghost has_failed: { Self → Bool };

    /// Reads bytes into the front of `buf`, and returns how many. It returns 0 only at the end, or if `buf` is empty.
    ///
    /// # Errors
    ///
    /// `ReadFailed` if the read fails. No byte is consumed then.
    fn read(&mut self, buf: &mut [u8]) -> Result<usize, ReadFailed>
        ensures bound { ReadsAtMost result buf.new }
        ensures bytes { ReadConsumes (remaining self.old) (remaining self.new) result buf.new }
        ensures failed { ReadTells (has_failed self.old) (has_failed self.new) result };
}

/// A sink of bytes.
pub trait Sink {
    /// The bytes that were written, if they are known.
    ghost contents: { Self → Option (List ℕ) };

    /// Whether a write has failed so far. A write that takes none of some bytes counts as failed.
    ghost has_failed: { Self → Bool };

    /// Writes bytes from the front of `bytes`, and returns how many it took.
    ///
    /// # Errors
    ///
    /// `WriteFailed` if the write fails. No byte is written then.
    fn write(&mut self, bytes: &[u8]) -> Result<usize, WriteFailed>
        ensures bound { WritesAtMost result bytes.now }
        ensures bytes { WriteAppends (contents self.old) (contents self.new) result bytes.now }
        ensures failed { WriteTells (has_failed self.old) (has_failed self.new) result bytes.now };
}
