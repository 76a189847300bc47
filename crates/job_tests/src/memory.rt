//! Sources and sinks in memory, which fail at a chosen call.

ghost use Rattle.std.specs.Prelude.{◌≡◌, Some, [], false};

use script_ends::{ReadFailed, Sink, Source, WriteFailed};
use std::alloc::Global;

/// A source of bytes, which are read in pieces.
#[derive(Drop)]
pub struct MemorySource<'a> {
    rest: &'a [u8],
    piece: usize,
    good: usize,
    failed: bool,
}

impl<'a> MemorySource<'a> {
    /// Returns a source of these bytes, at least one and at most `piece` of them for each call. All calls after the
    /// first `good` fail.
    pub fn new(bytes: &'a [u8], piece: usize, good: usize) -> Self
        ensures { result.failed ≡ false }
    {
        MemorySource {
            rest: bytes,
            piece,
            good,
            failed: false,
        }
    }
}

impl<'a> Source for MemorySource<'a> {
    ghost remaining = { λ source. Some source.rest.now };

    ghost has_failed = { λ source. source.failed };

    fn read(&mut self, buf: &mut [u8]) -> Result<usize, ReadFailed> {
        if self.good == 0 {
            self.failed = true;
            return Err(ReadFailed);
        }
        self.good -= 1;
        let count = self.rest.len().min(buf.len()).min(self.piece.max(1));
        let (front, rest) = self.rest.split_at(count);
        buf[..count].copy_from_slice(front);
        self.rest = rest;
        Ok(count)
    }
}

/// A sink of bytes, which are written in pieces.
#[derive(Drop)]
pub struct MemorySink {
    bytes: Vec<u8>,
    piece: usize,
    good: usize,
    stalls: bool,
    failed: bool,
}

impl MemorySink {
    /// Returns an empty sink that takes at least one and at most `piece` bytes for each call. All calls after the first
    /// `good` fail, or take no byte if the sink stalls.
    pub fn new(alloc: Global, piece: usize, good: usize, stalls: bool) -> Self
        ensures { result.failed ≡ false }
    {
        MemorySink {
            bytes: Vec::new(alloc),
            piece,
            good,
            stalls,
            failed: false,
        }
    }

    /// Returns the bytes that were written.
    pub fn bytes(&self) -> &[u8] {
        self.bytes.as_slice()
    }
}

impl Sink for MemorySink {
    ghost contents = { λ sink. Some sink.bytes.items };

    ghost has_failed = { λ sink. sink.failed };

    fn write(&mut self, bytes: &[u8]) -> Result<usize, WriteFailed> {
        if bytes.is_empty() {
            return Ok(0);
        }
        if self.good == 0 && self.stalls {
            self.failed = true;
            return Ok(0);
        }
        let count = bytes.len().min(self.piece.max(1));
        if self.good > 0 && self.bytes.extend_from_slice(&bytes[..count]).is_ok() {
            self.good -= 1;
            return Ok(count);
        }
        self.failed = true;
        Err(WriteFailed)
    }
}
