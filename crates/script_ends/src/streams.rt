//! Readers and writers of `std`, and byte slices, as the ends of a run.

ghost use Rattle.std.specs.Prelude.{◌≡◌, Some, false};

use crate::ends::{ReadFailed, Sink, Source, WriteFailed};
use std::io::{Read, Write};
use std::marker::Model;

/// A reader of `std`, and whether it has failed. Any error of a read counts as a failure.
#[derive(Drop)]
pub struct ReaderSource<R> {
    /// The reader.
    pub reader: R,
    /// Whether a read has failed so far.
    pub failed: bool,
}

impl<R: Read> ReaderSource<R> {
    /// Returns a source that reads from `reader`.
    pub fn new(reader: R) -> Self
        ensures reader { result.reader ≡ reader }
        ensures failed { result.failed ≡ false }
    {
        ReaderSource {
            reader,
            failed: false,
        }
    }
}

impl<R: Read> Source for ReaderSource<R> {
    ghost remaining = { λ source. R.remaining source.reader };

    ghost has_failed = { λ source. source.failed };

    fn read(&mut self, buf: &mut [u8]) -> Result<usize, ReadFailed> {
        match self.reader.read(buf) {
            Ok(count) => Ok(count),
            Err(_) => {
                self.failed = true;
                Err(ReadFailed)
            }
        }
    }
}

/// A writer of `std`, and whether it has failed.
#[derive(Drop)]
pub struct WriterSink<W> {
    /// The writer.
    pub writer: W,
    /// Whether a write has failed so far.
    pub failed: bool,
}

impl<W: Write> WriterSink<W> {
    /// Returns a sink that writes to `writer`.
    pub fn new(writer: W) -> Self
        ensures writer { result.writer ≡ writer }
        ensures failed { result.failed ≡ false }
    {
        WriterSink {
            writer,
            failed: false,
        }
    }
}

impl<W: Write> Sink for WriterSink<W> {
    ghost contents = { λ sink. W.contents sink.writer };

    ghost has_failed = { λ sink. sink.failed };

    fn write(&mut self, bytes: &[u8]) -> Result<usize, WriteFailed> {
        match self.writer.write(bytes) {
            Ok(count) => {
                if count == 0 && !bytes.is_empty() {
                    self.failed = true;
                }
                Ok(count)
            }
            Err(_) => {
                self.failed = true;
                Err(WriteFailed)
            }
        }
    }
}

/// Bytes as a source. No read of it fails. A contract sees the bytes that are left.
#[derive(Drop)]
pub struct TextSource<'a> {
    rest: &'a [u8],
}

impl<'a> Model for TextSource<'a> {
    ghost use Rattle.std.specs.Prelude.{List, ℕ};

    ghost Value = { List ℕ };

    ghost view = { λ source. source.rest.now };
}

impl<'a> TextSource<'a> {
    /// Returns a source of these bytes.
    pub fn new(text: &'a [u8]) -> Self
        ensures { result ≡ text.now }
    {
        TextSource { rest: text }
    }
}

impl<'a> Source for TextSource<'a> {
    ghost remaining = { λ source. Some source };

    ghost has_failed = { λ _. false };

    fn read(&mut self, buf: &mut [u8]) -> Result<usize, ReadFailed> {
        let count = self.rest.len().min(buf.len());
        let (front, rest) = self.rest.split_at(count);
        buf[..count].copy_from_slice(front);
        self.rest = rest;
        Ok(count)
    }
}
