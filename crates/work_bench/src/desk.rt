//! A session at work, and the digest of all its replies.

use crate::digest::Digest;
use ed_types::{Bytes, Kind, Outcome, Reply};
use editor_session::Session;
use std::alloc::Global;

/// A session, the digest of its replies so far, and the reply to the last text query, whose buffer is used again.
#[derive(Drop)]
pub struct Desk {
    session: Session,
    digest: Digest,
    reply: Reply,
}

/// Returns a place as an argument of a message.
pub fn argument(place: usize) -> i64 {
    i64::try_from(place).unwrap_or(i64::MAX)
}

/// Returns the value of a reply as a place, or 0 if it is negative.
pub fn place_of(value: i64) -> usize {
    usize::try_from(value).unwrap_or(0)
}

/// Adds a reply to the digest: its value, its text, and each of its notes.
fn take_in(digest: &mut Digest, reply: &Reply) {
    digest.integer(reply.value());
    if !reply.text().is_empty() {
        digest.bytes(reply.text());
    }
    for index in 0..reply.note_count() {
        let (note, text) = reply.note(index);
        digest.note(note, text);
    }
}

impl Desk {
    /// Returns a session without a view.
    pub fn new(alloc: Global) -> Self {
        Desk {
            session: Session::new(alloc),
            digest: Digest::new(),
            reply: Reply::quiet(alloc, 0, Bytes::empty(alloc)),
        }
    }

    /// Returns the digest of all replies so far.
    pub fn digest(&self) -> u64 {
        self.digest.value()
    }

    /// Adds a number to the digest, as if it were a reply.
    pub fn note_down(&mut self, number: u64) {
        self.digest.natural(number);
    }

    /// Opens a view on a new document, which hears everything. Returns 0 if it is refused.
    pub fn open(&mut self) -> u32 {
        let view = self.session.new_view().unwrap_or(0);
        self.digest.natural(u64::from(view));
        view
    }

    /// Opens a view on the document of another view.
    pub fn open_beside(&mut self, other: u32) -> u32 {
        let document = self.send(other, Kind::GetDocPointer, 0, 0, &[]);
        let view = self.open();
        self.send(view, Kind::SetDocPointer, 0, document, &[]);
        view
    }

    /// Closes a view.
    pub fn close(&mut self, view: u32) {
        let closed = self.session.close_view(view).is_ok();
        self.digest.natural(u64::from(closed));
    }

    /// Sends a message, reads its notes, and returns its value: -1 if it is refused.
    pub fn send(&mut self, view: u32, kind: Kind, w: i64, l: i64, text: &[u8]) -> i64 {
        match self.session.send_lent(view, kind.number(), w, l, text) {
            Ok(reply) => {
                take_in(&mut self.digest, &reply);
                reply.value()
            }
            Err(refusal) => {
                self.digest.integer(-1);
                self.digest.natural(refusal as u64);
                -1
            }
        }
    }

    /// Adds the outcome of a script's command to the digest.
    pub fn take_outcome(&mut self, outcome: &Outcome) {
        match outcome {
            Outcome::Opened(view) => self.digest.natural(u64::from(*view)),
            Outcome::Closed => self.digest.natural(0),
            Outcome::Replied(reply) => take_in(&mut self.digest, reply),
            Outcome::Refused(refusal) => self.digest.natural(*refusal as u64),
            Outcome::Expected { met, value } => {
                self.digest.natural(u64::from(*met));
                self.digest.integer(*value);
            }
        }
    }

    /// Adds bytes to the digest, as if they were a reply.
    pub fn note_bytes(&mut self, bytes: &[u8]) {
        self.digest.bytes(bytes);
    }

    /// Asks a numeric query, and returns its value: -1 if it has none.
    pub fn ask(&mut self, view: u32, kind: Kind, w: i64, l: i64) -> i64 {
        let value = self.session.ask(view, kind.number(), w, l).unwrap_or(-1);
        self.digest.integer(value);
        value
    }

    /// Sends a text query, and returns the value that is answered: -1 if it is refused.
    pub fn read(&mut self, view: u32, kind: Kind, w: i64, l: i64) -> i64 {
        let value = self
            .session
            .send_into(view, kind.number(), w, l, &[], &mut self.reply);
        self.digest.bytes(self.reply.text());
        let value = value.unwrap_or(-1);
        self.digest.integer(value);
        value
    }

    /// Returns the text of the last text query.
    pub fn last_text(&self) -> &[u8] {
        self.reply.text()
    }

    /// Returns how many bytes the document has.
    pub fn length(&mut self, view: u32) -> usize {
        place_of(self.ask(view, Kind::GetLength, 0, 0))
    }

    /// Returns how many lines the document has.
    pub fn lines(&mut self, view: u32) -> usize {
        place_of(self.ask(view, Kind::GetLineCount, 0, 0))
    }

    /// Opens a view on a new document with this text, which is at its save point, with an empty history.
    pub fn open_on(&mut self, text: &[u8]) -> u32 {
        let view = self.open();
        self.send(view, Kind::InsertText, 0, 0, text);
        self.send(view, Kind::EmptyUndoBuffer, 0, 0, &[]);
        view
    }
}
