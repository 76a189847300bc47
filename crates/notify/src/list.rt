//! `NoteList` and its calls.

ghost use Rattle.std.specs.Prelude.{◌≡◌, List, ℕ, ◌+◌, ◌≤◌, [], ◌++◌, length, OnOk, OnErr, IsOk, vec_len, vec_capacity};
ghost use Rattle.ed_model.specs.Notes.{blank};
ghost use Rattle.ed_types.specs.Heard.{with_text};
ghost use Rattle.notify.specs.Gathered.{CanPut, CanShare, is_full, no_notes, with_room, with_shared, with_note, with_own_text, with_own_halves};

use ed_types::{Bytes, Note, Reply};
use std::alloc::{AllocError, Global};
use std::marker::Model;
use vec_room::extend_reserved;

/// Notes in order, each with its text.
#[derive(Drop)]
pub struct NoteList {
    notes: Vec<Note>,
    pool: Vec<u8>,
    // Where the shared text begins in the pool. It ends with the pool.
    shared_from: usize,
    // How many bytes of texts fit in. Only `reserve` changes it; `Vec::extend_from_slice` does not say that the capacity
    // of the pool stays the same.
    text_capacity: usize,
}

impl Model for NoteList {
    ghost use Rattle.notify.specs.Gathered.{Gathered, gathered, note_capacity};

    ghost Value = { Gathered };

    ghost use Rattle.std.specs.Prelude.{◌≤◌, length, drop, vec_len, vec_capacity};
    ghost use Rattle.ed_types.specs.Heard.{heard_in};
    ghost use Rattle.notify.specs.Ranges.{EndWithin};

    ghost view = { λ l.
        gathered (heard_in l.pool.items l.notes.items) (drop l.shared_from l.pool.items) (length l.pool.items)
        (note_capacity (vec_capacity l.notes) l.text_capacity) };

    ghost invariant = { λ l. record {
      texts : EndWithin (length l.pool.items) l.notes.items;
      shared : l.shared_from ≤ length l.pool.items;
      notes : vec_len l.notes ≤ vec_capacity l.notes;
      held : length l.pool.items ≤ l.text_capacity;
      pool : l.text_capacity ≤ vec_capacity l.pool;
    } };
}

impl NoteList {
    /// Returns an empty list, whose shared text is empty. Allocates nothing.
    pub fn new(alloc: Global) -> Self
        ensures { result ≡ no_notes }
    {
        NoteList {
            notes: Vec::new(alloc),
            pool: Vec::new(alloc),
            shared_from: 0,
            text_capacity: 0,
        }
    }

    /// Makes room for `notes` more notes, and for texts of `bytes` more bytes in all, and for no more than that. Allocates
    /// nothing if the room is there. Frees nothing.
    ///
    /// # Errors
    ///
    /// `AllocError` if an allocation fails. Nothing has changed then.
    pub fn reserve(&mut self, notes: usize, bytes: usize) -> Result<(), AllocError>
        ensures ok { OnOk result (self.new ≡ with_room notes bytes self.old) }
        ensures room_is_there { CanPut notes self.old → CanShare bytes self.old → IsOk result × (self.new ≡ self.old) }
        ensures err { OnErr result (self.new ≡ self.old) }
    {
        if notes <= self.notes.capacity() - self.notes.len()
            && bytes <= self.text_capacity - self.pool.len()
        {
            return Ok(());
        }
        self.pool.reserve_exact(bytes)?;
        self.notes.reserve_exact(notes)?;
        self.text_capacity = self.text_capacity.max(self.pool.len() + bytes);
        Ok(())
    }

    /// What the list holds fits in.
    #[tactic(auto, using(crate::proofs::Pools::length_heard))]
    pub fn fits_in(&self)
        ensures notes { CanPut 0 self.now }
        ensures texts { CanShare 0 self.now }
    {
        // A use of a field brings the invariant.
        let _ = &self.notes;
    }

    /// Returns whether no more notes fit in: then no view listens, and no note has to be prepared.
    pub fn is_full(&self) -> bool
        ensures { result ≡ is_full self.now }
    {
        self.notes.len() == self.notes.capacity()
    }

    /// Shares a text among the next notes, instead of the one that was shared. It comes in two halves, as a gap buffer
    /// lends it.
    pub fn share(&mut self, first: &[u8], second: &[u8])
        requires { CanShare (length first.now + length second.now) self.old }
        ensures { self.new ≡ with_shared first.now second.now self.old }
    {
        let from = self.pool.len();
        extend_reserved(&mut self.pool, first);
        extend_reserved(&mut self.pool, second);
        self.shared_from = from;
    }

    /// Appends a note with the shared text. The range in `note` is ignored.
    pub fn put_again(&mut self, mut note: Note)
        requires { CanPut 1 self.old }
        ensures { self.new ≡ with_note (with_text note self.old.shared) self.old }
    {
        note.text = self.shared_from..self.pool.len();
        self.notes.push_reserved(note);
    }

    /// Appends a note without a text. The shared text stays.
    pub fn put_bare(&mut self, mut note: Note)
        requires { CanPut 1 self.old }
        ensures { self.new ≡ with_note (with_text note []) self.old }
    {
        note.text = 0..0;
        self.notes.push_reserved(note);
    }

    /// Appends a note with a text of its own, which becomes the shared text.
    pub fn put(&mut self, note: Note, text: &[u8])
        requires notes { CanPut 1 self.old }
        requires text { CanShare (length text.now) self.old }
        ensures { self.new ≡ with_own_text note text.now self.old }
    {
        self.put_halves(note, text, &[]);
    }

    /// Like `put`, for a text in two halves.
    pub fn put_halves(&mut self, note: Note, first: &[u8], second: &[u8])
        requires notes { CanPut 1 self.old }
        requires text { CanShare (length first.now + length second.now) self.old }
        ensures { self.new ≡ with_own_halves note first.now second.now self.old }
    {
        self.share(first, second);
        self.put_again(note);
    }

    /// Returns the reply with these notes. Allocates nothing.
    pub fn finish(self, value: i64, text: Bytes) -> Reply
        ensures { result ≡ record { value = value; text = text; notes = self.notes } }
    {
        let NoteList { notes, pool, .. } = self;
        Reply::new(value, text, notes, Bytes::new(pool))
    }
}

/// Returns a note with this code, for view 0. All other fields are 0 or empty.
pub fn blank(code: u32) -> Note
    ensures { (text : List ℕ) → let n = blank code in with_text result text ≡ record n { text = text } }
{
    Note {
        view: 0,
        code,
        kind: 0,
        position: 0,
        length: 0,
        lines: 0,
        line: 0,
        now: 0,
        prev: 0,
        token: 0,
        message: 0,
        w: 0,
        l: 0,
        text: 0..0,
    }
}
