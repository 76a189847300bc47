//! `Session` and its calls.

ghost use Rattle.std.specs.Prelude.{◌≡◌, ◌≢◌, ◌⊎◌, ℕ, List, [], true, OnOk, OnErr, IfOk, IfErr, IfSome, Ok, Err, is_some};
ghost use Rattle.ed_types.specs.declared.refusal.Refusal.TheVariants.{BadArgument, NoSuchView, OutOfMemory};
ghost use Rattle.ed_model.specs.Session.{new_session, greatest_limits, is_between_one_and, is_allowed, view_at};
ghost use Rattle.ed_model.specs.Performing.{quiet};
ghost use Rattle.ed_model.specs.SoundLaws.{IsSound};
ghost use Rattle.ed_model.specs.Table.{table, limited, opened, closed};
ghost use Rattle.editor_session.specs.Answers.{AnswersBy, message_with, value_to, told, IsLeft};
ghost use Rattle.editor_session.specs.Plans.{is_free};
ghost use Rattle.editor_session.specs.Lent.{lent_range};

use crate::asking::ask;
use crate::lending::{document_with, lend};
use crate::opening::{close, open};
use crate::sending::{answer_into, answer_message};
use document_table::DocumentTable;
use ed_model::soundness_is_kept;
use ed_types::{Limits, Message, Refusal, Reply};
use id_table::IdTable;
use message_requests::{SentMessage, SessionState};
use std::alloc::Global;
use std::marker::Model;

/// A session: documents, and the views of them. Contracts see it as the session of the message table.
#[derive(Drop)]
pub struct Session {
    pub(crate) alloc: Global,
    pub(crate) state: SessionState,
}

impl Model for Session {
    ghost use Rattle.ed_model.specs.Session.{Session};
    ghost use Rattle.message_requests.specs.Requested.{session_in};
    ghost use Rattle.performing.specs.Kept.{IsKept};

    ghost Value = { Session };

    ghost view = { λ s. session_in s.state };

    ghost invariant = { λ s. IsKept s.state };
}

/// Returns whether a limit is from 1 to the greatest that it may be.
fn is_between_one_and(greatest: u64, limit: u64) -> bool
    ensures { result ≡ is_between_one_and greatest limit }
{
    0 < limit && limit <= greatest
}

/// Returns whether a session may have these limits.
fn is_allowed(limits: &Limits) -> bool
    ensures { result ≡ is_allowed limits.now }
{
    is_between_one_and(Limits::DOC_BYTES, limits.doc_bytes)
        && is_between_one_and(Limits::LARGE_BYTES, limits.large_bytes)
        && is_between_one_and(Limits::HANDLES, limits.handles)
        && is_between_one_and(Limits::IDS, limits.ids)
        && is_between_one_and(Limits::REFS, limits.refs)
        && is_between_one_and(Limits::VIEWS, limits.views)
        && is_between_one_and(Limits::DEPTH, limits.depth)
}

impl Session {
    ghost use Rattle.std.specs.Borrow.{sem};
    ghost use Rattle.editor_session.specs.Lends.{lent_and_back};

    /// Returns a session without documents and views, with the greatest limits. Allocates nothing.
    pub fn new(alloc: Global) -> Self
        ensures { result ≡ new_session greatest_limits }
    {
        Session::with_allowed(alloc, Limits::GREATEST)
    }

    /// Returns a session without documents and views, with lower limits. Allocates nothing.
    ///
    /// # Errors
    ///
    /// `BadArgument` if a limit is 0 or above the greatest.
    pub fn with_limits(alloc: Global, limits: Limits) -> Result<Self, Refusal>
        ensures { result ≡ limited limits }
    {
        if is_allowed(&limits) {
            Ok(Session::with_allowed(alloc, limits))
        } else {
            Err(Refusal::BadArgument)
        }
    }

    /// Returns a session without documents and views. It has to be allowed to have these limits.
    fn with_allowed(alloc: Global, limits: Limits) -> Self
        requires { is_allowed limits ≡ true }
        ensures { result ≡ new_session limits }
    {
        Session {
            alloc,
            state: SessionState {
                documents: DocumentTable::new(alloc),
                views: IdTable::new(alloc),
                clipboard: Vec::new(alloc),
                limits,
            },
        }
    }

    /// Opens a view on a new document, and returns its id: 1, 2, 3 and so on. No id is given twice.
    ///
    /// # Errors
    ///
    /// `TooMany` if the open views are at their limit or ids are used up, before anything is allocated; otherwise `OutOfMemory` if an
    /// allocation fails. The session is then as it was.
    pub fn new_view(&mut self) -> Result<u32, Refusal>
        ensures answer { AnswersBy (opened self.old) self.old self.new result }
        ensures refused { IfErr (opened self.old) (λ refusal. result ≡ Err refusal) }
    {
        // States that the session stays sound.
        soundness_is_kept();
        let state = &self.state;
        if state.limits.views <= state.views.len() as u64
            || state.limits.ids < u64::from(state.views.next())
            || state.limits.ids < u64::from(state.documents.next())
        {
            return Err(Refusal::TooMany);
        }
        let Ok(view) = open(self.alloc, &mut self.state) else {
            return Err(Refusal::OutOfMemory);
        };
        Ok(view)
    }

    /// Closes a view, and drops its document if no other view is attached to it and no caller holds it. Allocates nothing.
    ///
    /// # Errors
    ///
    /// `NoSuchView` if no open view has this id. The session is then as it was.
    pub fn close_view(&mut self, view: u32) -> Result<(), Refusal>
        ensures closed { OnOk result (closed self.old view ≡ Ok self.new) }
        ensures refused { IfErr result (λ refusal. closed self.old view ≡ Err refusal) }
        ensures same { OnErr result (self.new ≡ self.old) }
    {
        // States that the session stays sound.
        soundness_is_kept();
        close(&mut self.state, view)
    }

    /// Returns whether a view with this id is open.
    pub(crate) fn has_view(&self, view: u32) -> bool
        ensures { result ≡ is_some (view_at self.now.views view) }
    {
        self.state.views.contains(view)
    }

    /// The law that a session is sound. Does nothing.
    pub(crate) fn soundness(&self)
        ensures { IsSound self.now }
    {
        let _state = &self.state;
    }

    /// Sends a message to a view. The messages are those of the documentation of Scintilla that `docs/MESSAGES.md` lists.
    ///
    /// # Errors
    ///
    /// The first refusal that holds, in the order `NoSuchView`, `UnknownMessage`, `BadArgument`, `NoSuchDocument`, `TooMany`,
    /// `TooLong`, found before anything is allocated; otherwise `OutOfMemory` if an allocation fails, which is never answered to a
    /// message whose plan needs no memory, unless it is recorded. The session is then as it was.
    pub fn send(&mut self, view: u32, m: &Message) -> Result<Reply, Refusal>
        ensures answer { AnswersBy (table self.old view m.now) self.old self.new result }
        ensures refused { IfErr (table self.old view m.now) (λ refusal. result ≡ Err refusal) }
        ensures free { is_free self.old view m.now ≡ true → IfErr result (λ refusal. refusal ≢ OutOfMemory) }
    {
        self.send_lent(view, m.number, m.w, m.l, m.text.as_slice())
    }

    /// Sends a message with a borrowed text, which is not copied.
    ///
    /// # Errors
    ///
    /// As of `send`.
    pub fn send_lent(
        &mut self,
        view: u32,
        number: u32,
        w: i64,
        l: i64,
        text: &[u8],
    ) -> Result<Reply, Refusal>
        ensures answer { AnswersBy (table self.old view (message_with number w l text.now)) self.old self.new result }
        ensures refused { IfErr (table self.old view (message_with number w l text.now)) (λ refusal. result ≡ Err refusal) }
        ensures free { is_free self.old view (message_with number w l text.now) ≡ true → IfErr result (λ refusal. refusal ≢ OutOfMemory) }
    {
        let message = SentMessage { number, w, l, text };
        answer_message(self, view, &message)
    }

    /// Sends any message as `send_lent` does, but replaces `reply` by its reply, and returns the value. If neither reply has a text or
    /// notes, only the value is written. The bytes of a text query, such as GETTEXTRANGE or GETLINE, are written into the buffer of the
    /// reply's text, if they fit; a buffer of at most 4,096 bytes is kept by replies without a text.
    ///
    /// # Errors
    ///
    /// As of `send`. `reply` is then as it was, too.
    #[inline(always)]
    pub fn send_into(
        &mut self,
        view: u32,
        number: u32,
        w: i64,
        l: i64,
        text: &[u8],
        reply: &mut Reply,
    ) -> Result<i64, Refusal>
        ensures answer { AnswersBy (table self.old view (message_with number w l text.now)) self.old self.new (told result reply.new) }
        ensures refused { IfErr (table self.old view (message_with number w l text.now)) (λ refusal. result ≡ Err refusal) }
        ensures place { IsLeft result reply.old reply.new }
        ensures free { is_free self.old view (message_with number w l text.now) ≡ true → IfErr result (λ refusal. refusal ≢ OutOfMemory) }
    {
        let message = SentMessage { number, w, l, text };
        answer_into(self, view, &message, reply)
    }

    /// Asks a view a numeric query: each query that is answered by a number (`questions` of the definitions; marked Q in
    /// `docs/MESSAGES.md`). It does not change the session. `send` would answer the same value, with whatever text. `None` for all other
    /// messages, and for what is refused: `send` says why. Allocates nothing.
    #[inline(always)]
    pub fn ask(&self, view: u32, number: u32, w: i64, l: i64) -> Option<i64>
        ensures value { result ≡ value_to self.now view (message_with number w l []) }
        ensures answer { IfSome result (λ value. (text : List ℕ) → table self.now view (message_with number w l text) ≡ Ok (self.now, quiet value)) }
    {
        // No numeric query reads a text.
        let message = SentMessage {
            number,
            w,
            l,
            text: &[],
        };
        ask(self, view, &message)
    }

    /// Lends the `count` bytes of the view's document from `start` on as one slice, without a copy. The session does not change.
    /// Allocates nothing.
    ///
    /// # Errors
    ///
    /// `NoSuchView` if no open view has this id, `BadArgument` if `start + count` is past the end of the text.
    pub fn lend_range(&mut self, view: u32, start: usize, count: usize) -> Result<&[u8], Refusal>
        ensures* back { sem 𝓛 (lent_and_back self.entry) }
        ensures lent { IfOk result (λ bytes. lent_range self.old view start count ≡ Ok bytes.now) }
        ensures refused { IfErr result (λ refusal. lent_range self.old view start count ≡ Err refusal) }
        ensures refusals { IfErr result (λ refusal. (refusal ≡ NoSuchView) ⊎ (refusal ≡ BadArgument)) }
    {
        let document = document_with(&self.state, view, start, count)?;
        Ok(lend(&mut self.state, document, start, count))
    }
}
