//! `Request`: a message with all that its plan reads.

ghost use Rattle.std.specs.Prelude.{◌≡◌, ◌≤◌, ◌<◌, ◌^◌, length, option_copied, option_map, slice_get, IfSome, Some};
ghost use Rattle.ed_model.specs.Session.{limit_of, lines_in};
ghost use Rattle.ed_model.specs.Numbers.{within};
ghost use Rattle.ed_model.specs.SessionPlans.{document_named};
ghost use Rattle.document.specs.Kept.{document_of};
ghost use Rattle.ed_model.specs.Requests.{end_or_size, size, text, line_total, line_at, selection_end, selection_start, target_greatest, target_least};
ghost use Rattle.ed_model.specs.Characters.{cut_after, cut_before};
ghost use Rattle.ed_model.specs.FoldingPlans.{levels};
ghost use Rattle.ed_model.specs.TextPlans.{line_start, line_past, line_end};

use crate::arguments::{is_minus_one, within};
use crate::state::SessionState;
use contraction::Levels;
use document::Document;
use ed_view::{LineFlags, View};
use line_rows::LineRows;
use std::marker::Model;

/// A message as it was sent. It borrows its text.
#[derive(Drop)]
pub struct SentMessage<'a> {
    /// The number of the message, by Scintilla's documentation.
    pub number: u32,
    /// The first argument, `wParam` in Scintilla.
    pub w: i64,
    /// The second argument, `lParam` in Scintilla.
    pub l: i64,
    /// The text that goes with the message; a NUL is an ordinary byte.
    pub text: &'a [u8],
}

impl<'a> Model for SentMessage<'a> {
    ghost use Rattle.ed_types.specs.declared.message.Message.{Message};

    ghost Value = { Message };

    ghost view = { λ m. record { number = m.number; w = m.w; l = m.l; text = m.text.now } };
}

/// A message, and what it is sent to: the session, the view and the view's document, all borrowed. Contracts see the
/// model's request. The session is sound and keeps each document under its own id, the view is one of its views, and the
/// document is the view's.
#[derive(Drop)]
pub struct Request<'a> {
    /// The state of the session.
    pub session: &'a SessionState,
    /// The view that the message is sent to.
    pub view: &'a View,
    /// The view's document.
    pub document: &'a Document,
    /// The message.
    pub message: SentMessage<'a>,
}

impl<'a> Model for Request<'a> {
    ghost use Rattle.ed_model.specs.Requests.{Request as ModelRequest};
    ghost use Rattle.message_requests.specs.Requested.{request_in};

    ghost Value = { ModelRequest };

    ghost use Rattle.ed_model.specs.PlansFit.{IsSoundRequest};
    ghost use Rattle.message_requests.specs.Requested.{DocumentsAreNamed};

    ghost view = { λ r. request_in r.session.now r.view.now r.document.now r.message };

    ghost invariant = { λ r. DocumentsAreNamed r.session.now × IsSoundRequest (request_in r.session.now r.view.now r.document.now r.message) };
}

// What plans read of a request. Most functions are named like the model's definition.
impl<'a> Request<'a> {
    /// Returns the length of the text, in bytes (GETLENGTH).
    pub fn size(&self) -> usize
        ensures size { result ≡ size self.now }
        ensures bounded { result < 2 ^ 62 }
    {
        self.document.len()
    }

    /// Returns the number of lines, which is at least 1 (GETLINECOUNT).
    pub fn line_total(&self) -> usize
        ensures lines { result ≡ line_total self.now }
        ensures some { 0 < line_total self.now }
        ensures bounded { result < 2 ^ 63 }
    {
        self.document.line_count()
    }

    /// Returns where a line starts, in bytes from 0 (POSITIONFROMLINE). Lines count from 0.
    pub fn line_start(&self, line: usize) -> usize
        requires { line < line_total self.now }
        ensures start { result ≡ line_start self.now line }
        ensures bounded { result < 2 ^ 62 }
    {
        self.document.line_start(line)
    }

    /// Returns where the line behind a line starts, or the length of the text if there is none.
    pub fn line_past(&self, line: usize) -> usize
        ensures past { result ≡ line_past self.now line }
        ensures bounded { result < 2 ^ 62 }
    {
        self.document.line_past(line)
    }

    /// Returns where the line end of a line begins (GETLINEENDPOSITION). For the last line and all lines behind it,
    /// this is the length of the text.
    pub fn line_end(&self, line: usize) -> usize
        ensures end { result ≡ line_end self.now line }
        ensures bounded { result < 2 ^ 62 }
    {
        self.document.line_end(line)
    }

    /// Returns the line that contains a place, counted from 0 (LINEFROMPOSITION). For a place behind the text, this is
    /// the last line.
    pub fn line_at(&self, place: usize) -> usize
        ensures line { result ≡ line_at self.now place }
        ensures within { result < line_total self.now }
        ensures bounded { result < 2 ^ 63 }
    {
        self.document.line_of(place)
    }

    /// Returns the byte at a place (GETCHARAT).
    pub fn byte(&self, place: usize) -> u8
        requires { place < size self.now }
        ensures { slice_get (text self.now) place ≡ Some result }
    {
        self.document.byte(place)
    }

    /// Returns the last cut between characters before a place, or 0 if there is none (POSITIONBEFORE).
    #[tactic(auto, using(crate::specs::proved::Standing::length_text))]
    pub fn cut_before(&self, place: usize) -> usize
        requires { place ≤ size self.now }
        ensures cut { result ≡ cut_before (text self.now) place }
        ensures within { result ≤ place }
    {
        let (first, second) = self.document.halves();
        char_cut::before(first, second, place)
    }

    /// Returns the next cut between characters behind a place, or the length of the text if there is none
    /// (POSITIONAFTER).
    #[tactic(auto, using(crate::specs::proved::Standing::length_text))]
    pub fn cut_after(&self, place: usize) -> usize
        requires { place ≤ size self.now }
        ensures cut { result ≡ cut_after (text self.now) place }
        ensures within { result ≤ size self.now }
    {
        let (first, second) = self.document.halves();
        char_cut::after(first, second, place)
    }

    /// Returns the view's anchor, in bytes from 0 (GETANCHOR). It lies in the text.
    #[tactic(auto, using(crate::specs::proved::Standing::anchor_in_text))]
    pub fn anchor(&self) -> usize
        ensures anchor { result ≡ self.now.view.anchor }
        ensures within { result ≤ size self.now }
        ensures bounded { result < 2 ^ 62 }
    {
        let anchor = self.view.selection().anchor;
        prove!(anchor <= self.size());
        anchor
    }

    /// Returns the view's caret, in bytes from 0 (GETCURRENTPOS). It lies in the text.
    #[tactic(auto, using(crate::specs::proved::Standing::caret_in_text))]
    pub fn caret(&self) -> usize
        ensures caret { result ≡ self.now.view.caret }
        ensures within { result ≤ size self.now }
        ensures bounded { result < 2 ^ 62 }
    {
        let caret = self.view.selection().caret;
        prove!(caret <= self.size());
        caret
    }

    /// Returns where the selection starts: the lesser of anchor and caret (GETSELECTIONSTART).
    pub fn selection_start(&self) -> usize
        ensures start { result ≡ selection_start self.now }
        ensures bounded { result < 2 ^ 62 }
    {
        self.anchor().min(self.caret())
    }

    /// Returns where the selection ends: the greater of anchor and caret (GETSELECTIONEND).
    pub fn selection_end(&self) -> usize
        ensures end { result ≡ selection_end self.now }
        ensures within { result ≤ size self.now }
        ensures bounded { result < 2 ^ 62 }
    {
        self.anchor().max(self.caret())
    }

    /// Returns the position up to which the document is styled, in bytes from 0 (GETENDSTYLED). It lies in the text.
    #[tactic(auto, using(crate::specs::proved::Standing::styled_in_text))]
    pub fn end_styled(&self) -> usize
        ensures end { result ≡ self.now.document.end_styled }
        ensures within { result ≤ size self.now }
        ensures bounded { result < 2 ^ 62 }
    {
        let end = self.document.end_styled();
        prove!(end <= self.size());
        end
    }

    /// Returns the start of the view's target, in bytes from 0 (GETTARGETSTART). It lies in the text.
    #[tactic(auto, using(crate::specs::proved::Standing::target_start_in_text))]
    pub fn target_start(&self) -> usize
        ensures start { result ≡ self.now.view.target_start }
        ensures within { result ≤ size self.now }
        ensures bounded { result < 2 ^ 62 }
    {
        let start = self.view.target().start;
        prove!(start <= self.size());
        start
    }

    /// Returns the end of the view's target, in bytes from 0 (GETTARGETEND). It lies in the text, possibly before the
    /// start of the target.
    #[tactic(auto, using(crate::specs::proved::Standing::target_end_in_text))]
    pub fn target_end(&self) -> usize
        ensures end { result ≡ self.now.view.target_end }
        ensures within { result ≤ size self.now }
        ensures bounded { result < 2 ^ 62 }
    {
        let end = self.view.target().end;
        prove!(end <= self.size());
        end
    }

    /// Returns the lesser of the start and the end of the target.
    pub fn target_least(&self) -> usize
        ensures least { result ≡ target_least self.now }
        ensures bounded { result < 2 ^ 62 }
    {
        self.target_start().min(self.target_end())
    }

    /// Returns the greater of the start and the end of the target.
    pub fn target_greatest(&self) -> usize
        ensures greatest { result ≡ target_greatest self.now }
        ensures within { result ≤ size self.now }
        ensures bounded { result < 2 ^ 62 }
    {
        self.target_start().max(self.target_end())
    }

    /// Returns the view's flags of the document's lines: one entry for each line.
    #[tactic(auto, using(crate::specs::proved::Standing::flags_of_lines))]
    pub fn lines(&self) -> &LineFlags
        ensures flags { result.now.flags ≡ self.now.view.flags }
        ensures lines { length self.now.view.flags ≡ line_total self.now }
    {
        self.view.lines()
    }

    /// Returns the rows of the document: one for each line.
    pub fn rows(&self) -> &LineRows
        ensures rows { result.now.rows ≡ self.now.document.rows }
        ensures next_handle { result.now.next_handle ≡ self.now.document.next_handle }
        ensures lines { length self.now.document.rows ≡ line_total self.now }
        ensures bounded { length self.now.document.rows < 2 ^ 63 }
    {
        let rows = self.document.rows();
        prove!(rows.count() <= 1 << 62);
        rows
    }

    /// Returns the fold levels of the document's lines (GETFOLDLEVEL): one for each line.
    pub fn levels(&self) -> Levels<'_>
        ensures levels { result ≡ levels self.now }
        ensures lines { length (levels self.now) ≡ line_total self.now }
    {
        self.document.rows().fold_levels()
    }

    /// Returns the document whose id is the argument, or `None` if there is no such document.
    #[tactic(auto, using(crate::proofs::Named::named, crate::proofs::Named::not_named))]
    pub fn document_named(&self, argument: i64) -> Option<&Document>
        ensures { option_map document_of (option_copied result) ≡ document_named self.now.session argument }
    {
        let documents = &self.session.documents;
        // All ids of documents are below the next id.
        let id = within(0, documents.next() as usize, argument)?;
        documents.get(id as u32)
    }

    /// Returns the greatest length of the document's text, in bytes. It depends on whether the document is for large
    /// texts.
    pub fn limit(&self) -> u64
        ensures { result ≡ limit_of self.now.session.limits self.now.document }
    {
        let limits = &self.session.limits;
        if self.document.is_large() {
            limits.large_bytes
        } else {
            limits.doc_bytes
        }
    }
}

/// Returns where a range that starts at `start` ends, by the message's `l`, in bytes from 0, as in GETTEXTRANGE.
/// `l` = -1 is the end of the text. Returns `None` if `l` lies before `start` or behind the text.
pub fn past_argument(r: &Request, start: usize) -> Option<usize>
    requires { start ≤ size r.now }
    ensures past { result ≡ within start (size r.now) (end_or_size (size r.now) r.now.message.l) }
    ensures bounded { IfSome result (λ past. (start ≤ past) × (past < 2 ^ 62)) }
{
    let size = r.size();
    if is_minus_one(r.message.l) {
        Some(size)
    } else {
        within(start, size, r.message.l)
    }
}
