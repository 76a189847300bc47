//! Edits: the plans of messages that change the text.

ghost use Rattle.std.specs.Prelude.{◌≡◌, ◌≤◌, ◌+◌, ◌&&◌, ◌||◌, nat_le, nat_lt, length, pos};
ghost use Rattle.ed_model.specs.Session.{limit_of};
ghost use Rattle.message_requests.specs.Replacing.{edit_if, keeps_limit};
ghost use Rattle.ed_model.specs.declared.plan.Edit.TheVariants.{ConvertLineEnds, Replace};
ghost use Rattle.ed_model.specs.declared.plan.Follow.TheVariants as Follows;
ghost use Rattle.ed_model.specs.declared.plan.Source.TheVariants.{MessageText, Nothing};
ghost use Rattle.ed_model.specs.Requests.{size};
ghost use Rattle.ed_model.specs.Edits.{edit_plan, replace_and_go, replace_plan, source_bytes};

use crate::request::Request;
use ed_model::{Edit, Follow, LineEnd, Plan, Planned, Source};
use ed_types::Refusal;
use line_ends::{conversion_stays_within, has_conversion};

/// The replacement of a range of the text by other bytes. Both may be empty.
#[derive(Clone, Copy)]
pub struct Replacement {
    /// The place of the first byte to delete, in bytes from 0. The new bytes are inserted there.
    pub start: usize,
    /// How many bytes are deleted.
    pub count: usize,
    /// Which bytes are inserted.
    pub source: Source,
    /// How many bytes are inserted: the length of `source`.
    pub added: usize,
}

impl Replacement {
    /// Returns the deletion of the `count` bytes from `start` on.
    pub fn deletion(start: usize, count: usize) -> Self
        ensures { result ≡ record { start = start; count = count; source = Nothing; added = 0 } }
    {
        Replacement {
            start,
            count,
            source: Source::Nothing,
            added: 0,
        }
    }

    /// Returns the insertion of the first `added` bytes of the message's text at `start`.
    pub fn insertion(start: usize, added: usize) -> Self
        ensures { result ≡ record { start = start; count = 0; source = MessageText added; added = added } }
    {
        Replacement {
            start,
            count: 0,
            source: Source::MessageText { count: added },
            added,
        }
    }
}

/// Returns whether the document is read-only and the edit has a step: it deletes or inserts at least one byte.
fn is_kept_out(r: &Request, count: usize, added: usize) -> bool
    ensures { result ≡ (r.now.document.read_only && (nat_lt 0 count || nat_lt 0 added)) }
{
    r.document.is_read_only() && (count > 0 || added > 0)
}

/// Returns whether `left` bytes and `added` more are at most `limit`, without computing a sum that may overflow.
fn fits(left: usize, added: usize, limit: u64) -> bool
    ensures { result ≡ nat_le (left + added) limit }
{
    left as u64 <= limit && added as u64 <= limit - left as u64
}

/// Returns whether the text is within its limit after each step: a deletion of `count` bytes, and then an insertion of
/// `added` bytes. A number of 0 makes no step.
fn keeps_limit(r: &Request, count: usize, added: usize) -> bool
    requires range { count ≤ size r.now }
    ensures { result ≡ keeps_limit (limit_of r.now.session.limits r.now.document) (size r.now) count added }
{
    let limit = r.limit();
    let left = r.size() - count;
    (count == 0 || left as u64 <= limit) && (added == 0 || fits(left, added, limit))
}

/// Returns the plan of an attempt if the edit is kept out, otherwise `edit`.
///
/// # Errors
///
/// `TooLong` if the edit is neither kept out nor within the limit.
fn edit_if(kept_out: bool, within: bool, edit: Plan) -> Planned
    ensures { result ≡ edit_if kept_out within edit }
{
    if kept_out {
        return Ok(Plan::Attempt);
    }
    if within {
        Ok(edit)
    } else {
        Err(Refusal::TooLong)
    }
}

/// Returns the plan of an edit that replaces bytes, answers `value`, and does `follow` after its steps. If the document
/// is read-only and the edit has a step, the plan is only an attempt.
///
/// # Errors
///
/// `TooLong` if the document is not read-only and a step takes the text past its limit.
pub fn edit_plan(r: &Request, replacement: Replacement, value: i64, follow: Follow) -> Planned
    requires range { replacement.start + replacement.count ≤ size r.now }
    requires added { replacement.added ≡ length (source_bytes r.now replacement.source) }
    ensures { result ≡ edit_plan r.now (Replace replacement.start replacement.count replacement.source) value follow }
{
    let Replacement {
        start,
        count,
        source,
        added,
    } = replacement;
    let edit = Edit::Replace {
        start,
        count,
        source,
    };
    edit_if(
        is_kept_out(r, count, added),
        keeps_limit(r, count, added),
        Plan::Edit {
            edit,
            value,
            follow,
        },
    )
}

/// Like `edit_plan`, for an edit that answers 0 and does nothing after its steps.
///
/// # Errors
///
/// Those of `edit_plan`.
pub fn replace_plan(r: &Request, replacement: Replacement) -> Planned
    requires range { replacement.start + replacement.count ≤ size r.now }
    requires added { replacement.added ≡ length (source_bytes r.now replacement.source) }
    ensures { result ≡ replace_plan r.now replacement.start replacement.count replacement.source }
{
    edit_plan(r, replacement, 0, Follow::Nothing)
}

/// Like `edit_plan`, for an edit that answers 0 and then moves the anchor and the caret to the end of the inserted
/// bytes.
///
/// # Errors
///
/// Those of `edit_plan`.
#[inline(always)]
pub fn replace_and_go(r: &Request, replacement: Replacement) -> Planned
    requires range { replacement.start + replacement.count ≤ size r.now }
    requires added { replacement.added ≡ length (source_bytes r.now replacement.source) }
    ensures { result ≡ replace_and_go r.now replacement.start replacement.count replacement.source }
{
    prove!(r.limit() <= u64::MAX);
    match replacement.start.checked_add(replacement.added) {
        Some(place) => edit_plan(r, replacement, 0, Follow::Caret { place }),
        // The sum overflows, so the text would pass every limit: the edit is refused or only attempted, and nothing
        // follows it.
        None => edit_plan(r, replacement, 0, Follow::Nothing),
    }
}

/// Returns the plan that converts all line ends of the text to `to` and answers 0 (CONVERTEOLS). If the document is
/// read-only and the conversion has a step, the plan is only an attempt.
///
/// # Errors
///
/// `TooLong` if the document is not read-only and a step takes the text past its limit.
#[tactic(auto, using(crate::specs::proved::Standing::length_text))]
pub fn conversion_plan(r: &Request, to: LineEnd) -> Planned
    ensures { result ≡ edit_plan r.now (ConvertLineEnds to) (pos 0) Follows.Nothing }
{
    let (first, second) = r.document.halves();
    edit_if(
        r.document.is_read_only() && has_conversion(first, second, to),
        conversion_stays_within(first, second, to, r.limit()),
        Plan::Edit {
            edit: Edit::ConvertLineEnds { to },
            value: 0,
            follow: Follow::Nothing,
        },
    )
}
