//! Plans of the messages on the selection and the clipboard.

ghost use Rattle.std.specs.Prelude.{◌≡◌, ◌≤◌, ◌+◌, length};
ghost use Rattle.ed_model.specs.declared.plan.Source.TheVariants.{Clipboard};
ghost use Rattle.ed_model.specs.Edits.{source_bytes};
ghost use Rattle.ed_model.specs.Requests.{answer, change_view, selection_start, size};
ghost use Rattle.message_requests.specs.HandingOut.{handed_out};
ghost use Rattle.ed_model.specs.SelectionPlans.{can_paste, clear, copy, copy_range, copy_text, cut, get_anchor, get_current_pos, get_paste_convert_endings, get_sel_text, get_selection_empty, get_selection_end, get_selection_start, go_to, go_to_line, go_to_pos, paste, replace_sel, select, select_all, selected, set_anchor, set_current_pos, set_paste_convert_endings, set_sel, set_selection_end, set_selection_start};

use ed_model::{Follow, Planned, SessionChange, Source, ViewChange};
use ed_types::Refusal;
use line_ends::converted_len;
use message_requests::answers::{HandedOut, answer, bytes_between, change_session, flag};
use message_requests::arguments::{clamped, is_on, within};
use message_requests::edits::{Replacement, edit_plan, replace_and_go, replace_plan};
use message_requests::{Request, past_argument};

/// Sets the anchor and the caret.
pub(crate) fn select(anchor: usize, caret: usize) -> ViewChange
    ensures { change_view result ≡ select anchor caret }
{
    ViewChange::Select { anchor, caret }
}

/// Sets both ends of the selection to `place`.
pub fn go_to(place: usize) -> ViewChange
    ensures { change_view result ≡ go_to place }
{
    select(place, place)
}

/// GETCURRENTPOS: returns the caret, in bytes from 0.
pub fn get_current_pos(r: &Request) -> i64
    ensures { answer result ≡ get_current_pos r.now }
{
    r.caret() as i64
}

/// GETANCHOR: returns the anchor, in bytes from 0.
pub fn get_anchor(r: &Request) -> i64
    ensures { answer result ≡ get_anchor r.now }
{
    r.anchor() as i64
}

/// GETSELECTIONSTART: returns the lesser end of the selection.
pub fn get_selection_start(r: &Request) -> i64
    ensures { answer result ≡ get_selection_start r.now }
{
    r.selection_start() as i64
}

/// GETSELECTIONEND: returns the greater end of the selection.
pub fn get_selection_end(r: &Request) -> i64
    ensures { answer result ≡ get_selection_end r.now }
{
    r.selection_end() as i64
}

/// GETSELECTIONEMPTY: returns whether the selection is empty.
pub fn get_selection_empty(r: &Request) -> i64
    ensures { answer result ≡ get_selection_empty r.now }
{
    flag(r.view.selection().is_empty())
}

/// SELECTALL: selects the whole text.
pub fn select_all(r: &Request) -> ViewChange
    ensures { change_view result ≡ select_all r.now }
{
    select(0, r.size())
}

/// GOTOLINE: goes to the start of line `w`, clamped to the lines of the document.
pub fn go_to_line(r: &Request) -> ViewChange
    ensures { change_view result ≡ go_to_line r.now }
{
    go_to(r.line_start(clamped(r.line_total() - 1, r.message.w)))
}

/// GOTOPOS and SETEMPTYSELECTION: goes to `w`, clamped to the text.
pub fn go_to_pos(r: &Request) -> ViewChange
    ensures { change_view result ≡ go_to_pos r.now }
{
    go_to(clamped(r.size(), r.message.w))
}

/// SETANCHOR: moves only the anchor.
pub fn set_anchor(r: &Request) -> ViewChange
    ensures { change_view result ≡ set_anchor r.now }
{
    select(clamped(r.size(), r.message.w), r.view.selection().caret)
}

/// SETCURRENTPOS: moves only the caret.
pub fn set_current_pos(r: &Request) -> ViewChange
    ensures { change_view result ≡ set_current_pos r.now }
{
    select(r.view.selection().anchor, clamped(r.size(), r.message.w))
}

/// SETSELECTIONSTART: moves the anchor to `w`, and the caret too if it is before `w`.
pub fn set_selection_start(r: &Request) -> ViewChange
    ensures { change_view result ≡ set_selection_start r.now }
{
    let place = clamped(r.size(), r.message.w);
    select(place, place.max(r.view.selection().caret))
}

/// SETSELECTIONEND: moves the caret to `w`, and the anchor too if it is behind `w`.
pub fn set_selection_end(r: &Request) -> ViewChange
    ensures { change_view result ≡ set_selection_end r.now }
{
    let place = clamped(r.size(), r.message.w);
    select(place.min(r.view.selection().anchor), place)
}

/// SETSEL: moves the caret to `l`, or to the end of the text if `l` is negative, and the anchor to `w`, or to the caret
/// if `w` is negative.
pub fn set_sel(r: &Request) -> ViewChange
    ensures { change_view result ≡ set_sel r.now }
{
    let size = r.size();
    let caret = if r.message.l < 0 {
        size
    } else {
        clamped(size, r.message.l)
    };
    if r.message.w < 0 {
        go_to(caret)
    } else {
        select(clamped(size, r.message.w), caret)
    }
}

/// GETSELTEXT: returns the selected bytes.
pub fn get_sel_text(r: &Request) -> HandedOut
    ensures { handed_out result ≡ get_sel_text r.now }
{
    bytes_between(r.selection_start(), r.selection_end())
}

/// Returns how many bytes are selected.
pub(crate) fn selected(r: &Request) -> usize
    ensures selected { result ≡ selected r.now }
    ensures within { selection_start r.now + result ≤ size r.now }
{
    r.selection_end() - r.selection_start()
}

/// REPLACESEL: replaces the selection by the message's text.
pub fn replace_sel(r: &Request) -> Planned
    ensures { result ≡ replace_sel r.now }
{
    let count = r.message.text.len();
    replace_and_go(
        r,
        Replacement {
            start: r.selection_start(),
            count: selected(r),
            source: Source::MessageText { count },
            added: count,
        },
    )
}

/// CANPASTE: returns whether the document can be edited.
pub fn can_paste(r: &Request) -> i64
    ensures { answer result ≡ can_paste r.now }
{
    flag(!r.document.is_read_only())
}

/// CUT: copies a selection that is not empty to the clipboard, and deletes it.
pub fn cut(r: &Request) -> Planned
    ensures { result ≡ cut r.now }
{
    let start = r.selection_start();
    let count = selected(r);
    if count == 0 {
        return answer(0);
    }
    edit_plan(
        r,
        Replacement::deletion(start, count),
        0,
        Follow::Clipboard { start, count },
    )
}

/// COPY: copies a selection that is not empty to the clipboard.
pub fn copy(r: &Request) -> Planned
    ensures { result ≡ copy r.now }
{
    let start = r.selection_start();
    let count = selected(r);
    if count == 0 {
        return answer(0);
    }
    change_session(SessionChange::Copy { start, count })
}

/// Returns how many bytes PASTE inserts, with line ends converted to those of the document if `convert`.
fn pasted_length(r: &Request, convert: bool) -> usize
    ensures { result ≡ length (source_bytes r.now (Clipboard convert)) }
{
    let clipboard = &r.session.clipboard;
    if convert {
        converted_len(clipboard, r.document.typed_line_end())
    } else {
        clipboard.len()
    }
}

/// PASTE: replaces the selection by the text of the clipboard, with the document's line ends if the view converts them.
pub fn paste(r: &Request) -> Planned
    ensures { result ≡ paste r.now }
{
    if r.session.clipboard.is_empty() {
        return answer(0);
    }
    let convert = r.view.converts_pastes();
    let replacement = Replacement {
        start: r.selection_start(),
        count: selected(r),
        source: Source::Clipboard { convert },
        added: pasted_length(r, convert),
    };
    replace_and_go(r, replacement)
}

/// CLEAR: deletes the selection, or if it is empty the bytes from the caret to the next cut between characters.
pub fn clear(r: &Request) -> Planned
    ensures { result ≡ clear r.now }
{
    let count = selected(r);
    if count == 0 {
        let caret = r.caret();
        let past = r.cut_after(caret);
        return replace_plan(r, Replacement::deletion(caret, past.saturating_sub(caret)));
    }
    replace_plan(r, Replacement::deletion(r.selection_start(), count))
}

/// COPYRANGE: copies the bytes from `w` up to `l` to the clipboard. `l` = -1 is the end of the text.
pub fn copy_range(r: &Request) -> Planned
    ensures { result ≡ copy_range r.now }
{
    let Some(start) = within(0, r.size(), r.message.w) else {
        return Err(Refusal::BadArgument);
    };
    match past_argument(r, start) {
        Some(past) => change_session(SessionChange::Copy {
            start,
            count: past - start,
        }),
        None => Err(Refusal::BadArgument),
    }
}

/// COPYTEXT: copies the first `w` bytes of the message's text to the clipboard.
pub fn copy_text(r: &Request) -> Planned
    ensures { result ≡ copy_text r.now }
{
    match within(0, r.message.text.len(), r.message.w) {
        Some(count) => change_session(SessionChange::CopyText { count }),
        None => Err(Refusal::BadArgument),
    }
}

/// SETPASTECONVERTENDINGS: sets whether pasted text gets the document's line ends.
pub fn set_paste_convert_endings(r: &Request) -> ViewChange
    ensures { change_view result ≡ set_paste_convert_endings r.now }
{
    ViewChange::SetPasteConversion {
        on: is_on(r.message.w),
    }
}

/// GETPASTECONVERTENDINGS: returns whether pasted text gets the document's line ends.
pub fn get_paste_convert_endings(r: &Request) -> i64
    ensures { answer result ≡ get_paste_convert_endings r.now }
{
    flag(r.view.converts_pastes())
}
