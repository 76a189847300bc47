//! Plans of the keys.

ghost use Rattle.std.specs.Prelude.{◌≡◌, ◌≤◌};
ghost use Rattle.ed_model.specs.KeyPlans.{char_left, char_right, delete_back, extend_to, new_line, place_home, place_left, place_line_end, place_right};
ghost use Rattle.ed_model.specs.Requests.{change_view, size};

use crate::selection_plans::{go_to, select, selected};
use ed_model::{LineEnd, Planned, Source, ViewChange};
use message_requests::Request;
use message_requests::edits::{Replacement, replace_and_go, replace_plan};

/// Returns the cut before the caret.
pub fn place_left(r: &Request) -> usize
    ensures place { result ≡ place_left r.now }
    ensures within { result ≤ r.now.view.caret }
{
    r.cut_before(r.caret())
}

/// Returns the cut behind the caret.
pub fn place_right(r: &Request) -> usize
    ensures { result ≡ place_right r.now }
{
    r.cut_after(r.caret())
}

/// Returns the start of the caret's line.
pub fn place_home(r: &Request) -> usize
    ensures { result ≡ place_home r.now }
{
    r.line_start(r.line_at(r.caret()))
}

/// Returns where the line end of the caret's line begins.
pub fn place_line_end(r: &Request) -> usize
    ensures { result ≡ place_line_end r.now }
{
    r.line_end(r.line_at(r.caret()))
}

/// Moves the caret to `place`, and leaves the anchor.
pub fn extend_to(r: &Request, place: usize) -> ViewChange
    ensures { change_view result ≡ extend_to r.now place }
{
    select(r.view.selection().anchor, place)
}

/// CHARLEFT: moves the caret one character to the left, or to the start of a selection that is not empty.
pub fn char_left(r: &Request) -> ViewChange
    ensures { change_view result ≡ char_left r.now }
{
    if selected(r) == 0 {
        go_to(place_left(r))
    } else {
        go_to(r.selection_start())
    }
}

/// CHARRIGHT: moves the caret one character to the right, or to the end of a selection that is not empty.
pub fn char_right(r: &Request) -> ViewChange
    ensures { change_view result ≡ char_right r.now }
{
    if selected(r) == 0 {
        go_to(place_right(r))
    } else {
        go_to(r.selection_end())
    }
}

/// DELETEBACK: deletes the selection, or if it is empty the character before the caret.
pub fn delete_back(r: &Request) -> Planned
    ensures { result ≡ delete_back r.now }
{
    let count = selected(r);
    if count == 0 {
        let caret = r.caret();
        let start = place_left(r);
        return replace_plan(r, Replacement::deletion(start, caret - start));
    }
    replace_plan(r, Replacement::deletion(r.selection_start(), count))
}

/// NEWLINE: replaces the selection by the document's line end.
pub fn new_line(r: &Request) -> Planned
    ensures { result ≡ new_line r.now }
{
    let added = match r.document.typed_line_end() {
        LineEnd::CrLf => 2,
        LineEnd::Cr | LineEnd::Lf => 1,
    };
    replace_and_go(
        r,
        Replacement {
            start: r.selection_start(),
            count: selected(r),
            source: Source::LineEnd,
            added,
        },
    )
}
