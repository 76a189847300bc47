//! Plans of the messages on folding and visibility.

ghost use Rattle.std.specs.Prelude.{◌≡◌, ◌≤◌, ◌<◌, ◌^◌, IfSome};
ghost use Rattle.ed_model.specs.Requests.{answer, line_total, with_argument};
ghost use Rattle.ed_model.specs.FoldingPlans.{doc_line_from_visible, ensure_visible, fold_at, fold_by, fold_line, get_all_lines_visible, get_fold_expanded, get_fold_level, get_fold_parent, get_last_child, get_line_visible, hide_lines, line_shown_at, past_line, set_fold_expanded, set_fold_level, show_lines, toggle_fold, visible_from_doc_line};
ghost use Rattle.message_requests.specs.Changing.{changed, view_changed};

use contraction::folds::{fold_header, fold_parent, last_child_at};
use ed_model::{DocumentChange, ViewChange};
use ed_types::{Refusal, fold_level};
use message_requests::Request;
use message_requests::answers::{
    ChangePlan, ViewPlan, change_document, change_nothing, change_view, flag, leave_view,
    line_or_none,
};
use message_requests::arguments::{clamped, is_on, line_among, some_or_all, within};

// The actions of FOLDLINE on a header: `SC_FOLDACTION_CONTRACT`, and `SC_FOLDACTION_TOGGLE`. Any other action expands
// the header.
const CONTRACT: usize = 0;

const TOGGLE: usize = 2;

/// SETFOLDLEVEL: sets the level of line `w` to `l`. A level that the line has already is no change.
///
/// # Errors
///
/// `BadArgument` if `l` is no level.
pub fn set_fold_level(r: &Request) -> Result<ChangePlan, Refusal>
    ensures { changed result ≡ set_fold_level r.now }
{
    let Some(level) = within(0, i32::MAX as usize, r.message.l) else {
        return Err(Refusal::BadArgument);
    };
    let Some(line) = line_among(r.line_total(), r.message.w) else {
        return change_nothing(0);
    };
    let level = level as u32;
    if r.document.rows().level(line) == level {
        return change_nothing(0);
    }
    change_document(DocumentChange::SetLevel { line, level })
}

/// GETLASTCHILD: returns the last line of the block below line `w`. The block ends before the next line whose level
/// number is at most that of `l`, or of the line's own level if `l` is -1; without such a line it ends with the text.
/// Returns `None` if `l` is no level, which is refused.
pub fn get_last_child(r: &Request) -> Option<i64>
    ensures { with_argument result answer ≡ get_last_child r.now }
{
    let level = some_or_all(i32::MAX as u32, r.message.l)?;
    let Some(line) = line_among(r.line_total(), r.message.w) else {
        return Some(-1);
    };
    let level = level.unwrap_or(r.document.rows().level(line));
    Some(last_child_at(&r.levels(), line, level & fold_level::NUMBER) as i64)
}

/// GETFOLDPARENT: returns the nearest header before line `w` with a smaller level number.
pub fn get_fold_parent(r: &Request) -> i64
    ensures { answer result ≡ get_fold_parent r.now }
{
    match line_among(r.line_total(), r.message.w) {
        Some(line) => line_or_none(fold_parent(&r.levels(), line)),
        None => -1,
    }
}

/// Contracts, expands or toggles a header.
fn fold_by(r: &Request, action: usize, header: Option<usize>) -> Result<ViewPlan, Refusal>
    requires { IfSome header (λ line. line < line_total r.now) }
    ensures { view_changed result ≡ fold_by r.now action header }
{
    let Some(header) = header else {
        return leave_view(0);
    };
    if action == CONTRACT || (action == TOGGLE && r.lines().expanded(header)) {
        change_view(ViewChange::Contract { line: header })
    } else {
        change_view(ViewChange::Expand { line: header })
    }
}

/// Contracts, expands or toggles line `w` if it is a header, or else its fold parent.
#[tactic(auto, using(crate::proofs::Ranges::header_within))]
fn fold_at(r: &Request, action: usize) -> Result<ViewPlan, Refusal>
    ensures { view_changed result ≡ fold_at r.now action }
{
    match line_among(r.line_total(), r.message.w) {
        Some(line) => fold_by(r, action, fold_header(&r.levels(), line)),
        None => leave_view(0),
    }
}

/// FOLDLINE: contracts (`l` = 0), expands (1) or toggles (2) the header of line `w`.
///
/// # Errors
///
/// `BadArgument` if `l` is no action.
pub fn fold_line(r: &Request) -> Result<ViewPlan, Refusal>
    ensures { view_changed result ≡ fold_line r.now }
{
    match within(0, 2, r.message.l) {
        Some(action) => fold_at(r, action),
        None => Err(Refusal::BadArgument),
    }
}

/// TOGGLEFOLD: contracts the header of line `w`, or expands it if it is contracted.
pub fn toggle_fold(r: &Request) -> Result<ViewPlan, Refusal>
    ensures { view_changed result ≡ toggle_fold r.now }
{
    fold_at(r, TOGGLE)
}

/// VISIBLEFROMDOCLINE: returns the display line of line `w`, and for a hidden line that of the visible line before it.
#[tactic(auto, using(crate::proofs::Ranges::display_bounded))]
pub fn visible_from_doc_line(r: &Request) -> i64
    ensures { answer result ≡ visible_from_doc_line r.now }
{
    match line_among(r.line_total(), r.message.w) {
        Some(line) => r.lines().display_of(line) as i64,
        None => -1,
    }
}

/// Returns the line at a display line. Display lines below 0 are the first.
fn line_shown_at(r: &Request, argument: i64) -> usize
    ensures { result ≡ line_shown_at r.now argument }
{
    if argument <= 0 {
        0
    } else {
        r.lines().doc_of(argument as usize)
    }
}

/// DOCLINEFROMVISIBLE: returns the line at display line `w`, and the number of lines if `w` is past the last.
#[tactic(auto, using(crate::proofs::Ranges::shown_bounded))]
pub fn doc_line_from_visible(r: &Request) -> i64
    ensures { answer result ≡ doc_line_from_visible r.now }
{
    prove!(r.lines().count() == r.line_total());
    line_shown_at(r, r.message.w) as i64
}

/// Returns the line at which a range ends, exclusive, whose last line is `argument`, in a document with this many
/// lines.
fn past_line(lines: usize, argument: i64) -> usize
    requires { lines < 2 ^ 63 }
    ensures { result ≡ past_line lines argument }
{
    if argument < 0 {
        0
    } else {
        lines.min(argument as usize + 1)
    }
}

/// SHOWLINES: makes the lines from `w` to `l` visible.
pub fn show_lines(r: &Request) -> Result<ViewPlan, Refusal>
    ensures { view_changed result ≡ show_lines r.now }
{
    let lines = r.line_total();
    change_view(ViewChange::ShowLines {
        first: clamped(lines, r.message.w),
        past: past_line(lines, r.message.l),
    })
}

/// HIDELINES: hides the lines from `w` to `l` except line 0.
pub fn hide_lines(r: &Request) -> Result<ViewPlan, Refusal>
    ensures { view_changed result ≡ hide_lines r.now }
{
    let lines = r.line_total();
    change_view(ViewChange::HideLines {
        first: clamped(lines, r.message.w),
        past: past_line(lines, r.message.l),
    })
}

/// SETFOLDEXPANDED: sets whether line `w` counts as expanded.
pub fn set_fold_expanded(r: &Request) -> Result<ViewPlan, Refusal>
    ensures { view_changed result ≡ set_fold_expanded r.now }
{
    match line_among(r.line_total(), r.message.w) {
        Some(line) => change_view(ViewChange::SetExpanded {
            line,
            on: is_on(r.message.l),
        }),
        None => leave_view(0),
    }
}

/// ENSUREVISIBLE: makes line `w` visible, and expands the headers above it.
pub fn ensure_visible(r: &Request) -> Result<ViewPlan, Refusal>
    ensures { view_changed result ≡ ensure_visible r.now }
{
    match line_among(r.line_total(), r.message.w) {
        Some(line) => change_view(ViewChange::EnsureVisible { line }),
        None => leave_view(0),
    }
}

/// GETFOLDLEVEL: returns the level of line `w`.
pub fn get_fold_level(r: &Request) -> i64
    ensures { answer result ≡ get_fold_level r.now }
{
    match line_among(r.line_total(), r.message.w) {
        Some(line) => i64::from(r.document.rows().level(line)),
        None => i64::from(fold_level::BASE),
    }
}

/// GETLINEVISIBLE: returns whether line `w` is visible.
pub fn get_line_visible(r: &Request) -> i64
    ensures { answer result ≡ get_line_visible r.now }
{
    match line_among(r.line_total(), r.message.w) {
        Some(line) => flag(r.lines().visible(line)),
        None => 0,
    }
}

/// GETALLLINESVISIBLE: returns whether no line is hidden.
pub fn get_all_lines_visible(r: &Request) -> i64
    ensures { answer result ≡ get_all_lines_visible r.now }
{
    flag(r.lines().is_all_visible())
}

/// GETFOLDEXPANDED: returns whether line `w` counts as expanded.
pub fn get_fold_expanded(r: &Request) -> i64
    ensures { answer result ≡ get_fold_expanded r.now }
{
    match line_among(r.line_total(), r.message.w) {
        Some(line) => flag(r.lines().expanded(line)),
        None => 0,
    }
}
