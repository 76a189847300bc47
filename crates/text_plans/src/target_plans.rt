//! Plans of the messages on the target.

ghost use Rattle.std.specs.Prelude.{◌≡◌, ◌≤◌, ◌<◌, ◌+◌, ◌^◌, length, IfSome};
ghost use Rattle.message_requests.specs.HandingOut.{handed_out};
ghost use Rattle.ed_model.specs.Requests.{answer, change_view, with_argument};
ghost use Rattle.ed_model.specs.TargetPlans.{found_target, get_search_flags, get_target_end, get_target_start, get_target_text, replace_target, replacement_length, search_flags, search_in_target, set_search_flags, set_target, set_target_end, set_target_range, set_target_start, target_from_selection, target_whole_document};
ghost use Rattle.message_requests.specs.Changing.{view_changed};
ghost use Rattle.text_plans.specs.Finding.{match_in_target};

use ed_model::{Follow, Plan, Planned, Source, ViewChange};
use ed_types::Refusal;
use message_requests::Request;
use message_requests::answers::{HandedOut, ViewPlan, bytes_between, leave_view};
use message_requests::arguments::{clamped, is_minus_one, within};
use message_requests::edits::{Replacement, edit_plan};
use target_search::SearchFlags;

// All flags that a search may have.
const SEARCH_FLAGS: u32 = SearchFlags::WHOLE_WORD
    | SearchFlags::MATCH_CASE
    | SearchFlags::WORD_START;

/// Sets the target to these ends.
fn set_target(start: usize, end: usize) -> ViewChange
    ensures { change_view result ≡ set_target start end }
{
    ViewChange::SetTarget { start, end }
}

/// SETTARGETSTART: sets the start of the target to `w`, clamped to the text.
pub fn set_target_start(r: &Request) -> ViewChange
    ensures { change_view result ≡ set_target_start r.now }
{
    set_target(clamped(r.size(), r.message.w), r.view.target().end)
}

/// SETTARGETEND: sets the end of the target to `w`, clamped to the text.
pub fn set_target_end(r: &Request) -> ViewChange
    ensures { change_view result ≡ set_target_end r.now }
{
    set_target(r.view.target().start, clamped(r.size(), r.message.w))
}

/// SETTARGETRANGE: sets the target to the range from `w` to `l`, both clamped to the text.
pub fn set_target_range(r: &Request) -> ViewChange
    ensures { change_view result ≡ set_target_range r.now }
{
    let size = r.size();
    set_target(clamped(size, r.message.w), clamped(size, r.message.l))
}

/// GETTARGETSTART: returns the start of the target, in bytes from 0.
pub fn get_target_start(r: &Request) -> i64
    ensures { answer result ≡ get_target_start r.now }
{
    r.target_start() as i64
}

/// GETTARGETEND: returns the end of the target, in bytes from 0.
pub fn get_target_end(r: &Request) -> i64
    ensures { answer result ≡ get_target_end r.now }
{
    r.target_end() as i64
}

/// TARGETFROMSELECTION: sets the target to the selection.
pub fn target_from_selection(r: &Request) -> ViewChange
    ensures { change_view result ≡ target_from_selection r.now }
{
    set_target(r.selection_start(), r.selection_end())
}

/// TARGETWHOLEDOCUMENT: sets the target to the whole text.
pub fn target_whole_document(r: &Request) -> ViewChange
    ensures { change_view result ≡ target_whole_document r.now }
{
    set_target(0, r.size())
}

/// GETTARGETTEXT: returns the bytes of the target.
pub fn get_target_text(r: &Request) -> HandedOut
    ensures { handed_out result ≡ get_target_text r.now }
{
    bytes_between(r.target_least(), r.target_greatest())
}

/// Returns the argument as flags of a search, or `None` if it has others than whole word, match case and word start.
#[tactic(auto, using(crate::proofs::Searching::flags_among))]
fn search_flags(argument: i64) -> Option<u32>
    ensures { result ≡ search_flags argument }
{
    let flags = within(0, SEARCH_FLAGS as usize, argument)? as u32;
    if flags & SEARCH_FLAGS == flags {
        Some(flags)
    } else {
        None
    }
}

/// SETSEARCHFLAGS: sets how the target is searched.
pub fn set_search_flags(r: &Request) -> Option<ViewChange>
    ensures { with_argument result change_view ≡ set_search_flags r.now }
{
    match search_flags(r.message.w) {
        Some(flags) => Some(ViewChange::SetSearchFlags { flags }),
        None => None,
    }
}

/// Returns the place of a pattern in the target, by the flags of the view.
#[tactic(auto, using(message_requests::specs::proved::Standing::length_text))]
fn find_in_target(r: &Request, pattern: &[u8]) -> Option<usize>
    ensures place { result ≡ match_in_target r.now pattern.now }
    ensures bounded { IfSome result (λ place. place + length pattern.now < 2 ^ 62) }
{
    let (first, second) = r.document.halves();
    let flags = SearchFlags::new(r.view.search_flags());
    let (start, end) = (r.target_start(), r.target_end());
    target_search::find(flags, first, second, pattern, start, end)
}

/// Returns a match of `count` bytes, if there is one.
fn found_target(count: usize, place: Option<usize>) -> Result<ViewPlan, Refusal>
    requires { IfSome place (λ place. place + count < 2 ^ 63) }
    ensures { view_changed result ≡ found_target count place }
{
    match place {
        Some(start) => Ok(ViewPlan {
            change: Some(set_target(start, start + count)),
            value: start as i64,
        }),
        None => leave_view(-1),
    }
}

/// SEARCHINTARGET: searches for the first `w` bytes of the message's text in the target, and sets the target to the
/// match.
///
/// # Errors
///
/// `BadArgument` if the text has fewer bytes.
pub fn search_in_target(r: &Request) -> Result<ViewPlan, Refusal>
    ensures { view_changed result ≡ search_in_target r.now }
{
    let Some(count) = within(0, r.message.text.len(), r.message.w) else {
        return Err(Refusal::BadArgument);
    };
    found_target(count, find_in_target(r, &r.message.text[..count]))
}

/// GETSEARCHFLAGS: returns how the target is searched.
pub fn get_search_flags(r: &Request) -> i64
    ensures { answer result ≡ get_search_flags r.now }
{
    i64::from(r.view.search_flags())
}

/// Returns how many bytes of a text of `size` bytes replace the target: all of them for -1.
fn replacement_length(size: usize, argument: i64) -> Option<usize>
    ensures length { result ≡ replacement_length size argument }
    ensures within { IfSome result (λ count. count ≤ size) }
{
    if is_minus_one(argument) {
        Some(size)
    } else {
        within(0, size, argument)
    }
}

/// REPLACETARGET: replaces the target by the first `w` bytes of the message's text, which become the target.
pub fn replace_target(r: &Request) -> Planned
    ensures { result ≡ replace_target r.now }
{
    let Some(count) = replacement_length(r.message.text.len(), r.message.w) else {
        return Err(Refusal::BadArgument);
    };
    let start = r.target_least();
    let replacement = Replacement {
        start,
        count: r.target_greatest() - start,
        source: Source::MessageText { count },
        added: count,
    };
    let end = start + count;
    edit_plan(r, replacement, count as i64, Follow::Target { start, end })
}
