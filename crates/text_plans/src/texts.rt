//! Plans of the messages on text and lines.

ghost use Rattle.std.specs.Prelude.{◌≡◌, ◌≤◌, ◌<◌, ◌^◌, IfSome};
ghost use Rattle.ed_model.specs.Numbers.{within};
ghost use Rattle.ed_model.specs.Requests.{answer, end_or_size, size, text, with_argument};
ghost use Rattle.message_requests.specs.HandingOut.{handed_or_zero, handed_out};
ghost use Rattle.ed_model.specs.TextPlans.{add_text, append_text, at_place, clear_all, delete_range, get_char_at, get_cur_line, get_length, get_line, get_line_count, get_line_end_position, get_text, get_text_range, insert_text, insertion_place, line_from_position, line_length, position_after, position_before, position_from_line, set_text};

use ed_model::{Planned, Source};
use ed_types::Refusal;
use message_requests::answers::{HandedOut, bytes_between};
use message_requests::arguments::{clamped, is_minus_one, line_among, within};
use message_requests::edits::{Replacement, replace_and_go, replace_plan};
use message_requests::{Request, past_argument};

/// Returns where INSERTTEXT inserts: -1 is the caret.
fn insertion_place(r: &Request, argument: i64) -> Option<usize>
    ensures place { result ≡ insertion_place r.now argument }
    ensures within { IfSome result (λ place. place ≤ size r.now) }
{
    if is_minus_one(argument) {
        Some(r.caret())
    } else {
        within(0, r.size(), argument)
    }
}

/// INSERTTEXT: inserts the message's text at `w`.
pub fn insert_text(r: &Request) -> Planned
    ensures { result ≡ insert_text r.now }
{
    let Some(start) = insertion_place(r, r.message.w) else {
        return Err(Refusal::BadArgument);
    };
    let count = r.message.text.len();
    replace_plan(r, Replacement::insertion(start, count))
}

/// ADDTEXT: inserts the first `w` bytes of the message's text at the caret, and moves the caret behind them.
pub fn add_text(r: &Request) -> Planned
    ensures { result ≡ add_text r.now }
{
    match within(0, r.message.text.len(), r.message.w) {
        Some(count) => replace_and_go(r, Replacement::insertion(r.caret(), count)),
        None => Err(Refusal::BadArgument),
    }
}

/// APPENDTEXT: inserts the first `w` bytes of the message's text at the end.
pub fn append_text(r: &Request) -> Planned
    ensures { result ≡ append_text r.now }
{
    match within(0, r.message.text.len(), r.message.w) {
        Some(count) => replace_plan(r, Replacement::insertion(r.size(), count)),
        None => Err(Refusal::BadArgument),
    }
}

/// SETTEXT: replaces the whole text by the message's text.
pub fn set_text(r: &Request) -> Planned
    ensures { result ≡ set_text r.now }
{
    let added = r.message.text.len();
    replace_plan(
        r,
        Replacement {
            start: 0,
            count: r.size(),
            source: Source::MessageText { count: added },
            added,
        },
    )
}

/// CLEARALL: deletes the whole text.
pub fn clear_all(r: &Request) -> Planned
    ensures { result ≡ clear_all r.now }
{
    replace_plan(r, Replacement::deletion(0, r.size()))
}

/// DELETERANGE: deletes `l` bytes from `w` on.
pub fn delete_range(r: &Request) -> Planned
    ensures { result ≡ delete_range r.now }
{
    let size = r.size();
    let Some(start) = within(0, size, r.message.w) else {
        return Err(Refusal::BadArgument);
    };
    let Some(count) = within(0, size - start, r.message.l) else {
        return Err(Refusal::BadArgument);
    };
    replace_plan(r, Replacement::deletion(start, count))
}

/// GETLENGTH and GETTEXTLENGTH: returns the length of the text in bytes.
pub fn get_length(r: &Request) -> i64
    ensures { answer result ≡ get_length r.now }
{
    r.size() as i64
}

/// Returns the byte at a place, or 0 if the place is outside the text.
fn byte_at(r: &Request, argument: i64) -> u8
    ensures { result ≡ at_place (text r.now) argument }
{
    if argument < 0 {
        return 0;
    }
    let place = argument as usize;
    if place < r.size() { r.byte(place) } else { 0 }
}

/// GETCHARAT: returns the byte at `w`.
pub fn get_char_at(r: &Request) -> i64
    ensures { answer result ≡ get_char_at r.now }
{
    i64::from(byte_at(r, r.message.w))
}

/// GETTEXT: returns the whole text.
pub fn get_text(r: &Request) -> HandedOut
    ensures { handed_out result ≡ get_text r.now }
{
    bytes_between(0, r.size())
}

/// GETTEXTRANGE: returns the bytes from `w` up to `l`, and `None` if there is no such range, which is refused. `l` = -1
/// is the end of the text.
pub fn get_text_range(r: &Request) -> Option<HandedOut>
    ensures { with_argument result handed_out ≡ get_text_range r.now }
{
    let start = within(0, r.size(), r.message.w)?;
    match past_argument(r, start) {
        Some(past) => Some(bytes_between(start, past)),
        None => None,
    }
}

/// GETLINECOUNT: returns the number of lines.
pub fn get_line_count(r: &Request) -> i64
    ensures { answer result ≡ get_line_count r.now }
{
    r.line_total() as i64
}

/// GETLINE: returns the bytes of line `w` with its line end, and `None` if there is no such line; the value is 0 then.
pub fn get_line(r: &Request) -> Option<HandedOut>
    ensures { handed_or_zero result ≡ get_line r.now }
{
    match line_among(r.line_total(), r.message.w) {
        Some(line) => Some(bytes_between(r.line_start(line), r.line_past(line))),
        None => None,
    }
}

/// GETCURLINE: returns the caret's line, and the place of the caret in it.
pub fn get_cur_line(r: &Request) -> HandedOut
    ensures { handed_out result ≡ get_cur_line r.now }
{
    let caret = r.caret();
    let line = r.line_at(caret);
    let start = r.line_start(line);
    HandedOut {
        value: caret.saturating_sub(start) as i64,
        start,
        count: r.line_past(line).saturating_sub(start),
    }
}

/// LINELENGTH: returns how many bytes line `w` has, with its line end.
pub fn line_length(r: &Request) -> i64
    ensures { answer result ≡ line_length r.now }
{
    match line_among(r.line_total(), r.message.w) {
        Some(line) => r.line_past(line).saturating_sub(r.line_start(line)) as i64,
        None => 0,
    }
}

/// GETLINEENDPOSITION: returns where the line end of line `w` begins, and the end of the text for the last line and all
/// behind it.
pub fn get_line_end_position(r: &Request) -> i64
    ensures { answer result ≡ get_line_end_position r.now }
{
    if r.message.w < 0 {
        return -1;
    }
    r.line_end(r.message.w as usize) as i64
}

/// LINEFROMPOSITION: returns the line that holds `w`, clamped to the text.
pub fn line_from_position(r: &Request) -> i64
    ensures { answer result ≡ line_from_position r.now }
{
    r.line_at(clamped(r.size(), r.message.w)) as i64
}

/// POSITIONFROMLINE: returns the start of line `w`. A negative `w` means the selection's line. The line just behind the
/// last starts at the end of the text, and for lines further behind the value is -1.
pub fn position_from_line(r: &Request) -> i64
    ensures { answer result ≡ position_from_line r.now }
{
    if r.message.w < 0 {
        let line = r.line_at(r.selection_start());
        return r.line_start(line) as i64;
    }
    let line = r.message.w as usize;
    let count = r.line_total();
    if line < count {
        r.line_start(line) as i64
    } else if line == count {
        r.size() as i64
    } else {
        -1
    }
}

/// POSITIONBEFORE: returns the cut between characters before `w`, clamped to the text.
pub fn position_before(r: &Request) -> i64
    ensures { answer result ≡ position_before r.now }
{
    r.cut_before(clamped(r.size(), r.message.w)) as i64
}

/// POSITIONAFTER: returns the cut between characters behind `w`, clamped to the text.
pub fn position_after(r: &Request) -> i64
    ensures { answer result ≡ position_after r.now }
{
    r.cut_after(clamped(r.size(), r.message.w)) as i64
}
