//! Plans of the messages on line ends, markers and line states.

ghost use Rattle.std.specs.Prelude.{◌≡◌, ◌≤◌, ◌<◌, ◌^◌, length, IfSome};
ghost use Rattle.ed_model.specs.Requests.{answer};
ghost use Rattle.ed_model.specs.LinePlans.{convert_eols, get_eol_mode, get_line_state, has_handles, line_end_kind, line_end_number, line_of_handle, marker_add, marker_add_set, marker_delete, marker_delete_all, marker_delete_handle, marker_get, marker_line_from_handle, marker_next, marker_previous, numbers_in, set_eol_mode, set_line_state};
ghost use Rattle.message_requests.specs.Changing.{changed};

use document::count_numbers;
use ed_model::{DocumentChange, LineEnd, Planned};
use ed_types::Refusal;
use message_requests::Request;
use message_requests::answers::{ChangePlan, change_document, change_nothing, line_or_none};
use message_requests::arguments::{at_least_zero, line_among, low_bits, some_or_all, within};
use message_requests::edits::conversion_plan;

/// Returns the number of a kind of line end.
fn line_end_number(kind: LineEnd) -> usize
    ensures { result ≡ line_end_number kind }
{
    match kind {
        LineEnd::CrLf => 0,
        LineEnd::Cr => 1,
        LineEnd::Lf => 2,
    }
}

/// Returns the kind of line end with this number.
fn line_end_kind(mode: usize) -> LineEnd
    ensures { result ≡ line_end_kind mode }
{
    if mode == 0 {
        LineEnd::CrLf
    } else if mode == 1 {
        LineEnd::Cr
    } else {
        LineEnd::Lf
    }
}

/// GETEOLMODE: returns the line end that typing inserts.
pub fn get_eol_mode(r: &Request) -> i64
    ensures { answer result ≡ get_eol_mode r.now }
{
    line_end_number(r.document.typed_line_end()) as i64
}

/// SETEOLMODE: sets the line end that typing inserts.
pub fn set_eol_mode(r: &Request) -> Result<ChangePlan, Refusal>
    ensures { changed result ≡ set_eol_mode r.now }
{
    match within(0, 2, r.message.w) {
        Some(mode) => change_document(DocumentChange::SetLineEnd {
            to: line_end_kind(mode),
        }),
        None => Err(Refusal::BadArgument),
    }
}

/// CONVERTEOLS: converts all line ends of the text to the kind `w`.
pub fn convert_eols(r: &Request) -> Planned
    ensures { result ≡ convert_eols r.now }
{
    match within(0, 2, r.message.w) {
        Some(mode) => conversion_plan(r, line_end_kind(mode)),
        None => Err(Refusal::BadArgument),
    }
}

/// Returns whether this many marker handles are left.
fn has_handles(r: &Request, count: u32) -> bool
    ensures { result ≡ has_handles r.now count }
{
    let next = u64::from(r.document.rows().next_handle()) + u64::from(count);
    next.saturating_sub(1) <= r.session.limits.handles
}

/// MARKERADD: adds a marker with number `l` to line `w`. The value is its handle.
pub fn marker_add(r: &Request) -> Result<ChangePlan, Refusal>
    ensures { changed result ≡ marker_add r.now }
{
    let Some(number) = within(0, 31, r.message.l) else {
        return Err(Refusal::BadArgument);
    };
    let Some(line) = line_among(r.line_total(), r.message.w) else {
        return change_nothing(-1);
    };
    if !has_handles(r, 1) {
        return Err(Refusal::TooMany);
    }
    Ok(ChangePlan {
        change: Some(DocumentChange::AddMarker {
            line,
            number: number as u32,
        }),
        value: i64::from(r.document.rows().next_handle()),
    })
}

/// Returns whether a handle is left for each number of a mask.
fn has_handles_for(r: &Request, mask: u32) -> bool
    ensures { result ≡ has_handles r.now (length (numbers_in mask)) }
{
    has_handles(r, count_numbers(mask) as u32)
}

/// MARKERADDSET: adds a marker to line `w` for each bit of `l`.
pub fn marker_add_set(r: &Request) -> Result<ChangePlan, Refusal>
    ensures { changed result ≡ marker_add_set r.now }
{
    let Some(mask) = within(0, u32::MAX as usize, r.message.l) else {
        return Err(Refusal::BadArgument);
    };
    let Some(line) = line_among(r.line_total(), r.message.w) else {
        return change_nothing(0);
    };
    let mask = mask as u32;
    if has_handles_for(r, mask) {
        change_document(DocumentChange::AddMarkers { line, mask })
    } else {
        Err(Refusal::TooMany)
    }
}

/// MARKERDELETE: deletes the first marker with number `l` on line `w`, or all markers of the line if `l` is -1.
pub fn marker_delete(r: &Request) -> Result<ChangePlan, Refusal>
    ensures { changed result ≡ marker_delete r.now }
{
    let Some(number) = some_or_all(31, r.message.l) else {
        return Err(Refusal::BadArgument);
    };
    match line_among(r.line_total(), r.message.w) {
        Some(line) => change_document(DocumentChange::DeleteMarker { line, number }),
        None => change_nothing(0),
    }
}

/// MARKERDELETEALL: deletes all markers with number `w`, or all markers if `w` is -1.
pub fn marker_delete_all(r: &Request) -> Result<ChangePlan, Refusal>
    ensures { changed result ≡ marker_delete_all r.now }
{
    match some_or_all(31, r.message.w) {
        Some(number) => change_document(DocumentChange::DeleteMarkers { number }),
        None => Err(Refusal::BadArgument),
    }
}

/// MARKERGET: returns the mask of line `w`, with a bit for the number of each of its markers.
pub fn marker_get(r: &Request) -> i64
    ensures { answer result ≡ marker_get r.now }
{
    match line_among(r.line_total(), r.message.w) {
        Some(line) => i64::from(r.document.rows().mask(line)),
        None => 0,
    }
}

/// MARKERNEXT: returns the first line from `w` on whose mask has a bit in common with the low 32 bits of `l`.
#[tactic(auto, using(crate::proofs::Ranges::next_bounded))]
pub fn marker_next(r: &Request) -> i64
    ensures { answer result ≡ marker_next r.now }
{
    let from = at_least_zero(r.message.w);
    line_or_none(r.rows().next(from, low_bits(r.message.l)))
}

/// MARKERPREVIOUS: returns the last such line up to `w`, inclusive.
#[tactic(auto, using(crate::proofs::Ranges::previous_bounded))]
pub fn marker_previous(r: &Request) -> i64
    ensures { answer result ≡ marker_previous r.now }
{
    if r.message.w < 0 {
        return -1;
    }
    let from = r.message.w as usize;
    line_or_none(r.rows().previous(from, low_bits(r.message.l)))
}

/// Returns the line of the marker with the handle `w`.
#[tactic(auto, using(crate::proofs::Handles::no_handle, crate::proofs::Ranges::next_bounded))]
fn line_of_handle(r: &Request) -> Option<usize>
    ensures line { result ≡ line_of_handle r.now }
    ensures bounded { IfSome result (λ line. line < 2 ^ 63) }
{
    let rows = r.rows();
    // Every handle is below the next one.
    let handle = within(0, rows.next_handle() as usize, r.message.w)?;
    rows.line_of_handle(handle as u32)
}

/// MARKERLINEFROMHANDLE: returns the line of the marker with handle `w`.
pub fn marker_line_from_handle(r: &Request) -> i64
    ensures { answer result ≡ marker_line_from_handle r.now }
{
    line_or_none(line_of_handle(r))
}

/// MARKERDELETEHANDLE: deletes the marker with handle `w`.
pub fn marker_delete_handle(r: &Request) -> Result<ChangePlan, Refusal>
    ensures { changed result ≡ marker_delete_handle r.now }
{
    let handle = at_least_zero(r.message.w) as u64;
    match line_of_handle(r) {
        Some(_) => change_document(DocumentChange::DeleteHandle { handle }),
        None => change_nothing(0),
    }
}

/// SETLINESTATE: sets the state of line `w` to `l`, a number of 32 bits. A state that the line has already is no change.
///
/// # Errors
///
/// `BadArgument` if `l` is no number of 32 bits.
#[tactic(auto, using(ed_model::specs::proved::Numbers::same_states))]
pub fn set_line_state(r: &Request) -> Result<ChangePlan, Refusal>
    ensures { changed result ≡ set_line_state r.now }
{
    let Ok(state) = i32::try_from(r.message.l) else {
        return Err(Refusal::BadArgument);
    };
    let Some(line) = line_among(r.line_total(), r.message.w) else {
        return change_nothing(0);
    };
    if r.document.rows().state(line) == state {
        return change_nothing(0);
    }
    change_document(DocumentChange::SetState { line, state })
}

/// GETLINESTATE: returns the state of line `w`.
pub fn get_line_state(r: &Request) -> i64
    ensures { answer result ≡ get_line_state r.now }
{
    match line_among(r.line_total(), r.message.w) {
        Some(line) => i64::from(r.document.rows().state(line)),
        None => 0,
    }
}
