//! Plans of the messages on styles and indicators.

ghost use Rattle.std.specs.Prelude.{◌≡◌, ◌<◌, ◌^◌};
ghost use Rattle.ed_model.specs.Requests.{answer, change_view, with_argument};
ghost use Rattle.ed_model.specs.StylePlans.{colourise, fill_indicator, get_end_styled, get_indicator_current, get_indicator_value, get_style_at, get_styled_text, indicator_all_on_for, indicator_clear_range, indicator_end, indicator_fill_range, indicator_start, indicator_value_at, run_end_at, run_past, run_start, set_indicator_current, set_indicator_value, set_styling, set_styling_ex, start_styling, styles, unstyled, values_of};
ghost use Rattle.ed_model.specs.TextPlans.{at_place};
ghost use Rattle.message_requests.specs.Changing.{changed};

use ed_model::{DocumentChange, Plan, Planned, ViewChange};
use ed_types::Refusal;
use message_requests::answers::{ChangePlan, change_document};
use message_requests::arguments::within;
use message_requests::{Request, past_argument};

/// Returns the style of the byte at a place, or 0 if the place is outside the text.
fn style_at(r: &Request, argument: i64) -> u8
    ensures { result ≡ at_place (styles r.now) argument }
{
    if argument < 0 {
        return 0;
    }
    let place = argument as usize;
    if place < r.size() {
        r.document.style(place)
    } else {
        0
    }
}

/// GETSTYLEAT: returns the style of the byte at `w`.
pub fn get_style_at(r: &Request) -> i64
    ensures { answer result ≡ get_style_at r.now }
{
    i64::from(style_at(r, r.message.w))
}

/// GETSTYLEDTEXT: returns the bytes from `w` up to `l`, each followed by its style.
pub fn get_styled_text(r: &Request) -> Planned
    ensures { result ≡ get_styled_text r.now }
{
    let Some(start) = within(0, r.size(), r.message.w) else {
        return Err(Refusal::BadArgument);
    };
    match past_argument(r, start) {
        Some(past) => Ok(Plan::HandOutStyled {
            start,
            count: past - start,
        }),
        None => Err(Refusal::BadArgument),
    }
}

/// GETENDSTYLED: returns the place up to which the text is styled.
pub fn get_end_styled(r: &Request) -> i64
    ensures { answer result ≡ get_end_styled r.now }
{
    r.end_styled() as i64
}

/// STARTSTYLING: sets the end of the styled text to `w`.
pub fn start_styling(r: &Request) -> Result<ChangePlan, Refusal>
    ensures { changed result ≡ start_styling r.now }
{
    match within(0, r.size(), r.message.w) {
        Some(place) => change_document(DocumentChange::SetEndStyled { place }),
        None => Err(Refusal::BadArgument),
    }
}

/// Returns how many bytes follow the end of the styled text.
fn unstyled(r: &Request) -> usize
    ensures { result ≡ unstyled r.now }
{
    r.size() - r.end_styled()
}

/// SETSTYLING: sets the style of the next `w` bytes to `l`.
pub fn set_styling(r: &Request) -> Result<ChangePlan, Refusal>
    ensures { changed result ≡ set_styling r.now }
{
    let Some(style) = within(0, 255, r.message.l) else {
        return Err(Refusal::BadArgument);
    };
    match within(0, unstyled(r), r.message.w) {
        Some(count) => change_document(DocumentChange::StyleRun {
            count,
            style: style as u8,
        }),
        None => Err(Refusal::BadArgument),
    }
}

/// SETSTYLINGEX: sets the styles of the next `w` bytes to those in the message's text.
pub fn set_styling_ex(r: &Request) -> Result<ChangePlan, Refusal>
    ensures { changed result ≡ set_styling_ex r.now }
{
    let Some(count) = within(0, r.message.text.len(), r.message.w) else {
        return Err(Refusal::BadArgument);
    };
    if count > unstyled(r) {
        return Err(Refusal::BadArgument);
    }
    change_document(DocumentChange::StyleBytes { count })
}

/// COLOURISE: requests styles for the text from `w` up to `l`.
pub fn colourise(r: &Request) -> Result<ChangePlan, Refusal>
    ensures { changed result ≡ colourise r.now }
{
    let Some(start) = within(0, r.size(), r.message.w) else {
        return Err(Refusal::BadArgument);
    };
    match past_argument(r, start) {
        Some(end) => change_document(DocumentChange::NeedStyle { start, end }),
        None => Err(Refusal::BadArgument),
    }
}

/// SETINDICATORCURRENT: sets the indicator that the view fills to `w`.
pub fn set_indicator_current(r: &Request) -> Option<ViewChange>
    ensures { with_argument result change_view ≡ set_indicator_current r.now }
{
    match within(0, 31, r.message.w) {
        Some(indicator) => Some(ViewChange::SetIndicator {
            indicator: indicator as u32,
        }),
        None => None,
    }
}

/// GETINDICATORCURRENT: returns the indicator that the view fills.
pub fn get_indicator_current(r: &Request) -> i64
    ensures { answer result ≡ get_indicator_current r.now }
{
    i64::from(r.view.indicator())
}

/// SETINDICATORVALUE: sets the value with which the view fills to `w`, or to 1 if `w` is 0.
pub fn set_indicator_value(r: &Request) -> Option<ViewChange>
    ensures { with_argument result change_view ≡ set_indicator_value r.now }
{
    match within(0, i32::MAX as usize, r.message.w) {
        Some(value) => Some(ViewChange::SetIndicatorValue {
            value: (value as u32).max(1),
        }),
        None => None,
    }
}

/// GETINDICATORVALUE: returns the value with which the view fills.
pub fn get_indicator_value(r: &Request) -> i64
    ensures { answer result ≡ get_indicator_value r.now }
{
    i64::from(r.view.indicator_value())
}

/// Sets the view's indicator to this value on the `l` bytes from `w` on.
fn fill_indicator(r: &Request, value: u32) -> Result<ChangePlan, Refusal>
    ensures { changed result ≡ fill_indicator r.now value }
{
    let size = r.size();
    let Some(start) = within(0, size, r.message.w) else {
        return Err(Refusal::BadArgument);
    };
    match within(0, size - start, r.message.l) {
        Some(count) => change_document(DocumentChange::FillIndicator {
            indicator: r.view.indicator() as usize,
            start,
            count,
            value,
        }),
        None => Err(Refusal::BadArgument),
    }
}

/// INDICATORFILLRANGE: fills a range with the view's value.
pub fn indicator_fill_range(r: &Request) -> Result<ChangePlan, Refusal>
    ensures { changed result ≡ indicator_fill_range r.now }
{
    fill_indicator(r, r.view.indicator_value())
}

/// INDICATORCLEARRANGE: fills a range with 0.
pub fn indicator_clear_range(r: &Request) -> Result<ChangePlan, Refusal>
    ensures { changed result ≡ indicator_clear_range r.now }
{
    fill_indicator(r, 0)
}

/// INDICATORALLONFOR: returns a mask with bit `k` for each indicator `k` that is not 0 at place `w`.
#[tactic(auto, using(crate::proofs::Runs::none_outside, crate::proofs::Runs::all_on))]
pub fn indicator_all_on_for(r: &Request) -> i64
    ensures { answer result ≡ indicator_all_on_for r.now }
{
    if r.message.w < 0 {
        return 0;
    }
    let place = r.message.w as usize;
    i64::from(r.document.indicators().mask_at(place))
}

/// Returns the value of an indicator at a place, or 0 if the place is outside the text.
fn value_at(r: &Request, indicator: usize, argument: i64) -> u32
    requires { indicator < 32 }
    ensures { result ≡ at_place (values_of r.now indicator) argument }
{
    if argument < 0 {
        return 0;
    }
    r.document.indicators().value(indicator, argument as usize)
}

/// INDICATORVALUEAT: returns the value of indicator `w` at place `l`, and `None` if there is no such indicator, which
/// is refused.
pub fn indicator_value_at(r: &Request) -> Option<i64>
    ensures { with_argument result answer ≡ indicator_value_at r.now }
{
    match within(0, 31, r.message.w) {
        Some(indicator) => Some(i64::from(value_at(r, indicator, r.message.l))),
        None => None,
    }
}

/// Returns the start and the exclusive end of the longest range around a place in which an indicator has one value;
/// both are 0 if the place is outside the text.
fn run_at(r: &Request, indicator: usize, argument: i64) -> (usize, usize)
    requires { indicator < 32 }
    ensures start { result.0 ≡ run_end_at run_start (values_of r.now indicator) argument }
    ensures past { result.1 ≡ run_end_at run_past (values_of r.now indicator) argument }
    ensures bounded { (result.0 < 2 ^ 63) × (result.1 < 2 ^ 63) }
{
    if argument < 0 {
        return (0, 0);
    }
    let place = argument as usize;
    let indicators = r.document.indicators();
    prove!(indicators.length() == r.size());
    if place < r.size() {
        indicators.run(indicator, place)
    } else {
        (0, 0)
    }
}

/// INDICATORSTART: returns the start of the range around place `l` in which indicator `w` has one value.
pub fn indicator_start(r: &Request) -> Option<i64>
    ensures { with_argument result answer ≡ indicator_start r.now }
{
    match within(0, 31, r.message.w) {
        Some(indicator) => Some(run_at(r, indicator, r.message.l).0 as i64),
        None => None,
    }
}

/// INDICATOREND: returns the exclusive end of that range.
pub fn indicator_end(r: &Request) -> Option<i64>
    ensures { with_argument result answer ≡ indicator_end r.now }
{
    match within(0, 31, r.message.w) {
        Some(indicator) => Some(run_at(r, indicator, r.message.l).1 as i64),
        None => None,
    }
}
