//! Changes of the view alone, and changes of the document other than edits of its text. They are found by their number, and made without the plan of
//! any message. Each has its planner in one match, which serves the plan as well.

ghost use Rattle.std.specs.Prelude.{◌≡◌, true, is_some, IfSome};
ghost use Rattle.ed_model.specs.Table.{plan_of};
ghost use Rattle.message_requests.specs.Changing.{changed, changing, view_changed, view_changing};
ghost use Rattle.message_plans.specs.Settings.{document_change_asked, is_document_change, is_view_change, view_change_asked};

use ed_model::Planned;
use ed_types::{Kind, Refusal};
use message_requests::Request;
use message_requests::answers::{
    ChangePlan, ViewPlan, change_view, change_view_some, plan_change, plan_view_change,
};
use state_plans::{folding_plans, line_plans, session_plans, style_plans, undo_plans};
use text_plans::{key_plans, selection_plans, target_plans};

/// Returns what a message changes in its view, if it makes no other change, and the value that it answers, or its refusal. `None` for all other
/// messages. Inlined into its two callers, as `planned_document_change` is.
#[inline(always)]
fn planned_view_change(kind: Kind, r: &Request) -> Option<Result<ViewPlan, Refusal>>
    ensures which { is_some result ≡ is_view_change kind }
    ensures planned { IfSome result (λ planned. view_changed planned ≡ plan_of kind r.now) }
{
    match kind {
        Kind::GotoLine => Some(change_view(selection_plans::go_to_line(r))),
        Kind::GotoPos | Kind::SetEmptySelection => Some(change_view(selection_plans::go_to_pos(r))),
        Kind::SelectAll => Some(change_view(selection_plans::select_all(r))),
        Kind::SetAnchor => Some(change_view(selection_plans::set_anchor(r))),
        Kind::SetCurrentPos => Some(change_view(selection_plans::set_current_pos(r))),
        Kind::SetSelectionStart => Some(change_view(selection_plans::set_selection_start(r))),
        Kind::SetSelectionEnd => Some(change_view(selection_plans::set_selection_end(r))),
        Kind::SetSel => Some(change_view(selection_plans::set_sel(r))),
        Kind::CharLeft => Some(change_view(key_plans::char_left(r))),
        Kind::CharLeftExtend => Some(change_view(key_plans::extend_to(
            r,
            key_plans::place_left(r),
        ))),
        Kind::CharRight => Some(change_view(key_plans::char_right(r))),
        Kind::CharRightExtend => Some(change_view(key_plans::extend_to(
            r,
            key_plans::place_right(r),
        ))),
        Kind::Home => Some(change_view(selection_plans::go_to(key_plans::place_home(r)))),
        Kind::HomeExtend => Some(change_view(key_plans::extend_to(r, key_plans::place_home(r)))),
        Kind::LineEnd => Some(change_view(selection_plans::go_to(key_plans::place_line_end(r)))),
        Kind::LineEndExtend => Some(change_view(key_plans::extend_to(
            r,
            key_plans::place_line_end(r),
        ))),
        Kind::DocumentStart => Some(change_view(selection_plans::go_to(0))),
        Kind::DocumentStartExtend => Some(change_view(key_plans::extend_to(r, 0))),
        Kind::DocumentEnd => Some(change_view(selection_plans::go_to(r.size()))),
        Kind::DocumentEndExtend => Some(change_view(key_plans::extend_to(r, r.size()))),
        Kind::SetTargetStart => Some(change_view(target_plans::set_target_start(r))),
        Kind::SetTargetEnd => Some(change_view(target_plans::set_target_end(r))),
        Kind::SetTargetRange => Some(change_view(target_plans::set_target_range(r))),
        Kind::TargetFromSelection => Some(change_view(target_plans::target_from_selection(r))),
        Kind::TargetWholeDocument => Some(change_view(target_plans::target_whole_document(r))),
        Kind::SetSearchFlags => Some(change_view_some(target_plans::set_search_flags(r))),
        Kind::SetIndicatorCurrent => Some(change_view_some(style_plans::set_indicator_current(r))),
        Kind::SetIndicatorValue => Some(change_view_some(style_plans::set_indicator_value(r))),
        Kind::SetPasteConvertEndings => Some(change_view(selection_plans::set_paste_convert_endings(
            r,
        ))),
        Kind::SetModEventMask => Some(change_view_some(session_plans::set_mod_event_mask(r))),
        Kind::StartRecord => Some(change_view(session_plans::set_recording(true))),
        Kind::StopRecord => Some(change_view(session_plans::set_recording(false))),
        Kind::SearchInTarget => Some(target_plans::search_in_target(r)),
        Kind::ShowLines => Some(folding_plans::show_lines(r)),
        Kind::HideLines => Some(folding_plans::hide_lines(r)),
        Kind::SetFoldExpanded => Some(folding_plans::set_fold_expanded(r)),
        Kind::ToggleFold => Some(folding_plans::toggle_fold(r)),
        Kind::EnsureVisible => Some(folding_plans::ensure_visible(r)),
        Kind::FoldLine => Some(folding_plans::fold_line(r)),
        _ => None,
    }
}

/// Returns what a message changes in its view, if it makes no other change, and the value that it answers. `None` for all other messages, and if
/// the message is refused.
pub fn view_change_of(kind: Kind, r: &Request) -> Option<ViewPlan>
    ensures change { result ≡ view_change_asked kind r.now }
    ensures planned { IfSome result (λ it. plan_of kind r.now ≡ view_changing it) }
{
    match planned_view_change(kind, r)? {
        Ok(plan) => Some(plan),
        Err(_) => None,
    }
}

/// Returns the plan of a change of the view. Out of line, as `plan_of_change` is.
///
/// # Errors
///
/// Those of `plan_of`.
#[inline(never)]
pub(crate) fn plan_of_view_change(kind: Kind, r: &Request) -> Planned
    requires { is_view_change kind ≡ true }
    ensures { result ≡ plan_of kind r.now }
{
    match planned_view_change(kind, r) {
        Some(planned) => plan_view_change(planned),
        None => unreachable!(),
    }
}

/// Returns what a message changes in its document, if it makes no other change, and the value that it answers, or its refusal. `None` for all other
/// messages. Inlined into its two callers: as a call, it costs each of these messages its answer of 72 bytes.
#[inline(always)]
fn planned_document_change(kind: Kind, r: &Request) -> Option<Result<ChangePlan, Refusal>>
    ensures which { is_some result ≡ is_document_change kind }
    ensures planned { IfSome result (λ planned. changed planned ≡ plan_of kind r.now) }
{
    match kind {
        Kind::SetUndoCollection => Some(undo_plans::set_undo_collection(r)),
        Kind::SetSavePoint => Some(undo_plans::set_save_point(r)),
        Kind::MarkerDeleteHandle => Some(line_plans::marker_delete_handle(r)),
        Kind::SetEolMode => Some(line_plans::set_eol_mode(r)),
        Kind::StartStyling => Some(style_plans::start_styling(r)),
        Kind::SetStyling => Some(style_plans::set_styling(r)),
        Kind::MarkerAdd => Some(line_plans::marker_add(r)),
        Kind::MarkerDelete => Some(line_plans::marker_delete(r)),
        Kind::MarkerDeleteAll => Some(line_plans::marker_delete_all(r)),
        Kind::SetStylingEx => Some(style_plans::set_styling_ex(r)),
        Kind::BeginUndoAction => Some(undo_plans::begin_undo_action(r)),
        Kind::EndUndoAction => Some(undo_plans::end_undo_action(r)),
        Kind::SetLineState => Some(line_plans::set_line_state(r)),
        Kind::SetReadOnly => Some(undo_plans::set_read_only(r)),
        Kind::EmptyUndoBuffer => Some(undo_plans::empty_undo_buffer(r)),
        Kind::SetFoldLevel => Some(folding_plans::set_fold_level(r)),
        Kind::MarkerAddSet => Some(line_plans::marker_add_set(r)),
        Kind::IndicatorFillRange => Some(style_plans::indicator_fill_range(r)),
        Kind::IndicatorClearRange => Some(style_plans::indicator_clear_range(r)),
        Kind::AddUndoAction => Some(undo_plans::add_undo_action(r)),
        Kind::SetLineEndTypesAllowed => Some(session_plans::set_line_end_types_allowed(r)),
        Kind::Colourise => Some(style_plans::colourise(r)),
        _ => None,
    }
}

/// Returns what a message changes in its document, if it makes no other change, and the value that it answers. `None` for all other messages, and
/// if the message is refused.
pub fn document_change_of(kind: Kind, r: &Request) -> Option<ChangePlan>
    ensures change { result ≡ document_change_asked kind r.now }
    ensures planned { IfSome result (λ it. plan_of kind r.now ≡ changing it) }
{
    match planned_document_change(kind, r)? {
        Ok(plan) => Some(plan),
        Err(_) => None,
    }
}

/// Returns the plan of a change of the document. Out of line: in one function with all other plans, a byte typed takes 79 instructions more.
///
/// # Errors
///
/// Those of `plan_of`.
#[inline(never)]
pub(crate) fn plan_of_change(kind: Kind, r: &Request) -> Planned
    requires { is_document_change kind ≡ true }
    ensures { result ≡ plan_of kind r.now }
{
    match planned_document_change(kind, r) {
        Some(planned) => plan_change(planned),
        None => unreachable!(),
    }
}
