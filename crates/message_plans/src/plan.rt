//! The plan of each message.

ghost use Rattle.std.specs.Prelude.{◌≡◌};
ghost use Rattle.ed_model.specs.Table.{plan_of};

use crate::settings::{plan_of_change, plan_of_view_change};
use ed_model::Planned;
use ed_types::Kind;
use message_requests::Request;
use message_requests::answers::{answer, answer_some, hand_out, hand_out_or_zero, hand_out_some};
use state_plans::{folding_plans, line_plans, session_plans, style_plans, undo_plans};
use text_plans::{key_plans, selection_plans, target_plans, texts};

/// Returns the plan of a message: what it is going to do. Allocates nothing, and changes nothing.
///
/// # Errors
///
/// The first refusal that applies to the message, by the model's table.
pub fn plan_of(kind: Kind, r: &Request) -> Planned
    ensures { result ≡ plan_of kind r.now }
{
    match kind {
        Kind::InsertText => texts::insert_text(r),
        Kind::DeleteRange => texts::delete_range(r),
        Kind::GetLength | Kind::GetTextLength => answer(texts::get_length(r)),
        Kind::GetCharAt => answer(texts::get_char_at(r)),
        Kind::GetText => hand_out(texts::get_text(r)),
        Kind::GetTextRange => hand_out_some(texts::get_text_range(r)),
        Kind::GetLineCount => answer(texts::get_line_count(r)),
        Kind::GetLine => hand_out_or_zero(texts::get_line(r)),
        Kind::GetCurLine => hand_out(texts::get_cur_line(r)),
        Kind::LineLength => answer(texts::line_length(r)),
        Kind::GetLineEndPosition => answer(texts::get_line_end_position(r)),
        Kind::LineFromPosition => answer(texts::line_from_position(r)),
        Kind::PositionFromLine => answer(texts::position_from_line(r)),
        Kind::AddText => texts::add_text(r),
        Kind::AppendText => texts::append_text(r),
        Kind::SetText => texts::set_text(r),
        Kind::ClearAll => texts::clear_all(r),
        Kind::PositionBefore => answer(texts::position_before(r)),
        Kind::PositionAfter => answer(texts::position_after(r)),
        Kind::GetUndoCollection => answer(undo_plans::get_undo_collection(r)),
        Kind::Undo => undo_plans::undo(r),
        Kind::Redo => undo_plans::redo(r),
        Kind::CanUndo => answer(undo_plans::get_can_undo(r)),
        Kind::CanRedo => answer(undo_plans::get_can_redo(r)),
        Kind::GetReadOnly => answer(undo_plans::get_read_only(r)),
        Kind::GetModify => answer(undo_plans::get_modify(r)),
        Kind::GetCurrentPos => answer(selection_plans::get_current_pos(r)),
        Kind::GetAnchor => answer(selection_plans::get_anchor(r)),
        Kind::GetSelectionStart => answer(selection_plans::get_selection_start(r)),
        Kind::GetSelectionEnd => answer(selection_plans::get_selection_end(r)),
        Kind::GetSelectionEmpty => answer(selection_plans::get_selection_empty(r)),
        Kind::GetSelText => hand_out(selection_plans::get_sel_text(r)),
        Kind::ReplaceSel => selection_plans::replace_sel(r),
        Kind::CanPaste => answer(selection_plans::can_paste(r)),
        Kind::Cut => selection_plans::cut(r),
        Kind::Copy => selection_plans::copy(r),
        Kind::CopyRange => selection_plans::copy_range(r),
        Kind::CopyText => selection_plans::copy_text(r),
        Kind::GetPasteConvertEndings => answer(selection_plans::get_paste_convert_endings(r)),
        Kind::Clear => selection_plans::clear(r),
        Kind::DeleteBack => key_plans::delete_back(r),
        Kind::NewLine => key_plans::new_line(r),
        Kind::GetTargetStart => answer(target_plans::get_target_start(r)),
        Kind::GetTargetEnd => answer(target_plans::get_target_end(r)),
        Kind::GetTargetText => hand_out(target_plans::get_target_text(r)),
        Kind::ReplaceTarget => target_plans::replace_target(r),
        Kind::GetSearchFlags => answer(target_plans::get_search_flags(r)),
        Kind::GetDocPointer => answer(session_plans::get_doc_pointer(r)),
        Kind::GetDocumentOptions => answer(session_plans::get_document_options(r)),
        Kind::GetLineEndTypesAllowed | Kind::GetLineEndTypesActive => {
            answer(session_plans::get_line_end_types(r))
        }
        Kind::GetModEventMask => answer(session_plans::get_mod_event_mask(r)),
        Kind::GetStyledText => style_plans::get_styled_text(r),
        Kind::GetEndStyled => answer(style_plans::get_end_styled(r)),
        Kind::GetIndicatorCurrent => answer(style_plans::get_indicator_current(r)),
        Kind::GetIndicatorValue => answer(style_plans::get_indicator_value(r)),
        Kind::GetEolMode => answer(line_plans::get_eol_mode(r)),
        Kind::GetLineState => answer(line_plans::get_line_state(r)),
        Kind::GetFoldLevel => answer(folding_plans::get_fold_level(r)),
        Kind::GetLineVisible => answer(folding_plans::get_line_visible(r)),
        Kind::GetAllLinesVisible => answer(folding_plans::get_all_lines_visible(r)),
        Kind::GetFoldExpanded => answer(folding_plans::get_fold_expanded(r)),
        Kind::GetStyleAt => answer(style_plans::get_style_at(r)),
        Kind::MarkerGet => answer(line_plans::marker_get(r)),
        Kind::MarkerNext => answer(line_plans::marker_next(r)),
        Kind::MarkerPrevious => answer(line_plans::marker_previous(r)),
        Kind::MarkerLineFromHandle => answer(line_plans::marker_line_from_handle(r)),
        Kind::GetLastChild => answer_some(folding_plans::get_last_child(r)),
        Kind::GetFoldParent => answer(folding_plans::get_fold_parent(r)),
        Kind::VisibleFromDocLine => answer(folding_plans::visible_from_doc_line(r)),
        Kind::DocLineFromVisible => answer(folding_plans::doc_line_from_visible(r)),
        Kind::IndicatorAllOnFor => answer(style_plans::indicator_all_on_for(r)),
        Kind::IndicatorValueAt => answer_some(style_plans::indicator_value_at(r)),
        Kind::IndicatorStart => answer_some(style_plans::indicator_start(r)),
        Kind::IndicatorEnd => answer_some(style_plans::indicator_end(r)),
        Kind::SetDocPointer => session_plans::set_doc_pointer(r),
        Kind::CreateDocument => session_plans::create_document(r),
        Kind::AddRefDocument => session_plans::add_ref_document(r),
        Kind::ReleaseDocument => session_plans::release_document(r),
        Kind::ConvertEols => line_plans::convert_eols(r),
        Kind::Paste => selection_plans::paste(r),
        // In two arms, since the prover tries no more kinds at once.
        Kind::SelectAll
        | Kind::GotoLine
        | Kind::GotoPos
        | Kind::SetEmptySelection
        | Kind::SetAnchor
        | Kind::SetCurrentPos
        | Kind::SetSelectionStart
        | Kind::SetSelectionEnd
        | Kind::SetSel
        | Kind::CharLeft
        | Kind::CharLeftExtend
        | Kind::CharRight
        | Kind::CharRightExtend
        | Kind::Home
        | Kind::HomeExtend
        | Kind::LineEnd
        | Kind::LineEndExtend
        | Kind::DocumentStart
        | Kind::DocumentStartExtend
        | Kind::DocumentEnd
        | Kind::DocumentEndExtend => plan_of_view_change(kind, r),
        Kind::SetTargetStart
        | Kind::SetTargetEnd
        | Kind::SearchInTarget
        | Kind::SetSearchFlags
        | Kind::ShowLines
        | Kind::HideLines
        | Kind::SetFoldExpanded
        | Kind::ToggleFold
        | Kind::EnsureVisible
        | Kind::FoldLine
        | Kind::TargetFromSelection
        | Kind::SetModEventMask
        | Kind::SetPasteConvertEndings
        | Kind::SetIndicatorCurrent
        | Kind::SetIndicatorValue
        | Kind::SetTargetRange
        | Kind::TargetWholeDocument
        | Kind::StartRecord
        | Kind::StopRecord => plan_of_view_change(kind, r),
        Kind::SetUndoCollection
        | Kind::SetSavePoint
        | Kind::MarkerDeleteHandle
        | Kind::SetEolMode
        | Kind::StartStyling
        | Kind::SetStyling
        | Kind::MarkerAdd
        | Kind::MarkerDelete
        | Kind::MarkerDeleteAll
        | Kind::SetStylingEx
        | Kind::BeginUndoAction
        | Kind::EndUndoAction
        | Kind::SetLineState
        | Kind::SetReadOnly
        | Kind::EmptyUndoBuffer
        | Kind::SetFoldLevel
        | Kind::MarkerAddSet
        | Kind::IndicatorFillRange
        | Kind::IndicatorClearRange
        | Kind::AddUndoAction
        | Kind::SetLineEndTypesAllowed
        | Kind::Colourise => plan_of_change(kind, r),
    }
}
