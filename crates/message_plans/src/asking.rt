//! Numeric queries, which are answered by a number, and text queries, which are answered by bytes of the document. Both are found by their
//! number, and answered without a plan.

ghost use Rattle.std.specs.Prelude.{◌≡◌, Some};
ghost use Rattle.ed_types.specs.Messages.{kind_of, number_of};
ghost use Rattle.message_plans.specs.Asking.{handed_asked, question_of, text_question_of, value_asked};
ghost use Rattle.message_plans.specs.Settings.{document_change_at, view_change_at};
ghost use Rattle.message_plans.specs.Ways.{document_change_in, kind_in, question_in, text_question_in, view_change_in};

use crate::way::Way;
use ed_types::{Kind, kinds_and_numbers};
use message_requests::Request;
use message_requests::answers::HandedOut;
use state_plans::{folding_plans, line_plans, session_plans, style_plans, undo_plans};
use text_plans::{selection_plans, target_plans, texts};

// Returns how a session answers a message of this kind. Inlined into the one match over numbers.
#[inline(always)]
fn way_for(kind: Kind) -> Way
    ensures kind { kind_in result ≡ Some kind }
    ensures question { question_in result ≡ question_of (number_of kind) }
    ensures text_question { text_question_in result ≡ text_question_of (number_of kind) }
    ensures view_change { view_change_in result ≡ view_change_at (number_of kind) }
    ensures document_change { document_change_in result ≡ document_change_at (number_of kind) }
{
    match kind {
        Kind::GetLength => Way::Question(kind),
        Kind::GetCharAt => Way::Question(kind),
        Kind::GetCurrentPos => Way::Question(kind),
        Kind::GetAnchor => Way::Question(kind),
        Kind::GetStyleAt => Way::Question(kind),
        Kind::CanRedo => Way::Question(kind),
        Kind::MarkerLineFromHandle => Way::Question(kind),
        Kind::GetUndoCollection => Way::Question(kind),
        Kind::GetEndStyled => Way::Question(kind),
        Kind::GetEolMode => Way::Question(kind),
        Kind::MarkerGet => Way::Question(kind),
        Kind::MarkerNext => Way::Question(kind),
        Kind::MarkerPrevious => Way::Question(kind),
        Kind::GetLineState => Way::Question(kind),
        Kind::GetLineEndPosition => Way::Question(kind),
        Kind::GetReadOnly => Way::Question(kind),
        Kind::GetSelectionStart => Way::Question(kind),
        Kind::GetSelectionEnd => Way::Question(kind),
        Kind::GetLineCount => Way::Question(kind),
        Kind::GetModify => Way::Question(kind),
        Kind::LineFromPosition => Way::Question(kind),
        Kind::PositionFromLine => Way::Question(kind),
        Kind::CanPaste => Way::Question(kind),
        Kind::CanUndo => Way::Question(kind),
        Kind::GetTextLength => Way::Question(kind),
        Kind::GetTargetStart => Way::Question(kind),
        Kind::GetTargetEnd => Way::Question(kind),
        Kind::GetSearchFlags => Way::Question(kind),
        Kind::VisibleFromDocLine => Way::Question(kind),
        Kind::DocLineFromVisible => Way::Question(kind),
        Kind::GetFoldLevel => Way::Question(kind),
        Kind::GetLastChild => Way::Question(kind),
        Kind::GetFoldParent => Way::Question(kind),
        Kind::GetLineVisible => Way::Question(kind),
        Kind::GetFoldExpanded => Way::Question(kind),
        Kind::GetAllLinesVisible => Way::Question(kind),
        Kind::LineLength => Way::Question(kind),
        Kind::GetDocPointer => Way::Question(kind),
        Kind::GetModEventMask => Way::Question(kind),
        Kind::GetDocumentOptions => Way::Question(kind),
        Kind::PositionBefore => Way::Question(kind),
        Kind::PositionAfter => Way::Question(kind),
        Kind::GetPasteConvertEndings => Way::Question(kind),
        Kind::GetIndicatorCurrent => Way::Question(kind),
        Kind::GetIndicatorValue => Way::Question(kind),
        Kind::IndicatorAllOnFor => Way::Question(kind),
        Kind::IndicatorValueAt => Way::Question(kind),
        Kind::IndicatorStart => Way::Question(kind),
        Kind::IndicatorEnd => Way::Question(kind),
        Kind::GetSelectionEmpty => Way::Question(kind),
        Kind::GetLineEndTypesAllowed => Way::Question(kind),
        Kind::GetLineEndTypesActive => Way::Question(kind),
        Kind::GetCurLine => Way::TextQuestion(kind),
        Kind::GetLine => Way::TextQuestion(kind),
        Kind::GetSelText => Way::TextQuestion(kind),
        Kind::GetTextRange => Way::TextQuestion(kind),
        Kind::GetText => Way::TextQuestion(kind),
        Kind::GetTargetText => Way::TextQuestion(kind),
        Kind::SelectAll => Way::ViewChange(kind),
        Kind::GotoLine => Way::ViewChange(kind),
        Kind::GotoPos => Way::ViewChange(kind),
        Kind::SetAnchor => Way::ViewChange(kind),
        Kind::SetCurrentPos => Way::ViewChange(kind),
        Kind::SetSelectionStart => Way::ViewChange(kind),
        Kind::SetSelectionEnd => Way::ViewChange(kind),
        Kind::SetSel => Way::ViewChange(kind),
        Kind::SetTargetStart => Way::ViewChange(kind),
        Kind::SetTargetEnd => Way::ViewChange(kind),
        Kind::SetSearchFlags => Way::ViewChange(kind),
        Kind::SearchInTarget => Way::ViewChange(kind),
        Kind::TargetFromSelection => Way::ViewChange(kind),
        Kind::CharLeft => Way::ViewChange(kind),
        Kind::CharLeftExtend => Way::ViewChange(kind),
        Kind::CharRight => Way::ViewChange(kind),
        Kind::CharRightExtend => Way::ViewChange(kind),
        Kind::Home => Way::ViewChange(kind),
        Kind::HomeExtend => Way::ViewChange(kind),
        Kind::LineEnd => Way::ViewChange(kind),
        Kind::LineEndExtend => Way::ViewChange(kind),
        Kind::DocumentStart => Way::ViewChange(kind),
        Kind::DocumentStartExtend => Way::ViewChange(kind),
        Kind::DocumentEnd => Way::ViewChange(kind),
        Kind::DocumentEndExtend => Way::ViewChange(kind),
        Kind::SetModEventMask => Way::ViewChange(kind),
        Kind::SetPasteConvertEndings => Way::ViewChange(kind),
        Kind::SetIndicatorCurrent => Way::ViewChange(kind),
        Kind::SetIndicatorValue => Way::ViewChange(kind),
        Kind::SetEmptySelection => Way::ViewChange(kind),
        Kind::SetTargetRange => Way::ViewChange(kind),
        Kind::TargetWholeDocument => Way::ViewChange(kind),
        Kind::StartRecord => Way::ViewChange(kind),
        Kind::StopRecord => Way::ViewChange(kind),
        Kind::ShowLines => Way::ViewChange(kind),
        Kind::HideLines => Way::ViewChange(kind),
        Kind::SetFoldExpanded => Way::ViewChange(kind),
        Kind::ToggleFold => Way::ViewChange(kind),
        Kind::EnsureVisible => Way::ViewChange(kind),
        Kind::FoldLine => Way::ViewChange(kind),
        Kind::SetUndoCollection => Way::DocumentChange(kind),
        Kind::SetSavePoint => Way::DocumentChange(kind),
        Kind::MarkerDeleteHandle => Way::DocumentChange(kind),
        Kind::SetEolMode => Way::DocumentChange(kind),
        Kind::StartStyling => Way::DocumentChange(kind),
        Kind::SetStyling => Way::DocumentChange(kind),
        Kind::MarkerAdd => Way::DocumentChange(kind),
        Kind::MarkerDelete => Way::DocumentChange(kind),
        Kind::MarkerDeleteAll => Way::DocumentChange(kind),
        Kind::SetStylingEx => Way::DocumentChange(kind),
        Kind::BeginUndoAction => Way::DocumentChange(kind),
        Kind::EndUndoAction => Way::DocumentChange(kind),
        Kind::SetLineState => Way::DocumentChange(kind),
        Kind::SetReadOnly => Way::DocumentChange(kind),
        Kind::EmptyUndoBuffer => Way::DocumentChange(kind),
        Kind::SetFoldLevel => Way::DocumentChange(kind),
        Kind::MarkerAddSet => Way::DocumentChange(kind),
        Kind::IndicatorFillRange => Way::DocumentChange(kind),
        Kind::IndicatorClearRange => Way::DocumentChange(kind),
        Kind::AddUndoAction => Way::DocumentChange(kind),
        Kind::SetLineEndTypesAllowed => Way::DocumentChange(kind),
        Kind::Colourise => Way::DocumentChange(kind),
        Kind::AddText => Way::Planned(kind),
        Kind::InsertText => Way::Planned(kind),
        Kind::ClearAll => Way::Planned(kind),
        Kind::Redo => Way::Planned(kind),
        Kind::GetStyledText => Way::Planned(kind),
        Kind::ConvertEols => Way::Planned(kind),
        Kind::ReplaceSel => Way::Planned(kind),
        Kind::Undo => Way::Planned(kind),
        Kind::Cut => Way::Planned(kind),
        Kind::Copy => Way::Planned(kind),
        Kind::Paste => Way::Planned(kind),
        Kind::Clear => Way::Planned(kind),
        Kind::SetText => Way::Planned(kind),
        Kind::ReplaceTarget => Way::Planned(kind),
        Kind::AppendText => Way::Planned(kind),
        Kind::DeleteBack => Way::Planned(kind),
        Kind::NewLine => Way::Planned(kind),
        Kind::SetDocPointer => Way::Planned(kind),
        Kind::CreateDocument => Way::Planned(kind),
        Kind::AddRefDocument => Way::Planned(kind),
        Kind::ReleaseDocument => Way::Planned(kind),
        Kind::CopyRange => Way::Planned(kind),
        Kind::CopyText => Way::Planned(kind),
        Kind::DeleteRange => Way::Planned(kind),
    }
}

/// Returns how a session answers the message with this number. Inlined, as `Kind::from_number` is.
#[inline(always)]
pub fn way_of(number: u32) -> Way
    ensures kind { kind_in result ≡ kind_of number }
    ensures question { question_in result ≡ question_of number }
    ensures text_question { text_question_in result ≡ text_question_of number }
    ensures view_change { view_change_in result ≡ view_change_at number }
    ensures document_change { document_change_in result ≡ document_change_at number }
{
    // States that only its number finds a kind.
    kinds_and_numbers();
    match Kind::from_number(number) {
        Some(kind) => way_for(kind),
        None => Way::Unknown,
    }
}

/// Returns the value that the plan of a numeric query answers. `None` for all other messages, and if the query is refused.
#[tactic(auto, using(crate::proofs::Plain::planned_so, crate::proofs::Plain::planned_if))]
pub fn value_of(kind: Kind, r: &Request) -> Option<i64>
    ensures { result ≡ value_asked kind r.now }
{
    match kind {
        Kind::GetLength | Kind::GetTextLength => Some(texts::get_length(r)),
        Kind::GetCharAt => Some(texts::get_char_at(r)),
        Kind::GetCurrentPos => Some(selection_plans::get_current_pos(r)),
        Kind::GetAnchor => Some(selection_plans::get_anchor(r)),
        Kind::GetStyleAt => Some(style_plans::get_style_at(r)),
        Kind::CanRedo => Some(undo_plans::get_can_redo(r)),
        Kind::MarkerLineFromHandle => Some(line_plans::marker_line_from_handle(r)),
        Kind::GetUndoCollection => Some(undo_plans::get_undo_collection(r)),
        Kind::GetEndStyled => Some(style_plans::get_end_styled(r)),
        Kind::GetEolMode => Some(line_plans::get_eol_mode(r)),
        Kind::MarkerGet => Some(line_plans::marker_get(r)),
        Kind::MarkerNext => Some(line_plans::marker_next(r)),
        Kind::MarkerPrevious => Some(line_plans::marker_previous(r)),
        Kind::GetLineState => Some(line_plans::get_line_state(r)),
        Kind::GetLineEndPosition => Some(texts::get_line_end_position(r)),
        Kind::GetReadOnly => Some(undo_plans::get_read_only(r)),
        Kind::GetSelectionStart => Some(selection_plans::get_selection_start(r)),
        Kind::GetSelectionEnd => Some(selection_plans::get_selection_end(r)),
        Kind::GetLineCount => Some(texts::get_line_count(r)),
        Kind::GetModify => Some(undo_plans::get_modify(r)),
        Kind::LineFromPosition => Some(texts::line_from_position(r)),
        Kind::PositionFromLine => Some(texts::position_from_line(r)),
        Kind::CanPaste => Some(selection_plans::can_paste(r)),
        Kind::CanUndo => Some(undo_plans::get_can_undo(r)),
        Kind::GetTargetStart => Some(target_plans::get_target_start(r)),
        Kind::GetTargetEnd => Some(target_plans::get_target_end(r)),
        Kind::GetSearchFlags => Some(target_plans::get_search_flags(r)),
        Kind::VisibleFromDocLine => Some(folding_plans::visible_from_doc_line(r)),
        Kind::DocLineFromVisible => Some(folding_plans::doc_line_from_visible(r)),
        Kind::GetFoldLevel => Some(folding_plans::get_fold_level(r)),
        Kind::GetLastChild => folding_plans::get_last_child(r),
        Kind::GetFoldParent => Some(folding_plans::get_fold_parent(r)),
        Kind::GetLineVisible => Some(folding_plans::get_line_visible(r)),
        Kind::GetFoldExpanded => Some(folding_plans::get_fold_expanded(r)),
        Kind::GetAllLinesVisible => Some(folding_plans::get_all_lines_visible(r)),
        Kind::LineLength => Some(texts::line_length(r)),
        Kind::GetDocPointer => Some(session_plans::get_doc_pointer(r)),
        Kind::GetModEventMask => Some(session_plans::get_mod_event_mask(r)),
        Kind::GetDocumentOptions => Some(session_plans::get_document_options(r)),
        Kind::PositionBefore => Some(texts::position_before(r)),
        Kind::PositionAfter => Some(texts::position_after(r)),
        Kind::GetPasteConvertEndings => Some(selection_plans::get_paste_convert_endings(r)),
        Kind::GetIndicatorCurrent => Some(style_plans::get_indicator_current(r)),
        Kind::GetIndicatorValue => Some(style_plans::get_indicator_value(r)),
        Kind::IndicatorAllOnFor => Some(style_plans::indicator_all_on_for(r)),
        Kind::IndicatorValueAt => style_plans::indicator_value_at(r),
        Kind::IndicatorStart => style_plans::indicator_start(r),
        Kind::IndicatorEnd => style_plans::indicator_end(r),
        Kind::GetSelectionEmpty => Some(selection_plans::get_selection_empty(r)),
        Kind::GetLineEndTypesAllowed | Kind::GetLineEndTypesActive => Some(
            session_plans::get_line_end_types(r),
        ),
        _ => None,
    }
}

/// Returns what the plan of a text query hands out: its value, and a range of the text in bytes. `None` for all other messages, and if
/// the query is refused or hands out nothing, as GETLINE does for a line that does not exist.
#[tactic(auto, using(crate::proofs::Plain::handed_so, crate::proofs::Plain::handed_if, crate::proofs::Plain::handed_if_any))]
pub fn handed_of(kind: Kind, r: &Request) -> Option<HandedOut>
    ensures { result ≡ handed_asked kind r.now }
{
    match kind {
        Kind::GetCurLine => Some(texts::get_cur_line(r)),
        Kind::GetLine => texts::get_line(r),
        Kind::GetSelText => Some(selection_plans::get_sel_text(r)),
        Kind::GetTextRange => texts::get_text_range(r),
        Kind::GetText => Some(texts::get_text(r)),
        Kind::GetTargetText => Some(target_plans::get_target_text(r)),
        _ => None,
    }
}
