//! Each example of `examples/messages`, as a theorem: what its script prints is computed from the definitions.

ghost use Rattle.ed_model.specs.TextExamples.{Expects, Hello, Refusals, LineQueries, MixedLineEnds, NewView, LoadFiles, ScriptSpelling, ExpectAtTheStart, ExpectsOfEveryCommand, TextLengthAndAppending};
ghost use Rattle.ed_model.specs.UndoExamples.{AllNotesOfAnInsertion, ContainerSteps, ReadOnlyNotes, SavePointAmidTyping, SavePointInAGroup, SavePointOnADroppedBranch, UndoCollection, WhichDeletionsJoin, ContainerStepFirst, ContainerStepsAlone, ContainerStepsJoin, GroupsAndSeals, UndoQueries, CollectionOffEndsGroups};
ghost use Rattle.ed_model.specs.MarkersExamples.{DeletionJoinsCrlf, DeletionJoinsMarkers, InsertionSplitsCrlf, MarkerAndLevelQueries, UndoBringsNoMarkerBack, ConvertLineEndsKeepsMarkers, LineStates, MarkersMeetAndPart, MarkersOnALineStart};
ghost use Rattle.ed_model.specs.StylesExamples.{EndStyled, IndicatorGrowsAt0, IndicatorGrowsAt1, IndicatorGrowsAt2, IndicatorGrowsAt3, IndicatorGrowsAt4, StylesAndIndicators, IndicatorCurrentAndValue, StyledText};
ghost use Rattle.ed_model.specs.SelectionExamples.{CharacterCuts, ClearOverCrlf, Clipboard, CutOfNothing, NewlineAndDeleteBack, PasteAsItIs, PasteConvertsLineEnds, SearchBackwardsEmptyMissing, SearchCaseAndReplace, SearchWholeWord, CaretKeys, LineEndMode, SearchWithoutCase, SelectionQueries, TargetQueries, AddingNothing, CopyingNothing, CutWhenReadOnly, DeletionInsideACharacter, PasteOfNothing};
ghost use Rattle.ed_model.specs.DocumentsExamples.{DocumentReferences, OrderOfAttaching, ReadOnlyTellsEachView, ReadOnlyUndo, TwoViewsMoveAndHear, UndoOfAGroupToTwoViews, DocumentOptions, UnicodeLineEnds, Masks, OptionsAndLineEndTypes, OwnDocumentAgain};
ghost use Rattle.ed_model.specs.FoldingExamples.{Folding, HiddenLines, HiddenLinesInRange, FoldStructure, FoldingOfTwoViews};
ghost use Rattle.ed_model.specs.RecordingExamples.{ALongWalk, ALongWalkWithGotopos, MacroRecording, RecordingWhenReadOnly, RecordingKeys};

pub fn examples_of_text()
    ensures expects { Expects }
    ensures hello { Hello }
    ensures refusals { Refusals }
    ensures line_queries { LineQueries }
    ensures mixed_line_ends { MixedLineEnds }
    ensures new_view { NewView }
    ensures load_files { LoadFiles }
    ensures script_spelling { ScriptSpelling }
    ensures expect_at_the_start { ExpectAtTheStart }
    ensures expects_of_every_command { ExpectsOfEveryCommand }
    ensures text_length_and_appending { TextLengthAndAppending }
{}

pub fn examples_of_undo()
    ensures all_notes_of_an_insertion { AllNotesOfAnInsertion }
    ensures container_steps { ContainerSteps }
    ensures read_only_notes { ReadOnlyNotes }
    ensures save_point_amid_typing { SavePointAmidTyping }
    ensures save_point_in_a_group { SavePointInAGroup }
    ensures save_point_on_a_dropped_branch { SavePointOnADroppedBranch }
    ensures undo_collection { UndoCollection }
    ensures which_deletions_join { WhichDeletionsJoin }
    ensures container_step_first { ContainerStepFirst }
    ensures container_steps_alone { ContainerStepsAlone }
    ensures container_steps_join { ContainerStepsJoin }
    ensures groups_and_seals { GroupsAndSeals }
    ensures undo_queries { UndoQueries }
    ensures collection_off_ends_groups { CollectionOffEndsGroups }
{}

pub fn examples_of_markers()
    ensures deletion_joins_crlf { DeletionJoinsCrlf }
    ensures deletion_joins_markers { DeletionJoinsMarkers }
    ensures insertion_splits_crlf { InsertionSplitsCrlf }
    ensures marker_and_level_queries { MarkerAndLevelQueries }
    ensures undo_brings_no_marker_back { UndoBringsNoMarkerBack }
    ensures convert_line_ends_keeps_markers { ConvertLineEndsKeepsMarkers }
    ensures line_states { LineStates }
    ensures markers_meet_and_part { MarkersMeetAndPart }
    ensures markers_on_a_line_start { MarkersOnALineStart }
{}

pub fn examples_of_styles()
    ensures end_styled { EndStyled }
    ensures indicator_grows_at_0 { IndicatorGrowsAt0 }
    ensures indicator_grows_at_1 { IndicatorGrowsAt1 }
    ensures indicator_grows_at_2 { IndicatorGrowsAt2 }
    ensures indicator_grows_at_3 { IndicatorGrowsAt3 }
    ensures indicator_grows_at_4 { IndicatorGrowsAt4 }
    ensures styles_and_indicators { StylesAndIndicators }
    ensures indicator_current_and_value { IndicatorCurrentAndValue }
    ensures styled_text { StyledText }
{}

pub fn examples_of_selection()
    ensures character_cuts { CharacterCuts }
    ensures clear_over_crlf { ClearOverCrlf }
    ensures clipboard { Clipboard }
    ensures cut_of_nothing { CutOfNothing }
    ensures newline_and_delete_back { NewlineAndDeleteBack }
    ensures paste_as_it_is { PasteAsItIs }
    ensures paste_converts_line_ends { PasteConvertsLineEnds }
    ensures search_backwards_empty_missing { SearchBackwardsEmptyMissing }
    ensures search_case_and_replace { SearchCaseAndReplace }
    ensures search_whole_word { SearchWholeWord }
    ensures caret_keys { CaretKeys }
    ensures line_end_mode { LineEndMode }
    ensures search_without_case { SearchWithoutCase }
    ensures selection_queries { SelectionQueries }
    ensures target_queries { TargetQueries }
    ensures adding_nothing { AddingNothing }
    ensures copying_nothing { CopyingNothing }
    ensures cut_when_read_only { CutWhenReadOnly }
    ensures deletion_inside_a_character { DeletionInsideACharacter }
    ensures paste_of_nothing { PasteOfNothing }
{}

pub fn examples_of_documents()
    ensures document_references { DocumentReferences }
    ensures order_of_attaching { OrderOfAttaching }
    ensures read_only_tells_each_view { ReadOnlyTellsEachView }
    ensures read_only_undo { ReadOnlyUndo }
    ensures two_views_move_and_hear { TwoViewsMoveAndHear }
    ensures undo_of_a_group_to_two_views { UndoOfAGroupToTwoViews }
    ensures document_options { DocumentOptions }
    ensures unicode_line_ends { UnicodeLineEnds }
    ensures masks { Masks }
    ensures options_and_line_end_types { OptionsAndLineEndTypes }
    ensures own_document_again { OwnDocumentAgain }
{}

pub fn examples_of_folding()
    ensures folding { Folding }
    ensures hidden_lines { HiddenLines }
    ensures hidden_lines_in_range { HiddenLinesInRange }
    ensures fold_structure { FoldStructure }
    ensures folding_of_two_views { FoldingOfTwoViews }
{}

pub fn examples_of_recording()
    ensures a_long_walk { ALongWalk }
    ensures a_long_walk_with_gotopos { ALongWalkWithGotopos }
    ensures macro_recording { MacroRecording }
    ensures recording_when_read_only { RecordingWhenReadOnly }
    ensures recording_keys { RecordingKeys }
{}
