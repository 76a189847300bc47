//! Worked examples of single definitions, each computed.

ghost use Rattle.ed_model.specs.WorkedCharacters.{CutsOfAMixedText, WellFormedSequences, IllFormedSequences, MatchesInATextOfWords, MatchesBackwards, MatchesOfBothCases, LinesOfATextWithEachLineEnd, LinesOfATextWithUnicodeLineEnds};
ghost use Rattle.ed_model.specs.WorkedLines.{MarkersUnderSteps, IndicatorUnderSteps, DisplayLinesAroundAHiddenLine, FoldsOfNestedLevels, LineEndsOfLongLines, StepsThatJoin};
ghost use Rattle.ed_model.specs.WorkedLimits.{AnswersWithinLimits, SessionsWithinLimits};
ghost use Rattle.ed_model.specs.WorkedRecording.{RecordsWhatCanBeReplayed};

/// Where texts are cut into characters: CRLF, well-formed sequences, and single bytes where neither begins.
pub fn worked_characters()
    ensures cuts_of_a_mixed_text { CutsOfAMixedText }
    ensures well_formed_sequences { WellFormedSequences }
    ensures ill_formed_sequences { IllFormedSequences }
{}

/// Which match a search finds: forwards, backwards, with whole words and with case.
pub fn worked_matches()
    ensures matches_in_a_text_of_words { MatchesInATextOfWords }
    ensures matches_backwards { MatchesBackwards }
    ensures matches_of_both_cases { MatchesOfBothCases }
{}

/// Line starts and line ends; rows and values after steps; display lines and folding; the conversion of line ends.
pub fn worked_lines()
    ensures lines_of_a_text_with_each_line_end { LinesOfATextWithEachLineEnd }
    ensures lines_of_a_text_with_unicode_line_ends { LinesOfATextWithUnicodeLineEnds }
    ensures markers_under_steps { MarkersUnderSteps }
    ensures indicator_under_steps { IndicatorUnderSteps }
    ensures display_lines_around_a_hidden_line { DisplayLinesAroundAHiddenLine }
    ensures folds_of_nested_levels { FoldsOfNestedLevels }
    ensures line_ends_of_long_lines { LineEndsOfLongLines }
{}

/// Which steps join into one transaction.
pub fn worked_joins()
    ensures steps_that_join { StepsThatJoin }
{}

/// What messages answer at the limits of a session, and how they are refused past them.
pub fn worked_limits()
    ensures sessions_within_limits { SessionsWithinLimits }
    ensures answers_within_limits { AnswersWithinLimits }
{}

/// Which messages a view records.
pub fn worked_recording()
    ensures records_what_can_be_replayed { RecordsWhatCanBeReplayed }
{}
