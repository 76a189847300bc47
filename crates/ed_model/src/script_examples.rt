//! Worked examples of scripts: how texts are read, how scripts are listed, and what outcomes print.

ghost use Rattle.ed_model.specs.ScriptExamples.{EveryKindOfByteIsRead, EveryKindOfByteIsListed, EdgesOfPlainBytes, OtherCommandsAreRead, UnknownCommands, WrongShapes, WrongNumbers, WrongTexts, WrongFirstLines, NoLineEnds, FirstFaults, ExpectIsOfVersion2, PrefixesOfAScript, OutcomesArePrinted, NotesArePrinted};

/// How bytes and commands are spelled and read.
pub fn script_spelling()
    ensures every_kind_of_byte_is_read { EveryKindOfByteIsRead }
    ensures every_kind_of_byte_is_listed { EveryKindOfByteIsListed }
    ensures edges_of_plain_bytes { EdgesOfPlainBytes }
    ensures other_commands_are_read { OtherCommandsAreRead }
{}

/// Lines that are refused, and with which cause.
pub fn script_lines_at_fault()
    ensures unknown_commands { UnknownCommands }
    ensures wrong_shapes { WrongShapes }
    ensures wrong_numbers { WrongNumbers }
    ensures wrong_texts { WrongTexts }
{}

/// Texts that are refused, and which line is named.
pub fn script_texts_at_fault()
    ensures wrong_first_lines { WrongFirstLines }
    ensures no_line_ends { NoLineEnds }
    ensures first_faults { FirstFaults }
    ensures expect_is_of_version_2 { ExpectIsOfVersion2 }
    ensures prefixes_of_a_script { PrefixesOfAScript }
{}

/// What outcomes print.
pub fn printed_outcomes()
    ensures outcomes_are_printed { OutcomesArePrinted }
    ensures notes_are_printed { NotesArePrinted }
{}
