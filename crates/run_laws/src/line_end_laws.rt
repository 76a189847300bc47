//! The laws of the conversion of line ends to one kind.

ghost use Rattle.run_laws.specs.LineEndLaws.{ConvertEolsConverts, ConvertedHaveOnlyThese, ConvertedLinesEndSo, LastKindCounts, LineCountStays, OtherBytesStay, StepsConvert, TextsOfTheKindStay};

/// The steps of a conversion lead to the converted text. In it each CR and each LF belongs to a line end of the wanted
/// kind, so each line but the last ends in that kind, or in a Unicode line end if the document allows these. All other
/// bytes stay, and so does the number of lines, whether Unicode line ends count or not. A text of the kind stays as it
/// is, and a text that is converted twice is the text converted to the second kind alone.
pub fn conversions_leave_one_kind()
    ensures steps { StepsConvert }
    ensures only { ConvertedHaveOnlyThese }
    ensures lines { ConvertedLinesEndSo }
    ensures others { OtherBytesStay }
    ensures line_count { LineCountStays }
    ensures already { TextsOfTheKindStay }
    ensures last_kind { LastKindCounts }
{}

/// CONVERTEOLS, if it is answered and the document is not read-only, leaves the text converted to the kind that it
/// names.
pub fn convert_eols_converts_the_text()
    ensures { ConvertEolsConverts }
{}
