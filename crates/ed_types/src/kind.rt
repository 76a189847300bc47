//! The kinds of messages: their numbers and their marks.

ghost use Rattle.std.specs.Prelude.{◌≡◌};
ghost use Rattle.ed_types.specs.Messages.{number_of, kind_of, marks_of};

use crate::marks::Columns;

/// A message of the profile, by the name and the number that Scintilla's documentation gives it.
#[derive(Clone, Copy, Debug)]
pub enum Kind {
    /// `SCI_ADDTEXT`
    AddText = 2001,
    /// `SCI_INSERTTEXT`
    InsertText = 2003,
    /// `SCI_CLEARALL`
    ClearAll = 2004,
    /// `SCI_GETLENGTH`
    GetLength = 2006,
    /// `SCI_GETCHARAT`
    GetCharAt = 2007,
    /// `SCI_GETCURRENTPOS`
    GetCurrentPos = 2008,
    /// `SCI_GETANCHOR`
    GetAnchor = 2009,
    /// `SCI_GETSTYLEAT`
    GetStyleAt = 2010,
    /// `SCI_REDO`
    Redo = 2011,
    /// `SCI_SETUNDOCOLLECTION`
    SetUndoCollection = 2012,
    /// `SCI_SELECTALL`
    SelectAll = 2013,
    /// `SCI_SETSAVEPOINT`
    SetSavePoint = 2014,
    /// `SCI_GETSTYLEDTEXT`
    GetStyledText = 2015,
    /// `SCI_CANREDO`
    CanRedo = 2016,
    /// `SCI_MARKERLINEFROMHANDLE`
    MarkerLineFromHandle = 2017,
    /// `SCI_MARKERDELETEHANDLE`
    MarkerDeleteHandle = 2018,
    /// `SCI_GETUNDOCOLLECTION`
    GetUndoCollection = 2019,
    /// `SCI_GOTOLINE`
    GotoLine = 2024,
    /// `SCI_GOTOPOS`
    GotoPos = 2025,
    /// `SCI_SETANCHOR`
    SetAnchor = 2026,
    /// `SCI_GETCURLINE`
    GetCurLine = 2027,
    /// `SCI_GETENDSTYLED`
    GetEndStyled = 2028,
    /// `SCI_CONVERTEOLS`
    ConvertEols = 2029,
    /// `SCI_GETEOLMODE`
    GetEolMode = 2030,
    /// `SCI_SETEOLMODE`
    SetEolMode = 2031,
    /// `SCI_STARTSTYLING`
    StartStyling = 2032,
    /// `SCI_SETSTYLING`
    SetStyling = 2033,
    /// `SCI_MARKERADD`
    MarkerAdd = 2043,
    /// `SCI_MARKERDELETE`
    MarkerDelete = 2044,
    /// `SCI_MARKERDELETEALL`
    MarkerDeleteAll = 2045,
    /// `SCI_MARKERGET`
    MarkerGet = 2046,
    /// `SCI_MARKERNEXT`
    MarkerNext = 2047,
    /// `SCI_MARKERPREVIOUS`
    MarkerPrevious = 2048,
    /// `SCI_SETSTYLINGEX`
    SetStylingEx = 2073,
    /// `SCI_BEGINUNDOACTION`
    BeginUndoAction = 2078,
    /// `SCI_ENDUNDOACTION`
    EndUndoAction = 2079,
    /// `SCI_SETLINESTATE`
    SetLineState = 2092,
    /// `SCI_GETLINESTATE`
    GetLineState = 2093,
    /// `SCI_GETLINEENDPOSITION`
    GetLineEndPosition = 2136,
    /// `SCI_GETREADONLY`
    GetReadOnly = 2140,
    /// `SCI_SETCURRENTPOS`
    SetCurrentPos = 2141,
    /// `SCI_SETSELECTIONSTART`
    SetSelectionStart = 2142,
    /// `SCI_GETSELECTIONSTART`
    GetSelectionStart = 2143,
    /// `SCI_SETSELECTIONEND`
    SetSelectionEnd = 2144,
    /// `SCI_GETSELECTIONEND`
    GetSelectionEnd = 2145,
    /// `SCI_GETLINE`
    GetLine = 2153,
    /// `SCI_GETLINECOUNT`
    GetLineCount = 2154,
    /// `SCI_GETMODIFY`
    GetModify = 2159,
    /// `SCI_SETSEL`
    SetSel = 2160,
    /// `SCI_GETSELTEXT`
    GetSelText = 2161,
    /// `SCI_GETTEXTRANGE`
    GetTextRange = 2162,
    /// `SCI_LINEFROMPOSITION`
    LineFromPosition = 2166,
    /// `SCI_POSITIONFROMLINE`
    PositionFromLine = 2167,
    /// `SCI_REPLACESEL`
    ReplaceSel = 2170,
    /// `SCI_SETREADONLY`
    SetReadOnly = 2171,
    /// `SCI_CANPASTE`
    CanPaste = 2173,
    /// `SCI_CANUNDO`
    CanUndo = 2174,
    /// `SCI_EMPTYUNDOBUFFER`
    EmptyUndoBuffer = 2175,
    /// `SCI_UNDO`
    Undo = 2176,
    /// `SCI_CUT`
    Cut = 2177,
    /// `SCI_COPY`
    Copy = 2178,
    /// `SCI_PASTE`
    Paste = 2179,
    /// `SCI_CLEAR`
    Clear = 2180,
    /// `SCI_SETTEXT`
    SetText = 2181,
    /// `SCI_GETTEXT`
    GetText = 2182,
    /// `SCI_GETTEXTLENGTH`
    GetTextLength = 2183,
    /// `SCI_SETTARGETSTART`
    SetTargetStart = 2190,
    /// `SCI_GETTARGETSTART`
    GetTargetStart = 2191,
    /// `SCI_SETTARGETEND`
    SetTargetEnd = 2192,
    /// `SCI_GETTARGETEND`
    GetTargetEnd = 2193,
    /// `SCI_REPLACETARGET`
    ReplaceTarget = 2194,
    /// `SCI_SEARCHINTARGET`
    SearchInTarget = 2197,
    /// `SCI_SETSEARCHFLAGS`
    SetSearchFlags = 2198,
    /// `SCI_GETSEARCHFLAGS`
    GetSearchFlags = 2199,
    /// `SCI_VISIBLEFROMDOCLINE`
    VisibleFromDocLine = 2220,
    /// `SCI_DOCLINEFROMVISIBLE`
    DocLineFromVisible = 2221,
    /// `SCI_SETFOLDLEVEL`
    SetFoldLevel = 2222,
    /// `SCI_GETFOLDLEVEL`
    GetFoldLevel = 2223,
    /// `SCI_GETLASTCHILD`
    GetLastChild = 2224,
    /// `SCI_GETFOLDPARENT`
    GetFoldParent = 2225,
    /// `SCI_SHOWLINES`
    ShowLines = 2226,
    /// `SCI_HIDELINES`
    HideLines = 2227,
    /// `SCI_GETLINEVISIBLE`
    GetLineVisible = 2228,
    /// `SCI_SETFOLDEXPANDED`
    SetFoldExpanded = 2229,
    /// `SCI_GETFOLDEXPANDED`
    GetFoldExpanded = 2230,
    /// `SCI_TOGGLEFOLD`
    ToggleFold = 2231,
    /// `SCI_ENSUREVISIBLE`
    EnsureVisible = 2232,
    /// `SCI_GETALLLINESVISIBLE`
    GetAllLinesVisible = 2236,
    /// `SCI_FOLDLINE`
    FoldLine = 2237,
    /// `SCI_APPENDTEXT`
    AppendText = 2282,
    /// `SCI_TARGETFROMSELECTION`
    TargetFromSelection = 2287,
    /// `SCI_CHARLEFT`
    CharLeft = 2304,
    /// `SCI_CHARLEFTEXTEND`
    CharLeftExtend = 2305,
    /// `SCI_CHARRIGHT`
    CharRight = 2306,
    /// `SCI_CHARRIGHTEXTEND`
    CharRightExtend = 2307,
    /// `SCI_HOME`
    Home = 2312,
    /// `SCI_HOMEEXTEND`
    HomeExtend = 2313,
    /// `SCI_LINEEND`
    LineEnd = 2314,
    /// `SCI_LINEENDEXTEND`
    LineEndExtend = 2315,
    /// `SCI_DOCUMENTSTART`
    DocumentStart = 2316,
    /// `SCI_DOCUMENTSTARTEXTEND`
    DocumentStartExtend = 2317,
    /// `SCI_DOCUMENTEND`
    DocumentEnd = 2318,
    /// `SCI_DOCUMENTENDEXTEND`
    DocumentEndExtend = 2319,
    /// `SCI_DELETEBACK`
    DeleteBack = 2326,
    /// `SCI_NEWLINE`
    NewLine = 2329,
    /// `SCI_LINELENGTH`
    LineLength = 2350,
    /// `SCI_GETDOCPOINTER`
    GetDocPointer = 2357,
    /// `SCI_SETDOCPOINTER`
    SetDocPointer = 2358,
    /// `SCI_SETMODEVENTMASK`
    SetModEventMask = 2359,
    /// `SCI_CREATEDOCUMENT`
    CreateDocument = 2375,
    /// `SCI_ADDREFDOCUMENT`
    AddRefDocument = 2376,
    /// `SCI_RELEASEDOCUMENT`
    ReleaseDocument = 2377,
    /// `SCI_GETMODEVENTMASK`
    GetModEventMask = 2378,
    /// `SCI_GETDOCUMENTOPTIONS`
    GetDocumentOptions = 2379,
    /// `SCI_POSITIONBEFORE`
    PositionBefore = 2417,
    /// `SCI_POSITIONAFTER`
    PositionAfter = 2418,
    /// `SCI_COPYRANGE`
    CopyRange = 2419,
    /// `SCI_COPYTEXT`
    CopyText = 2420,
    /// `SCI_MARKERADDSET`
    MarkerAddSet = 2466,
    /// `SCI_SETPASTECONVERTENDINGS`
    SetPasteConvertEndings = 2467,
    /// `SCI_GETPASTECONVERTENDINGS`
    GetPasteConvertEndings = 2468,
    /// `SCI_SETINDICATORCURRENT`
    SetIndicatorCurrent = 2500,
    /// `SCI_GETINDICATORCURRENT`
    GetIndicatorCurrent = 2501,
    /// `SCI_SETINDICATORVALUE`
    SetIndicatorValue = 2502,
    /// `SCI_GETINDICATORVALUE`
    GetIndicatorValue = 2503,
    /// `SCI_INDICATORFILLRANGE`
    IndicatorFillRange = 2504,
    /// `SCI_INDICATORCLEARRANGE`
    IndicatorClearRange = 2505,
    /// `SCI_INDICATORALLONFOR`
    IndicatorAllOnFor = 2506,
    /// `SCI_INDICATORVALUEAT`
    IndicatorValueAt = 2507,
    /// `SCI_INDICATORSTART`
    IndicatorStart = 2508,
    /// `SCI_INDICATOREND`
    IndicatorEnd = 2509,
    /// `SCI_SETEMPTYSELECTION`
    SetEmptySelection = 2556,
    /// `SCI_ADDUNDOACTION`
    AddUndoAction = 2560,
    /// `SCI_DELETERANGE`
    DeleteRange = 2645,
    /// `SCI_GETSELECTIONEMPTY`
    GetSelectionEmpty = 2650,
    /// `SCI_SETLINEENDTYPESALLOWED`
    SetLineEndTypesAllowed = 2656,
    /// `SCI_GETLINEENDTYPESALLOWED`
    GetLineEndTypesAllowed = 2657,
    /// `SCI_GETLINEENDTYPESACTIVE`
    GetLineEndTypesActive = 2658,
    /// `SCI_SETTARGETRANGE`
    SetTargetRange = 2686,
    /// `SCI_GETTARGETTEXT`
    GetTargetText = 2687,
    /// `SCI_TARGETWHOLEDOCUMENT`
    TargetWholeDocument = 2690,
    /// `SCI_STARTRECORD`
    StartRecord = 3001,
    /// `SCI_STOPRECORD`
    StopRecord = 3002,
    /// `SCI_COLOURISE`
    Colourise = 4003,
}

impl Kind {
    /// Returns the number of the message, by Scintilla's documentation.
    pub fn number(self) -> u32
        ensures number { result ≡ number_of self }
    {
        self as u32
    }

    /// Returns the message with this number, or `None` if the profile has no such message. Inlined: as a call, each message takes 8 instructions more.
    #[inline(always)]
    pub fn from_number(number: u32) -> Option<Kind>
        ensures decoded { result ≡ kind_of number }
    {
        match number {
            2001 => Some(Kind::AddText),
            2003 => Some(Kind::InsertText),
            2004 => Some(Kind::ClearAll),
            2006 => Some(Kind::GetLength),
            2007 => Some(Kind::GetCharAt),
            2008 => Some(Kind::GetCurrentPos),
            2009 => Some(Kind::GetAnchor),
            2010 => Some(Kind::GetStyleAt),
            2011 => Some(Kind::Redo),
            2012 => Some(Kind::SetUndoCollection),
            2013 => Some(Kind::SelectAll),
            2014 => Some(Kind::SetSavePoint),
            2015 => Some(Kind::GetStyledText),
            2016 => Some(Kind::CanRedo),
            2017 => Some(Kind::MarkerLineFromHandle),
            2018 => Some(Kind::MarkerDeleteHandle),
            2019 => Some(Kind::GetUndoCollection),
            2024 => Some(Kind::GotoLine),
            2025 => Some(Kind::GotoPos),
            2026 => Some(Kind::SetAnchor),
            2027 => Some(Kind::GetCurLine),
            2028 => Some(Kind::GetEndStyled),
            2029 => Some(Kind::ConvertEols),
            2030 => Some(Kind::GetEolMode),
            2031 => Some(Kind::SetEolMode),
            2032 => Some(Kind::StartStyling),
            2033 => Some(Kind::SetStyling),
            2043 => Some(Kind::MarkerAdd),
            2044 => Some(Kind::MarkerDelete),
            2045 => Some(Kind::MarkerDeleteAll),
            2046 => Some(Kind::MarkerGet),
            2047 => Some(Kind::MarkerNext),
            2048 => Some(Kind::MarkerPrevious),
            2073 => Some(Kind::SetStylingEx),
            2078 => Some(Kind::BeginUndoAction),
            2079 => Some(Kind::EndUndoAction),
            2092 => Some(Kind::SetLineState),
            2093 => Some(Kind::GetLineState),
            2136 => Some(Kind::GetLineEndPosition),
            2140 => Some(Kind::GetReadOnly),
            2141 => Some(Kind::SetCurrentPos),
            2142 => Some(Kind::SetSelectionStart),
            2143 => Some(Kind::GetSelectionStart),
            2144 => Some(Kind::SetSelectionEnd),
            2145 => Some(Kind::GetSelectionEnd),
            2153 => Some(Kind::GetLine),
            2154 => Some(Kind::GetLineCount),
            2159 => Some(Kind::GetModify),
            2160 => Some(Kind::SetSel),
            2161 => Some(Kind::GetSelText),
            2162 => Some(Kind::GetTextRange),
            2166 => Some(Kind::LineFromPosition),
            2167 => Some(Kind::PositionFromLine),
            2170 => Some(Kind::ReplaceSel),
            2171 => Some(Kind::SetReadOnly),
            2173 => Some(Kind::CanPaste),
            2174 => Some(Kind::CanUndo),
            2175 => Some(Kind::EmptyUndoBuffer),
            2176 => Some(Kind::Undo),
            2177 => Some(Kind::Cut),
            2178 => Some(Kind::Copy),
            2179 => Some(Kind::Paste),
            2180 => Some(Kind::Clear),
            2181 => Some(Kind::SetText),
            2182 => Some(Kind::GetText),
            2183 => Some(Kind::GetTextLength),
            2190 => Some(Kind::SetTargetStart),
            2191 => Some(Kind::GetTargetStart),
            2192 => Some(Kind::SetTargetEnd),
            2193 => Some(Kind::GetTargetEnd),
            2194 => Some(Kind::ReplaceTarget),
            2197 => Some(Kind::SearchInTarget),
            2198 => Some(Kind::SetSearchFlags),
            2199 => Some(Kind::GetSearchFlags),
            2220 => Some(Kind::VisibleFromDocLine),
            2221 => Some(Kind::DocLineFromVisible),
            2222 => Some(Kind::SetFoldLevel),
            2223 => Some(Kind::GetFoldLevel),
            2224 => Some(Kind::GetLastChild),
            2225 => Some(Kind::GetFoldParent),
            2226 => Some(Kind::ShowLines),
            2227 => Some(Kind::HideLines),
            2228 => Some(Kind::GetLineVisible),
            2229 => Some(Kind::SetFoldExpanded),
            2230 => Some(Kind::GetFoldExpanded),
            2231 => Some(Kind::ToggleFold),
            2232 => Some(Kind::EnsureVisible),
            2236 => Some(Kind::GetAllLinesVisible),
            2237 => Some(Kind::FoldLine),
            2282 => Some(Kind::AppendText),
            2287 => Some(Kind::TargetFromSelection),
            2304 => Some(Kind::CharLeft),
            2305 => Some(Kind::CharLeftExtend),
            2306 => Some(Kind::CharRight),
            2307 => Some(Kind::CharRightExtend),
            2312 => Some(Kind::Home),
            2313 => Some(Kind::HomeExtend),
            2314 => Some(Kind::LineEnd),
            2315 => Some(Kind::LineEndExtend),
            2316 => Some(Kind::DocumentStart),
            2317 => Some(Kind::DocumentStartExtend),
            2318 => Some(Kind::DocumentEnd),
            2319 => Some(Kind::DocumentEndExtend),
            2326 => Some(Kind::DeleteBack),
            2329 => Some(Kind::NewLine),
            2350 => Some(Kind::LineLength),
            2357 => Some(Kind::GetDocPointer),
            2358 => Some(Kind::SetDocPointer),
            2359 => Some(Kind::SetModEventMask),
            2375 => Some(Kind::CreateDocument),
            2376 => Some(Kind::AddRefDocument),
            2377 => Some(Kind::ReleaseDocument),
            2378 => Some(Kind::GetModEventMask),
            2379 => Some(Kind::GetDocumentOptions),
            2417 => Some(Kind::PositionBefore),
            2418 => Some(Kind::PositionAfter),
            2419 => Some(Kind::CopyRange),
            2420 => Some(Kind::CopyText),
            2466 => Some(Kind::MarkerAddSet),
            2467 => Some(Kind::SetPasteConvertEndings),
            2468 => Some(Kind::GetPasteConvertEndings),
            2500 => Some(Kind::SetIndicatorCurrent),
            2501 => Some(Kind::GetIndicatorCurrent),
            2502 => Some(Kind::SetIndicatorValue),
            2503 => Some(Kind::GetIndicatorValue),
            2504 => Some(Kind::IndicatorFillRange),
            2505 => Some(Kind::IndicatorClearRange),
            2506 => Some(Kind::IndicatorAllOnFor),
            2507 => Some(Kind::IndicatorValueAt),
            2508 => Some(Kind::IndicatorStart),
            2509 => Some(Kind::IndicatorEnd),
            2556 => Some(Kind::SetEmptySelection),
            2560 => Some(Kind::AddUndoAction),
            2645 => Some(Kind::DeleteRange),
            2650 => Some(Kind::GetSelectionEmpty),
            2656 => Some(Kind::SetLineEndTypesAllowed),
            2657 => Some(Kind::GetLineEndTypesAllowed),
            2658 => Some(Kind::GetLineEndTypesActive),
            2686 => Some(Kind::SetTargetRange),
            2687 => Some(Kind::GetTargetText),
            2690 => Some(Kind::TargetWholeDocument),
            3001 => Some(Kind::StartRecord),
            3002 => Some(Kind::StopRecord),
            4003 => Some(Kind::Colourise),
            _ => None,
        }
    }

    /// Returns the marks of this message.
    pub fn columns(self) -> Columns
        ensures marked { result ≡ marks_of self }
    {
        match self {
            Kind::AddText => Columns::RECORDED_EDIT,
            Kind::InsertText => Columns::RECORDED_EDIT,
            Kind::ClearAll => Columns::RECORDED_EDIT,
            Kind::GetLength => Columns::QUERY_WITHOUT_MEMORY,
            Kind::GetCharAt => Columns::QUERY_WITHOUT_MEMORY,
            Kind::GetCurrentPos => Columns::QUERY_WITHOUT_MEMORY,
            Kind::GetAnchor => Columns::QUERY_WITHOUT_MEMORY,
            Kind::GetStyleAt => Columns::QUERY_WITHOUT_MEMORY,
            Kind::Redo => Columns::EDIT,
            Kind::SetUndoCollection => Columns::WITHOUT_MEMORY,
            Kind::SelectAll => Columns::RECORDED_WITHOUT_MEMORY,
            Kind::SetSavePoint => Columns::UNMARKED,
            Kind::GetStyledText => Columns::QUERY,
            Kind::CanRedo => Columns::QUERY_WITHOUT_MEMORY,
            Kind::MarkerLineFromHandle => Columns::QUERY_WITHOUT_MEMORY,
            Kind::MarkerDeleteHandle => Columns::UNMARKED,
            Kind::GetUndoCollection => Columns::QUERY_WITHOUT_MEMORY,
            Kind::GotoLine => Columns::RECORDED_WITHOUT_MEMORY,
            Kind::GotoPos => Columns::RECORDED_WITHOUT_MEMORY,
            Kind::SetAnchor => Columns::WITHOUT_MEMORY,
            Kind::GetCurLine => Columns::QUERY,
            Kind::GetEndStyled => Columns::QUERY_WITHOUT_MEMORY,
            Kind::ConvertEols => Columns::EDIT,
            Kind::GetEolMode => Columns::QUERY_WITHOUT_MEMORY,
            Kind::SetEolMode => Columns::WITHOUT_MEMORY,
            Kind::StartStyling => Columns::WITHOUT_MEMORY,
            Kind::SetStyling => Columns::UNMARKED,
            Kind::MarkerAdd => Columns::UNMARKED,
            Kind::MarkerDelete => Columns::UNMARKED,
            Kind::MarkerDeleteAll => Columns::UNMARKED,
            Kind::MarkerGet => Columns::QUERY_WITHOUT_MEMORY,
            Kind::MarkerNext => Columns::QUERY_WITHOUT_MEMORY,
            Kind::MarkerPrevious => Columns::QUERY_WITHOUT_MEMORY,
            Kind::SetStylingEx => Columns::UNMARKED,
            Kind::BeginUndoAction => Columns::WITHOUT_MEMORY,
            Kind::EndUndoAction => Columns::WITHOUT_MEMORY,
            Kind::SetLineState => Columns::UNMARKED,
            Kind::GetLineState => Columns::QUERY_WITHOUT_MEMORY,
            Kind::GetLineEndPosition => Columns::QUERY_WITHOUT_MEMORY,
            Kind::GetReadOnly => Columns::QUERY_WITHOUT_MEMORY,
            Kind::SetCurrentPos => Columns::WITHOUT_MEMORY,
            Kind::SetSelectionStart => Columns::WITHOUT_MEMORY,
            Kind::GetSelectionStart => Columns::QUERY_WITHOUT_MEMORY,
            Kind::SetSelectionEnd => Columns::WITHOUT_MEMORY,
            Kind::GetSelectionEnd => Columns::QUERY_WITHOUT_MEMORY,
            Kind::GetLine => Columns::QUERY,
            Kind::GetLineCount => Columns::QUERY_WITHOUT_MEMORY,
            Kind::GetModify => Columns::QUERY_WITHOUT_MEMORY,
            Kind::SetSel => Columns::WITHOUT_MEMORY,
            Kind::GetSelText => Columns::QUERY,
            Kind::GetTextRange => Columns::QUERY,
            Kind::LineFromPosition => Columns::QUERY_WITHOUT_MEMORY,
            Kind::PositionFromLine => Columns::QUERY_WITHOUT_MEMORY,
            Kind::ReplaceSel => Columns::RECORDED_EDIT,
            Kind::SetReadOnly => Columns::WITHOUT_MEMORY,
            Kind::CanPaste => Columns::QUERY_WITHOUT_MEMORY,
            Kind::CanUndo => Columns::QUERY_WITHOUT_MEMORY,
            Kind::EmptyUndoBuffer => Columns::WITHOUT_MEMORY,
            Kind::Undo => Columns::EDIT,
            Kind::Cut => Columns::RECORDED_EDIT,
            Kind::Copy => Columns::RECORDED,
            Kind::Paste => Columns::RECORDED_EDIT,
            Kind::Clear => Columns::RECORDED_EDIT,
            Kind::SetText => Columns::EDIT,
            Kind::GetText => Columns::QUERY,
            Kind::GetTextLength => Columns::QUERY_WITHOUT_MEMORY,
            Kind::SetTargetStart => Columns::WITHOUT_MEMORY,
            Kind::GetTargetStart => Columns::QUERY_WITHOUT_MEMORY,
            Kind::SetTargetEnd => Columns::WITHOUT_MEMORY,
            Kind::GetTargetEnd => Columns::QUERY_WITHOUT_MEMORY,
            Kind::ReplaceTarget => Columns::EDIT,
            Kind::SearchInTarget => Columns::WITHOUT_MEMORY,
            Kind::SetSearchFlags => Columns::WITHOUT_MEMORY,
            Kind::GetSearchFlags => Columns::QUERY_WITHOUT_MEMORY,
            Kind::VisibleFromDocLine => Columns::QUERY_WITHOUT_MEMORY,
            Kind::DocLineFromVisible => Columns::QUERY_WITHOUT_MEMORY,
            Kind::SetFoldLevel => Columns::UNMARKED,
            Kind::GetFoldLevel => Columns::QUERY_WITHOUT_MEMORY,
            Kind::GetLastChild => Columns::QUERY_WITHOUT_MEMORY,
            Kind::GetFoldParent => Columns::QUERY_WITHOUT_MEMORY,
            Kind::ShowLines => Columns::UNMARKED,
            Kind::HideLines => Columns::UNMARKED,
            Kind::GetLineVisible => Columns::QUERY_WITHOUT_MEMORY,
            Kind::SetFoldExpanded => Columns::UNMARKED,
            Kind::GetFoldExpanded => Columns::QUERY_WITHOUT_MEMORY,
            Kind::ToggleFold => Columns::UNMARKED,
            Kind::EnsureVisible => Columns::UNMARKED,
            Kind::GetAllLinesVisible => Columns::QUERY_WITHOUT_MEMORY,
            Kind::FoldLine => Columns::UNMARKED,
            Kind::AppendText => Columns::RECORDED_EDIT,
            Kind::TargetFromSelection => Columns::WITHOUT_MEMORY,
            Kind::CharLeft => Columns::RECORDED_WITHOUT_MEMORY,
            Kind::CharLeftExtend => Columns::RECORDED_WITHOUT_MEMORY,
            Kind::CharRight => Columns::RECORDED_WITHOUT_MEMORY,
            Kind::CharRightExtend => Columns::RECORDED_WITHOUT_MEMORY,
            Kind::Home => Columns::RECORDED_WITHOUT_MEMORY,
            Kind::HomeExtend => Columns::RECORDED_WITHOUT_MEMORY,
            Kind::LineEnd => Columns::RECORDED_WITHOUT_MEMORY,
            Kind::LineEndExtend => Columns::RECORDED_WITHOUT_MEMORY,
            Kind::DocumentStart => Columns::RECORDED_WITHOUT_MEMORY,
            Kind::DocumentStartExtend => Columns::RECORDED_WITHOUT_MEMORY,
            Kind::DocumentEnd => Columns::RECORDED_WITHOUT_MEMORY,
            Kind::DocumentEndExtend => Columns::RECORDED_WITHOUT_MEMORY,
            Kind::DeleteBack => Columns::RECORDED_EDIT,
            Kind::NewLine => Columns::RECORDED_EDIT,
            Kind::LineLength => Columns::QUERY_WITHOUT_MEMORY,
            Kind::GetDocPointer => Columns::QUERY_WITHOUT_MEMORY,
            Kind::SetDocPointer => Columns::UNMARKED,
            Kind::SetModEventMask => Columns::WITHOUT_MEMORY,
            Kind::CreateDocument => Columns::UNMARKED,
            Kind::AddRefDocument => Columns::WITHOUT_MEMORY,
            Kind::ReleaseDocument => Columns::WITHOUT_MEMORY,
            Kind::GetModEventMask => Columns::QUERY_WITHOUT_MEMORY,
            Kind::GetDocumentOptions => Columns::QUERY_WITHOUT_MEMORY,
            Kind::PositionBefore => Columns::QUERY_WITHOUT_MEMORY,
            Kind::PositionAfter => Columns::QUERY_WITHOUT_MEMORY,
            Kind::CopyRange => Columns::UNMARKED,
            Kind::CopyText => Columns::UNMARKED,
            Kind::MarkerAddSet => Columns::UNMARKED,
            Kind::SetPasteConvertEndings => Columns::WITHOUT_MEMORY,
            Kind::GetPasteConvertEndings => Columns::QUERY_WITHOUT_MEMORY,
            Kind::SetIndicatorCurrent => Columns::WITHOUT_MEMORY,
            Kind::GetIndicatorCurrent => Columns::QUERY_WITHOUT_MEMORY,
            Kind::SetIndicatorValue => Columns::WITHOUT_MEMORY,
            Kind::GetIndicatorValue => Columns::QUERY_WITHOUT_MEMORY,
            Kind::IndicatorFillRange => Columns::UNMARKED,
            Kind::IndicatorClearRange => Columns::UNMARKED,
            Kind::IndicatorAllOnFor => Columns::QUERY_WITHOUT_MEMORY,
            Kind::IndicatorValueAt => Columns::QUERY_WITHOUT_MEMORY,
            Kind::IndicatorStart => Columns::QUERY_WITHOUT_MEMORY,
            Kind::IndicatorEnd => Columns::QUERY_WITHOUT_MEMORY,
            Kind::SetEmptySelection => Columns::WITHOUT_MEMORY,
            Kind::AddUndoAction => Columns::UNMARKED,
            Kind::DeleteRange => Columns::EDIT,
            Kind::GetSelectionEmpty => Columns::QUERY_WITHOUT_MEMORY,
            Kind::SetLineEndTypesAllowed => Columns::UNMARKED,
            Kind::GetLineEndTypesAllowed => Columns::QUERY_WITHOUT_MEMORY,
            Kind::GetLineEndTypesActive => Columns::QUERY_WITHOUT_MEMORY,
            Kind::SetTargetRange => Columns::WITHOUT_MEMORY,
            Kind::GetTargetText => Columns::QUERY,
            Kind::TargetWholeDocument => Columns::WITHOUT_MEMORY,
            Kind::StartRecord => Columns::WITHOUT_MEMORY,
            Kind::StopRecord => Columns::WITHOUT_MEMORY,
            Kind::Colourise => Columns::UNMARKED,
        }
    }
}
