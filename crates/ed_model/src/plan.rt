//! Plans: what a message is going to do, decided before anything changes.

use ed_types::Refusal;

/// A kind of line end, by its number in Scintilla: `SC_EOL_CRLF`, `SC_EOL_CR` or `SC_EOL_LF`.
#[derive(Clone, Copy)]
pub enum LineEnd {
    /// CR and LF
    CrLf = 0,
    /// CR
    Cr = 1,
    /// LF
    Lf = 2,
}

/// Which line ends a document allows beside CRLF, CR and LF (`SCI_SETLINEENDTYPESALLOWED`).
#[derive(Clone, Copy)]
pub enum LineEndTypes {
    /// None.
    Default = 0,
    /// U+0085, U+2028 and U+2029, by their bytes in UTF-8 (`SC_LINE_END_TYPE_UNICODE`).
    Unicode = 1,
}

/// The bytes that an edit inserts.
#[derive(Clone, Copy)]
pub enum Source {
    /// None.
    Nothing,
    /// The first `count` bytes of the message's text.
    MessageText { count: usize },
    /// The session's clipboard; if `convert`, with its line ends converted to the document's line end mode.
    Clipboard { convert: bool },
    /// The line end of the document's mode (`SCI_SETEOLMODE`).
    LineEnd,
}

/// An edit of the text. Places and counts are in bytes.
#[derive(Clone, Copy)]
pub enum Edit {
    /// Deletes the `count` bytes from `start` on, and then inserts the source at `start`.
    Replace {
        start: usize,
        count: usize,
        source: Source,
    },
    /// Converts all line ends to this kind (`SCI_CONVERTEOLS`).
    ConvertLineEnds {
        to: LineEnd,
    },
}

/// What an edit does after its steps.
#[derive(Clone, Copy)]
pub enum Follow {
    /// Nothing.
    Nothing,
    /// The sending view's anchor and caret become `place`.
    Caret { place: usize },
    /// The sending view's target becomes `start` to `end`.
    Target { start: usize, end: usize },
    /// The clipboard becomes the `count` bytes from `start` on, as they were before the edit.
    Clipboard { start: usize, count: usize },
}

/// A change of a document that is no edit of its text.
#[derive(Clone, Copy)]
pub enum DocumentChange {
    /// Sets whether the document is read-only (`SCI_SETREADONLY`).
    SetReadOnly {
        on: bool,
    },
    /// Sets the line end mode (`SCI_SETEOLMODE`). The text stays.
    SetLineEnd {
        to: LineEnd,
    },
    /// Sets the line end types (`SCI_SETLINEENDTYPESALLOWED`), and regroups rows and flags.
    SetLineEndTypes {
        to: LineEndTypes,
    },
    /// Makes the current state the save point.
    SetSavePoint,
    /// Opens a group of changes (`SCI_BEGINUNDOACTION`).
    BeginGroup,
    /// Closes a group of changes (`SCI_ENDUNDOACTION`).
    EndGroup,
    /// Forgets the undo history, and makes the current state the save point (`SCI_EMPTYUNDOBUFFER`).
    ForgetHistory,
    /// Sets whether undo is collected (`SCI_SETUNDOCOLLECTION`).
    CollectUndo {
        on: bool,
    },
    /// Appends a container's step with this token to the undo history (`SCI_ADDUNDOACTION`).
    AppendContainer {
        token: i64,
        coalesce: bool,
    },
    /// Adds a marker with the number to the line (`SCI_MARKERADD`).
    AddMarker {
        line: usize,
        number: u32,
    },
    /// Adds a marker for each bit of the mask that is set, in rising order of the numbers.
    AddMarkers {
        line: usize,
        mask: u32,
    },
    /// Deletes the first marker with the number on the line; with `None` all markers of the line.
    DeleteMarker {
        line: usize,
        number: Option<u32>,
    },
    /// Deletes each marker with the number; with `None` all markers.
    DeleteMarkers {
        number: Option<u32>,
    },
    /// Deletes the marker with the handle (`SCI_MARKERDELETEHANDLE`).
    DeleteHandle {
        handle: u64,
    },
    /// Sets the fold level of the line (`SCI_SETFOLDLEVEL`).
    SetLevel {
        line: usize,
        level: u32,
    },
    /// Sets the line state (`SCI_SETLINESTATE`).
    SetState {
        line: usize,
        state: i32,
    },
    /// Sets end styled to `place` (`SCI_STARTSTYLING`).
    SetEndStyled {
        place: usize,
    },
    /// Sets the style of the `count` bytes from end styled on, and moves end styled to their end.
    StyleRun {
        count: usize,
        style: u8,
    },
    /// Like `StyleRun`, with the first `count` bytes of the message's text as the styles.
    StyleBytes {
        count: usize,
    },
    /// Moves end styled back to `start` if it is greater, and asks the sending view to style up to `end` (`SCN_STYLENEEDED`).
    NeedStyle {
        start: usize,
        end: usize,
    },
    /// Sets the indicator's value of the `count` bytes from `start` on (`SCI_INDICATORFILLRANGE`, `SCI_INDICATORCLEARRANGE`).
    FillIndicator {
        indicator: usize,
        start: usize,
        count: usize,
        value: u32,
    },
}

/// A change of the sending view alone.
#[derive(Clone, Copy)]
pub enum ViewChange {
    /// Sets anchor and caret.
    Select { anchor: usize, caret: usize },
    /// Sets the target.
    SetTarget { start: usize, end: usize },
    /// Sets the search flags (`SCI_SETSEARCHFLAGS`).
    SetSearchFlags { flags: u32 },
    /// Sets the kinds of modification that the view is notified of (`SCI_SETMODEVENTMASK`).
    SetMask { mask: u32 },
    /// Sets the current indicator (`SCI_SETINDICATORCURRENT`).
    SetIndicator { indicator: u32 },
    /// Sets the value that the current indicator is filled with (`SCI_SETINDICATORVALUE`).
    SetIndicatorValue { value: u32 },
    /// Sets whether pastes convert line ends (`SCI_SETPASTECONVERTENDINGS`).
    SetPasteConversion { on: bool },
    /// Starts or stops recording (`SCI_STARTRECORD`, `SCI_STOPRECORD`).
    SetRecording { on: bool },
    /// Shows the lines from `first` up to, but not including, `past`.
    ShowLines { first: usize, past: usize },
    /// Hides these lines, except line 0.
    HideLines { first: usize, past: usize },
    /// Sets whether the line is expanded, and shows or hides no line (`SCI_SETFOLDEXPANDED`).
    SetExpanded { line: usize, on: bool },
    /// Contracts the header, which hides its children.
    Contract { line: usize },
    /// Expands the header, which shows its children except those of contracted headers among them.
    Expand { line: usize },
    /// Shows the line and its fold parents, and expands these (`SCI_ENSUREVISIBLE`).
    EnsureVisible { line: usize },
}

/// A change of the session: of its clipboard, or of its documents and their references.
#[derive(Clone, Copy)]
pub enum SessionChange {
    /// The clipboard becomes the `count` bytes of the text from `start` on.
    Copy { start: usize, count: usize },
    /// The clipboard becomes the first `count` bytes of the message's text.
    CopyText { count: usize },
    /// Attaches the sending view to the document (`SCI_SETDOCPOINTER`).
    Attach { document: u32 },
    /// Attaches the sending view to a new document (`SCI_SETDOCPOINTER` with 0).
    AttachNew,
    /// Creates a document with one reference, held by the caller (`SCI_CREATEDOCUMENT`).
    Create { options: u32 },
    /// Adds a reference held by a caller (`SCI_ADDREFDOCUMENT`).
    AddReference { document: u32 },
    /// Releases a reference held by a caller, and drops the document if it was the last (`SCI_RELEASEDOCUMENT`).
    Release { document: u32 },
}

/// What a message is going to do. A plan owns no memory: it names texts by their place.
#[derive(Clone, Copy)]
pub enum Plan {
    /// Answers the value, and changes nothing.
    Answer {
        value: i64,
    },
    /// Answers the value and hands out the `count` bytes from `start` on.
    HandOut {
        value: i64,
        start: usize,
        count: usize,
    },
    /// Hands out byte, style, byte, style and so on, and answers the number of bytes handed out.
    HandOutStyled {
        start: usize,
        count: usize,
    },
    /// Performs the edit and what follows it, and answers the value.
    Edit {
        edit: Edit,
        value: i64,
        follow: Follow,
    },
    /// An edit of a read-only document: each view of the document is notified, and nothing changes.
    Attempt,
    /// Undoes the last transaction (`SCI_UNDO`).
    Undo,
    /// Redoes the next transaction (`SCI_REDO`).
    Redo,
    /// Changes the document, and answers the value.
    ChangeDocument {
        change: DocumentChange,
        value: i64,
    },
    /// Changes the sending view, and answers the value.
    ChangeView {
        change: ViewChange,
        value: i64,
    },
    /// Changes the session, and answers the value.
    ChangeSession {
        change: SessionChange,
        value: i64,
    },
}

/// A plan, or the first refusal that applies.
pub type Planned = Result<Plan, Refusal>;
