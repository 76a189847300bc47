//! The bits that say what a change is, as Scintilla documents them (`modificationType`).

/// `SC_MOD_INSERTTEXT`: a text has been inserted.
pub const INSERT_TEXT: u32 = 0x1;

/// `SC_MOD_DELETETEXT`: a text has been deleted.
pub const DELETE_TEXT: u32 = 0x2;

/// `SC_MOD_CHANGESTYLE`: bytes got other styles.
pub const CHANGE_STYLE: u32 = 0x4;

/// `SC_MOD_CHANGEFOLD`: a line got another fold level.
pub const CHANGE_FOLD: u32 = 0x8;

/// `SC_PERFORMED_USER`: a message made the change, not UNDO or REDO.
pub const PERFORMED_USER: u32 = 0x10;

/// `SC_PERFORMED_UNDO`: UNDO made the change.
pub const PERFORMED_UNDO: u32 = 0x20;

/// `SC_PERFORMED_REDO`: REDO made the change.
pub const PERFORMED_REDO: u32 = 0x40;

/// `SC_MULTISTEPUNDOREDO`: the change is one of several that are undone or redone together.
pub const MULTI_STEP: u32 = 0x80;

/// `SC_LASTSTEPINUNDOREDO`: the change is the last that this UNDO or REDO makes.
pub const LAST_STEP: u32 = 0x100;

/// `SC_MOD_CHANGEMARKER`: the markers of a line changed.
pub const CHANGE_MARKER: u32 = 0x200;

/// `SC_MOD_BEFOREINSERT`: a text is about to be inserted.
pub const BEFORE_INSERT: u32 = 0x400;

/// `SC_MOD_BEFOREDELETE`: a text is about to be deleted.
pub const BEFORE_DELETE: u32 = 0x800;

/// `SC_MULTILINEUNDOREDO`: one of the changes that are undone or redone together added or removed lines.
pub const MULTI_LINE: u32 = 0x1000;

/// `SC_STARTACTION`: the change begins a transaction.
pub const START_ACTION: u32 = 0x2000;

/// `SC_MOD_CHANGEINDICATOR`: an indicator changed.
pub const CHANGE_INDICATOR: u32 = 0x4000;

/// `SC_MOD_CHANGELINESTATE`: a line got another state.
pub const CHANGE_LINE_STATE: u32 = 0x8000;

/// `SC_MOD_CONTAINER`: a step that a container put into the history.
pub const CONTAINER: u32 = 0x4_0000;

/// `SC_MODEVENTMASKALL`: the bits that a view may ask for.
pub const ALL: u32 = 0x7F_FFFF;
