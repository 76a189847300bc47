//! The numbers of notifications, as Scintilla documents them (`SCN_` and the name): the codes of notes.

/// The text up to a position wants styles.
pub const STYLE_NEEDED: u32 = 2000;

/// The document is again as it was saved.
pub const SAVE_POINT_REACHED: u32 = 2002;

/// The document is no longer as it was saved.
pub const SAVE_POINT_LEFT: u32 = 2003;

/// Somebody tried to change a read-only document.
pub const MODIFY_ATTEMPT: u32 = 2004;

/// The document changed, or is about to.
pub const MODIFIED: u32 = 2008;

/// A message that the view is recording.
pub const MACRO_RECORD: u32 = 2009;
