//! The options of a new document, as Scintilla documents them (`SC_DOCUMENTOPTION_..`).

/// `SC_DOCUMENTOPTION_STYLES_NONE`: it keeps no styles.
pub const STYLES_NONE: u32 = 0x1;

/// `SC_DOCUMENTOPTION_TEXT_LARGE`: its text may have 2 GiB and more.
pub const TEXT_LARGE: u32 = 0x100;
