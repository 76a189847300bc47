//! The parts of a line's fold level, as Scintilla documents them (`SC_FOLDLEVEL..`).

/// `SC_FOLDLEVELBASE`: the level of a line that nobody gave one.
pub const BASE: u32 = 0x400;

/// `SC_FOLDLEVELNUMBERMASK`: the bits of the number, the depth of a line.
pub const NUMBER: u32 = 0xFFF;

/// `SC_FOLDLEVELWHITEFLAG`: the line is blank.
pub const WHITE: u32 = 0x1000;

/// `SC_FOLDLEVELHEADERFLAG`: the line heads a fold.
pub const HEADER: u32 = 0x2000;
