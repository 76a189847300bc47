//! Limits of a session.

/// The greatest values that a session may reach. The constants are the greatest that `Session::with_limits` accepts.
#[derive(Clone, Copy, Debug, PartialEq, Eq)]
pub struct Limits {
    /// The length of a document in bytes, unless it was made for large texts.
    pub doc_bytes: u64,
    /// The length in bytes of a document that was made with the option for large texts.
    pub large_bytes: u64,
    /// How many marker handles one document ever gives.
    pub handles: u64,
    /// How many document ids a session ever gives, and how many view ids.
    pub ids: u64,
    /// How many references one document has: views attached to it and references held by callers.
    pub refs: u64,
    /// How many views are open at a time.
    pub views: u64,
    /// How deeply undo groups may be nested.
    pub depth: u64,
}

impl Limits {
    /// The greatest length of a document, in bytes.
    pub const DOC_BYTES: u64 = 0x7FFF_FFFF;
    /// The greatest length of a document for large texts, in bytes.
    pub const LARGE_BYTES: u64 = 0x100_0000_0000;
    /// The greatest number of marker handles.
    pub const HANDLES: u64 = 0x7FFF_FFFF;
    /// The greatest number of ids.
    pub const IDS: u64 = 0x7FFF_FFFF;
    /// The greatest number of references.
    pub const REFS: u64 = 0x7FFF_FFFF;
    /// The greatest number of open views.
    pub const VIEWS: u64 = 1024;
    /// The greatest depth of undo groups.
    pub const DEPTH: u64 = 255;

    /// All limits at their greatest values.
    pub const GREATEST: Limits = Limits {
        doc_bytes: Limits::DOC_BYTES,
        large_bytes: Limits::LARGE_BYTES,
        handles: Limits::HANDLES,
        ids: Limits::IDS,
        refs: Limits::REFS,
        views: Limits::VIEWS,
        depth: Limits::DEPTH,
    };
}
