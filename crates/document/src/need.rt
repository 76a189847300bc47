//! What steps need of a document.

ghost use Rattle.std.specs.Prelude.{◌≡◌};
ghost use Rattle.document.specs.Kept.{nothing_needed, amounts_added};

/// How much steps need of a document. Without an allocation they are made where that much more fits in.
#[derive(Clone, Copy)]
pub struct DocumentNeed {
    /// Bytes of text.
    pub text: usize,
    /// New lines: their starts, and their rows.
    pub lines: usize,
    /// Insertions into the indicators.
    pub insertions: usize,
    /// Steps of the history.
    pub steps: usize,
    /// The bytes of those steps, in all.
    pub bytes: usize,
}

impl DocumentNeed {
    /// Returns the need of nothing.
    pub fn none() -> Self
        ensures { result ≡ nothing_needed }
    {
        DocumentNeed {
            text: 0,
            lines: 0,
            insertions: 0,
            steps: 0,
            bytes: 0,
        }
    }

    /// Returns the sum of both. An amount that would exceed a `usize` is the greatest `usize`, for which no document
    /// has room.
    pub fn plus(self, other: Self) -> Self
        ensures { result ≡ amounts_added self other }
    {
        DocumentNeed {
            text: self.text.saturating_add(other.text),
            lines: self.lines.saturating_add(other.lines),
            insertions: self.insertions.saturating_add(other.insertions),
            steps: self.steps.saturating_add(other.steps),
            bytes: self.bytes.saturating_add(other.bytes),
        }
    }
}
