//! Steps of a text.

ghost use Rattle.std.specs.Prelude.{◌≡◌, ℕ, List};
ghost use Rattle.ed_model.specs.Steps.{place_of};
ghost use Rattle.document.specs.TextSteps.{step_in};

/// A step of the text: an insertion, whose bytes are lent, or a deletion by its place and length.
#[derive(Clone, Copy)]
pub enum TextStep<'a> {
    /// Inserts `bytes` at `place`, in bytes from 0.
    Insert { place: usize, bytes: &'a [u8] },
    /// Deletes `count` bytes from `place` on.
    Delete { place: usize, count: usize },
}

impl TextStep<'_> {
    // Returns the place of the step.
    #[inline(always)]
    pub(crate) fn place(self) -> usize
        ensures { (text : List ℕ) → result ≡ place_of (step_in self.entry text) }
    {
        match self {
            TextStep::Insert { place, .. } => place,
            TextStep::Delete { place, .. } => place,
        }
    }
}
