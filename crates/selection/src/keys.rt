//! The keys that move the caret.

ghost use Rattle.std.specs.Prelude.{◌≡◌, ◌+◌, ◌<◌, ◌≤◌, ◌++◌, length};
ghost use Rattle.ed_model.specs.Lines.{line_of};
ghost use Rattle.line_index.specs.Index.{IsIndexOf};
ghost use Rattle.selection.specs.Keys.{place_after, place_of_both, selection_after};

use crate::selections::Selection;
use line_index::LineIndex;
use partitioning::{Place, Probes};

/// The target of a key that moves the caret.
#[derive(Clone, Copy, Debug, PartialEq, Eq)]
pub enum Motion {
    /// One character to the left.
    CharacterLeft,
    /// One character to the right.
    CharacterRight,
    /// To the start of the caret's line.
    Home,
    /// To the end of the caret's line, before its line end.
    LineEnd,
    /// To the start of the text.
    DocumentStart,
    /// To the end of the text.
    DocumentEnd,
}

// Returns the line that holds `place`.
fn line_at<P: Place>(lines: &LineIndex<P>, place: usize) -> usize
    ensures line { result ≡ line_of lines.now.starts place }
    ensures within { result < length lines.now.starts }
{
    let mut probes = Probes::new();
    lines.line_of(place, &mut probes)
}

impl Motion {
    /// Returns where the key moves a caret at `caret`, in bytes from 0, regardless of the selection. This is the new
    /// caret if the selection is extended. `first` and `second` are the halves of the text, whose lines are `lines`.
    pub fn target<P: Place>(
        self,
        caret: usize,
        first: &[u8],
        second: &[u8],
        lines: &LineIndex<P>,
    ) -> usize
        requires caret { caret ≤ length first.now + length second.now }
        requires lines { IsIndexOf (first.now ++ second.now) lines.now }
        ensures { result ≡ place_after self lines.now.types (first.now ++ second.now) caret }
    {
        match self {
            Motion::CharacterLeft => char_cut::before(first, second, caret),
            Motion::CharacterRight => char_cut::after(first, second, caret),
            Motion::Home => lines.start(line_at(lines, caret)),
            Motion::LineEnd => lines.end(line_at(lines, caret), first, second),
            Motion::DocumentStart => 0,
            Motion::DocumentEnd => lines.length(),
        }
    }
}

impl Selection {
    // Returns where the key moves the caret together with the anchor. If something is selected, the keys for one
    // character move both to the left or right end of it.
    fn target<P: Place>(
        self,
        motion: Motion,
        first: &[u8],
        second: &[u8],
        lines: &LineIndex<P>,
    ) -> usize
        requires caret { self.caret ≤ length first.now + length second.now }
        requires lines { IsIndexOf (first.now ++ second.now) lines.now }
        ensures { result ≡ place_of_both motion lines.now.types (first.now ++ second.now) self }
    {
        match motion {
            Motion::CharacterLeft if !self.is_empty() => self.start(),
            Motion::CharacterRight if !self.is_empty() => self.end(),
            _ => motion.target(self.caret, first, second, lines),
        }
    }

    /// Returns the selection after the key. If it `extend`s the selection, only the caret moves. Otherwise caret and
    /// anchor both move, and if something is selected, the keys for one character move them to the left or right end of
    /// it. `first` and `second` are the halves of the text, whose lines are `lines`. (Scintilla: keyboard commands,
    /// such as `SCI_CHARLEFT` and `SCI_CHARLEFTEXTEND`.)
    pub fn after_key<P: Place>(
        self,
        motion: Motion,
        extend: bool,
        first: &[u8],
        second: &[u8],
        lines: &LineIndex<P>,
    ) -> Selection
        requires caret { self.caret ≤ length first.now + length second.now }
        requires lines { IsIndexOf (first.now ++ second.now) lines.now }
        ensures { result ≡ selection_after motion extend lines.now.types (first.now ++ second.now) self }
    {
        if extend {
            return Selection {
                caret: motion.target(self.caret, first, second, lines),
                ..self
            };
        }
        Selection::at(self.target(motion, first, second, lines))
    }
}
