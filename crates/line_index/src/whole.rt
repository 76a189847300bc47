//! A whole step whose bytes are inserted piece by piece: what is looked up before it, and its effect on lines.

ghost use Rattle.std.specs.Prelude.{◌≡◌};
ghost use Rattle.line_index.specs.Change.{change_since, lines_about};

use crate::change::{LineChange, LinesAbout};
use crate::index::LineIndex;
use crate::starts::{likely_line, lines_before, lines_near};
use partitioning::Place;

impl<P: Place> LineIndex<P> {
    /// Looks up the lines around a step at `place`, before the step is made. The step deletes the bytes up to `end`; of
    /// an insertion, `end` is its place.
    pub fn lines_about(&self, place: usize, end: usize) -> LinesAbout
        ensures { result ≡ lines_about place end self.now.starts }
    {
        let edited = self.starts.step_at();
        let line = likely_line(&self.starts, place.saturating_sub(1), edited);
        LinesAbout {
            before: lines_before(&self.starts, place, line),
            old_lines: lines_near(&self.starts, end, line),
        }
    }

    /// Returns the effect of a step on lines, once it is made; its bytes may have come piece by piece. `about` was
    /// looked up before it, and what it inserted ends at `end`, which is its place if it deletes. The effects of the
    /// single pieces do not add up to this: a line whose start the first piece moves on is not joined to anything by
    /// the next.
    pub fn change_since(&self, about: LinesAbout, end: usize) -> LineChange
        ensures { result ≡ change_since about end self.now.starts self.now.length }
    {
        LineChange {
            before: about.before,
            old_lines: about.old_lines,
            new_lines: lines_near(&self.starts, end, about.before),
            length: self.starts.length(),
        }
    }
}
