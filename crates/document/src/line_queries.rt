//! Look-ups of a document's lines, which are counted from 0.

ghost use Rattle.std.specs.Prelude.{◌≡◌, ◌≤◌, ◌<◌, ◌+◌, ◌^◌, false, length};
ghost use Rattle.ed_model.specs.Lines.{line_of, start_of_line, start_after_line, end_of_line};
ghost use Rattle.ed_model.specs.Session.{text_of, lines_in, is_large};
ghost use Rattle.document.specs.Kept.{line_starts_in};

use crate::kept::Document;
use partitioning::Probes;

impl Document {
    /// Returns the number of lines, which is at least 1 (`SCI_GETLINECOUNT`).
    pub fn line_count(&self) -> usize
        ensures count { result ≡ lines_in self.now.document }
        ensures some { 0 < result }
        ensures within { result < 2 ^ 63 }
        ensures few { result ≤ length self.now.document.cells + 1 }
        ensures narrow { is_large self.now.document ≡ false → result < 2 ^ 32 }
    {
        self.parts.places.line_count()
    }

    /// Returns where a line starts, in bytes from 0 (`SCI_POSITIONFROMLINE`).
    pub fn line_start(&self, line: usize) -> usize
        requires { line < lines_in self.now.document }
        ensures start { result ≡ start_of_line self.now.document.line_end_types (text_of self.now.document) line }
        ensures within { result ≤ length self.now.document.cells }
        ensures small { result < 2 ^ 61 }
    {
        self.parts.places.line_start(line)
    }

    /// Returns where the line behind a line starts, or the length of the text if there is none.
    pub fn line_past(&self, line: usize) -> usize
        ensures past { result ≡ start_after_line self.now.document.line_end_types (text_of self.now.document) line }
        ensures within { result ≤ length self.now.document.cells }
        ensures small { result < 2 ^ 61 }
    {
        if line < self.parts.places.line_count() - 1 {
            return self.parts.places.line_start(line + 1);
        }
        self.parts.cells.len()
    }

    /// Returns where the line end of a line begins (`SCI_GETLINEENDPOSITION`). For the last line and all lines behind
    /// it, this is the length of the text.
    pub fn line_end(&self, line: usize) -> usize
        ensures end { result ≡ end_of_line self.now.document.line_end_types (text_of self.now.document) line }
        ensures within { result ≤ length self.now.document.cells }
        ensures small { result < 2 ^ 61 }
    {
        if line < self.parts.places.line_count() {
            let (before, after) = self.parts.cells.halves();
            return self.parts.places.line_end(line, before, after);
        }
        self.parts.cells.len()
    }

    /// Returns the line that holds `place` (`SCI_LINEFROMPOSITION`): the last one that starts at `place` or before it.
    /// For a place past the end this is the last of all.
    pub fn line_of(&self, place: usize) -> usize
        ensures line { result ≡ line_of (line_starts_in self.now.document) place }
        ensures within { result < lines_in self.now.document }
        ensures small { result < 2 ^ 63 }
    {
        let mut probes = Probes::new();
        self.parts.places.line_of(place, &mut probes)
    }
}
