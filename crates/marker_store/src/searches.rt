//! Searches for a line.
ghost use Rattle.std.specs.Prelude.{◌≡◌};
ghost use Rattle.marker_store.specs.Lines.{has_handle, is_met, first_from, last_up_to};

use crate::chains::Chains;
use std::alloc::Allocator;

impl<A: Allocator> Chains<A> {
    /// Returns the first line that has a marker with the handle.
    pub(crate) fn line_of_handle(&self, handle: u32) -> Option<usize>
        ensures { result ≡ first_from (has_handle handle self.now.rows) self.now.rows 0 }
    {
        let lines = self.lines();
        let mut line = self.next_marked(0);
        'searching: while line < lines {
            if self.has(line, handle) {
                return Some(line);
            }
            line = self.next_marked(line + 1);
        }
        None
    }

    /// Returns the first line, from `from` on, whose mask has a bit in common with `mask`.
    pub(crate) fn next(&self, from: usize, mask: u32) -> Option<usize>
        ensures { result ≡ first_from (is_met mask self.now.rows) self.now.rows from }
    {
        let lines = self.lines();
        if from >= lines {
            return None;
        }
        let mut line = self.next_marked(from);
        'searching: while line < lines {
            if self.mask(line) & mask != 0 {
                return Some(line);
            }
            line = self.next_marked(line + 1);
        }
        None
    }

    /// Returns the last line, up to and including `from`, whose mask has a bit in common with `mask`.
    pub(crate) fn previous(&self, from: usize, mask: u32) -> Option<usize>
        ensures { result ≡ last_up_to (is_met mask self.now.rows) self.now.rows from }
    {
        let mut end = self.previous_marked(self.lines().min(from.saturating_add(1)));
        'passing: while end > 0 {
            let line = end - 1;
            if self.mask(line) & mask != 0 {
                return Some(line);
            }
            end = self.previous_marked(line);
        }
        None
    }
}
