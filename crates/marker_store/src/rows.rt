//! Changes of the markers of one line, and of all lines.
ghost use Rattle.std.specs.Prelude.{◌≡◌, ◌⊎◌, ◌≤◌, ◌<◌, ◌+◌, [], length, slice_index_or, slice_set};
ghost use Rattle.ed_model.specs.Changes.{without_first, without_marker};
ghost use Rattle.marker_store.specs.Chains.{all_laid, all_put};
ghost use Rattle.marker_store.specs.Dropping.{kept, kept_rows};
ghost use Rattle.marker_store.specs.Lines.{with_joined};
ghost use Rattle.marker_store.specs.Store.{all_lines};

use crate::chains::Chains;
use crate::drops::Drops;
use std::alloc::Allocator;

impl<A: Allocator> Chains<A> {
    // Lays the markers of the line aside, so that the first one is in front.
    fn lay_all(&mut self, line: usize)
        requires { line < length self.old.rows }
        ensures { self.new ≡ all_laid line self.old }
    {
        'laying: while !self.is_bare(line) {
            self.lay(line);
        }
    }

    // Puts the markers that are laid aside behind those of the line, but for those that `drops` names.
    fn put_all_back(&mut self, line: usize, drops: Drops)
        requires { line < length self.old.rows }
        ensures { self.new ≡ all_put line (kept drops) self.old }
    {
        'putting: while self.has_aside() {
            let marker = self.first();
            if drops.takes(&marker) {
                self.free();
            } else {
                self.put_back(line);
            }
        }
    }

    // Puts the markers that are laid aside behind those of the line, but for the first with the number.
    fn put_back_but_first(&mut self, line: usize, number: u32)
        requires { line < length self.old.rows }
        ensures { self.new ≡ all_put line (without_first number) self.old }
    {
        'putting: while self.has_aside() {
            let marker = self.first();
            if marker.number() == number {
                self.free();
                self.put_all_back(line, Drops::Nothing);
                return;
            }
            self.put_back(line);
        }
    }

    /// Deletes the markers of the line that `drops` names. No marker is laid aside.
    pub(crate) fn delete(&mut self, line: usize, drops: Drops)
        requires line { line < length self.old.rows }
        requires none { self.old.aside ≡ [] }
        ensures { self.new ≡ record self.old { rows = slice_set self.old.rows line (kept drops (slice_index_or self.old.rows line [])) } }
    {
        self.lay_all(line);
        self.put_all_back(line, drops);
    }

    /// Deletes the first marker of the line with the number. No marker is laid aside.
    pub(crate) fn delete_first(&mut self, line: usize, number: u32)
        requires line { line < length self.old.rows }
        requires none { self.old.aside ≡ [] }
        ensures { self.new ≡ record self.old { rows = slice_set self.old.rows line (without_first number (slice_index_or self.old.rows line [])) } }
    {
        self.lay_all(line);
        self.put_back_but_first(line, number);
    }

    /// Deletes the first marker of the line with the number, or all of its markers. No marker is laid aside.
    pub(crate) fn delete_on(&mut self, line: usize, number: Option<u32>)
        requires { self.old.aside ≡ [] }
        ensures { self.new ≡ record self.old { rows = slice_set self.old.rows line (without_marker number (slice_index_or self.old.rows line [])) } }
    {
        if line >= self.lines() {
            return;
        }
        match number {
            None => self.delete(line, Drops::Each),
            Some(number) => self.delete_first(line, number),
        }
    }

    /// Gives each of `lines` lines a chain, unless all have one. There must be room for them.
    pub(crate) fn open(&mut self, lines: usize)
        requires headed { (self.old.rows ≡ []) ⊎ (length self.old.rows ≡ lines) }
        requires room { lines ≤ self.old.line_capacity }
        ensures { self.new ≡ record self.old { rows = all_lines lines self.old.rows } }
    {
        if self.lines() == 0 {
            self.insert(0, lines);
        }
    }

    /// Deletes the markers of all lines that `drops` names. No marker is laid aside.
    pub(crate) fn delete_all(&mut self, drops: Drops)
        requires { self.old.aside ≡ [] }
        ensures { self.new ≡ record self.old { rows = kept_rows drops self.old.rows } }
    {
        let lines = self.lines();
        let mut line = self.next_marked(0);
        'deleting: while line < lines {
            self.delete(line, drops);
            line = self.next_marked(line + 1);
        }
    }

    /// Joins the line behind the line to it: its markers follow those of the line. No marker is laid aside.
    pub(crate) fn join(&mut self, line: usize)
        requires line { line + 1 < length self.old.rows }
        requires none { self.old.aside ≡ [] }
        ensures { self.new ≡ record self.old { rows = with_joined line 1 self.old.rows } }
    {
        let lines = self.lines();
        prove!(line < lines);
        let behind = line + 1;
        self.lay_all(behind);
        self.put_all_back(line, Drops::Nothing);
        self.remove(behind);
    }
}
