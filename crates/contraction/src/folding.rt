//! Contracting and expanding of folds.

ghost use Rattle.std.specs.Prelude.{◌≡◌, ◌+◌, ◌≤◌, ◌<◌, length};
ghost use Rattle.ed_model.specs.Folding.{contracted as contracted_at, expanded as expanded_at, header_opened, revealed};
ghost use Rattle.contraction.specs.Folding.{is_closed as is_closed_at, closed_at, behind_closed, parents_opened};
ghost use Rattle.contraction.specs.ViewLines.{contracted_lines, CanFold};

use crate::contraction::Contraction;
use crate::folds::{fold_parent, is_header, last_child};
use crate::levels::Levels;
use rising_numbers::Place;

impl<P: Place> Contraction<P> {
    /// Contracts a header, and hides its children. There must be room for all lines to be hidden, and for one more
    /// contracted line.
    pub fn contract(&mut self, levels: &Levels, header: usize)
        requires can { CanFold levels.now header self.old.flags self.old.capacity }
        requires room { contracted_lines self.old.flags < self.old.capacity.contracted }
        ensures flags { self.new ≡ record self.old { flags = contracted_at levels.now header self.old.flags } }
        ensures lines { length self.new.flags ≡ length self.old.flags }
    {
        levels.lines_fit();
        self.set_expanded(header, false);
        let last = last_child(levels, header);
        self.hide(header + 1, last + 1);
    }

    // Returns whether a line is a contracted header.
    fn is_closed(&self, levels: &Levels, line: usize) -> bool
        requires lines { length levels.now ≡ length self.now.flags }
        requires line { line < length self.now.flags }
        ensures { result ≡ is_closed_at levels.now self.now.flags line }
    {
        is_header(levels, line) && !self.expanded(line)
    }

    // Hides the children of a line if it is a contracted header, and returns the line behind them. Otherwise returns
    // the next line.
    fn close(&mut self, levels: &Levels, line: usize) -> usize
        requires { CanFold levels.now line self.old.flags self.old.capacity }
        ensures flags { self.new ≡ record self.old { flags = closed_at levels.now line self.old.flags } }
        ensures next { result ≡ behind_closed levels.now line self.old.flags }
        ensures within { result ≤ length self.new.flags }
    {
        levels.lines_fit();
        if !self.is_closed(levels, line) {
            return line + 1;
        }
        let past = last_child(levels, line) + 1;
        self.hide(line + 1, past);
        past
    }

    /// Expands a header, and shows each of its children that no contracted header between them hides. There must be
    /// room for all lines to be hidden.
    pub fn expand(&mut self, levels: &Levels, header: usize)
        requires { CanFold levels.now header self.old.flags self.old.capacity }
        ensures flags { self.new ≡ record self.old { flags = expanded_at levels.now header self.old.flags } }
        ensures lines { length self.new.flags ≡ length self.old.flags }
    {
        levels.lines_fit();
        self.set_expanded(header, true);
        let last = last_child(levels, header);
        self.show(header + 1, last + 1);
        // Expanded lines hide nothing: only contracted ones are visited.
        let mut line = self.next_contracted(header + 1);
        'children: while line <= last {
            let next = self.close(levels, line);
            line = self.next_contracted(next);
        }
    }

    // Makes a header visible, and expands it if it is contracted.
    fn open(&mut self, levels: &Levels, header: usize)
        requires { CanFold levels.now header self.old.flags self.old.capacity }
        ensures flags { self.new ≡ record self.old { flags = header_opened levels.now self.old.flags header } }
        ensures lines { length self.new.flags ≡ length self.old.flags }
    {
        levels.lines_fit();
        let expanded = self.expanded(header);
        self.show(header, header + 1);
        if !expanded {
            self.expand(levels, header);
        }
    }

    // Opens the fold parents of a line, the nearest first: the flags are then the same as with the outermost first. A
    // loop, since there may be thousands of them.
    fn open_parents(&mut self, levels: &Levels, line: usize)
        requires { CanFold levels.now line self.old.flags self.old.capacity }
        ensures flags { self.new ≡ record self.old { flags = parents_opened levels.now line self.old.flags } }
        ensures lines { length self.new.flags ≡ length self.old.flags }
    {
        let mut inner = line;
        'parents: while let Some(parent) = fold_parent(levels, inner) {
            self.open(levels, parent);
            inner = parent;
        }
    }

    /// Makes a hidden line visible (`SCI_ENSUREVISIBLE`): its fold parents are made visible and expanded first, the
    /// outermost before the others. There must be room for all lines to be hidden.
    pub fn ensure(&mut self, levels: &Levels, line: usize)
        requires { CanFold levels.now line self.old.flags self.old.capacity }
        ensures flags { self.new ≡ record self.old { flags = revealed levels.now line self.old.flags } }
        ensures lines { length self.new.flags ≡ length self.old.flags }
    {
        levels.lines_fit();
        if self.visible(line) {
            return;
        }
        self.open_parents(levels, line);
        self.show(line, line + 1);
    }
}
