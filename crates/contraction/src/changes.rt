//! The changes of flags: lines are shown and hidden, expanded and contracted.

ghost use Rattle.std.specs.Prelude.{◌≡◌, ◌≤◌, ◌<◌, false, length};
ghost use Rattle.ed_model.specs.Folding.{lines_shown, lines_hidden, with_expanded};
ghost use Rattle.contraction.specs.ViewLines.{contracted_lines};

use crate::contraction::Contraction;
use rising_numbers::Place;

#[tactic(auto, using(crate::proofs::Kept::kept_length))]
impl<P: Place> Contraction<P> {
    /// Shows the lines from `first` up to `past` (`SCI_SHOWLINES`). Needs no room.
    pub fn show(&mut self, first: usize, past: usize)
        requires { past ≤ length self.old.flags }
        ensures flags { self.new ≡ record self.old { flags = lines_shown first past self.old.flags } }
        ensures lines { length self.new.flags ≡ length self.old.flags }
    {
        self.hidden.remove_range(first, past);
    }

    /// Hides the lines from `first` up to `past`, but never line 0 (`SCI_HIDELINES`). There must be room for all lines
    /// to be hidden.
    pub fn hide(&mut self, first: usize, past: usize)
        requires within { past ≤ length self.old.flags }
        requires room { length self.old.flags ≤ self.old.capacity.hidden }
        ensures flags { self.new ≡ record self.old { flags = lines_hidden first past self.old.flags } }
        ensures lines { length self.new.flags ≡ length self.old.flags }
    {
        self.hidden.insert_range(first.max(1), past);
    }

    /// Expands or contracts a line, and leaves its children as they are (`SCI_SETFOLDEXPANDED`). Contracting needs room
    /// for one more contracted line.
    pub fn set_expanded(&mut self, line: usize, on: bool)
        requires line { line < length self.old.flags }
        requires room { on ≡ false → contracted_lines self.old.flags < self.old.capacity.contracted }
        ensures flags { self.new ≡ record self.old { flags = with_expanded line on self.old.flags } }
        ensures lines { length self.new.flags ≡ length self.old.flags }
    {
        self.contracted.is_sound();
        if on {
            self.contracted.remove_range(line, line + 1);
        } else {
            self.contracted.insert(line);
        }
    }
}
