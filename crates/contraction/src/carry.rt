//! The flags of lines when the text changes.

ghost use Rattle.std.specs.Prelude.{◌≡◌, ◌+◌, ◌≤◌, ◌<◌, [], ◌∷◌, length};
ghost use Rattle.ed_model.specs.Rows.{flags_together, fresh_flags};
ghost use Rattle.line_index.specs.Edits.{with_fresh, with_joined, after_edit, after_edits, FitsLines, FitLines, fresh_by, fresh_lines};

use crate::contraction::Contraction;
use line_index::LineEdit;
use rising_numbers::Place;

#[tactic(auto, using(crate::proofs::Kept::kept_length))]
impl<P: Place> Contraction<P> {
    // Inserts fresh lines before a line.
    fn put_in(&mut self, line: usize, count: usize)
        requires line { line ≤ length self.old.flags }
        requires fits { length self.old.flags + count ≤ P.GREATEST }
        ensures { self.new ≡ record self.old { flags = with_fresh flags_together line count self.old.flags } }
    {
        self.hidden.put_lines_in(line, count);
        self.contracted.put_lines_in(line, count);
    }

    // Joins the lines behind a line to it. It keeps its flags.
    fn join(&mut self, line: usize, count: usize)
        requires { line + count < length self.old.flags }
        ensures { self.new ≡ record self.old { flags = with_joined flags_together line count self.old.flags } }
    {
        self.contracted.is_sound();
        self.hidden.take_lines_out(line + 1, count);
        self.contracted.take_lines_out(line + 1, count);
    }

    // Removes all lines, and inserts one fresh line.
    fn restart(&mut self)
        requires { 1 ≤ P.GREATEST }
        ensures { self.new ≡ record self.old { flags = fresh_flags ∷ [] } }
    {
        let lines = self.contracted.length();
        self.hidden.take_lines_out(0, lines);
        self.contracted.take_lines_out(0, lines);
        self.hidden.put_lines_in(0, 1);
        self.contracted.put_lines_in(0, 1);
    }

    // Performs one edit of the lines.
    fn carry_edit(&mut self, edit: LineEdit)
        requires fit { FitsLines (length self.old.flags) edit }
        requires fits { length self.old.flags + fresh_by edit ≤ P.GREATEST }
        ensures { self.new ≡ record self.old { flags = after_edit flags_together self.old.flags edit } }
    {
        match edit {
            LineEdit::Come { line, count } => self.put_in(line, count),
            LineEdit::Join { line, count } => self.join(line, count),
            LineEdit::Restart => self.restart(),
        }
    }

    /// Carries the flags through edits of the lines, in order: fresh lines are visible and expanded, and a line to
    /// which others are joined keeps its flags. Allocates nothing. Each edit costs a look-up, and the moves among the
    /// hidden and the contracted lines.
    pub fn carry(&mut self, edits: &[LineEdit])
        requires fit { FitLines (length self.old.flags) edits.now }
        requires fits { length self.old.flags + fresh_lines edits.now ≤ P.GREATEST }
        ensures { self.new ≡ record self.old { flags = after_edits flags_together edits.now self.old.flags } }
    {
        for edit in edits {
            self.carry_edit(*edit);
        }
    }
}
