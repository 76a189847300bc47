//! Another setting of line ends: its effect on the lines of a text, and the starts that the text then has.

ghost use Rattle.std.specs.Prelude.{◌≡◌, ℕ, ◌+◌, ◌-◌, ◌^◌, ◌≤◌, ◌<◌, ◌++◌, ◌*◌, [], length};
ghost use Rattle.std.specs.Prelude.{true, false, IsOk, OnOk, IfOk, vec_len, vec_capacity};
ghost use Rattle.ed_model.specs.declared.plan.LineEndTypes.TheVariants.{Default, Unicode};
ghost use Rattle.ed_model.specs.Lines.{is_line_start, line_count};
ghost use Rattle.line_index.specs.Edits.{fresh_lines};
ghost use Rattle.line_index.specs.Index.{IsIndexOf, starts_within};
ghost use Rattle.line_index.specs.Settings.{edits_for_types, edits_to, inside_edits, line_past};

use crate::edit::LineEdit;
use crate::halves::{Halves, next_start, starts_at};
use crate::index::LineIndex;
use crate::starts::{add_starts, remove_starts};
use ed_model::LineEndTypes;
use partitioning::Place;
use std::alloc::{AllocError, Global};
use std::marker::Model;

// Returns whether a line starts at `place` if line ends of Unicode do not count.
fn starts_by_default(before: &[u8], after: &[u8], place: usize) -> bool
    ensures { result ≡ is_line_start Default (before.now ++ after.now) place }
{
    let types = LineEndTypes::Default;
    let text = Halves {
        types,
        before,
        after,
    };
    starts_at(text, place)
}

// A line starts at `start`. Returns how many lines start inside it if line ends of Unicode count, and where the next
// one starts, or `end`, the place past the end of the text.
fn count_inside(before: &[u8], after: &[u8], start: usize, end: usize) -> (usize, usize)
    requires { (start < end) × (end ≡ length before.now + length after.now + 1) }
    ensures lines { result.0 ≡ length (starts_within Unicode (before.now ++ after.now) (start + 1) result.1) }
    ensures within { (start < result.1) × (result.1 ≤ end) }
    ensures few { result.0 < result.1 - start }
    ensures none { (k : ℕ) → start < k → k < result.1 → is_line_start Default (before.now ++ after.now) k ≡ false }
    ensures next { result.1 < end → is_line_start Default (before.now ++ after.now) result.1 ≡ true }
{
    let types = LineEndTypes::Unicode;
    let text = Halves {
        types,
        before,
        after,
    };
    let mut lines = 0;
    let mut place = next_start(text, start + 1, end);
    'counting: while place < end {
        if starts_by_default(before, after, place) {
            return (lines, place);
        }
        lines += 1;
        place = next_start(text, place + 1, end);
    }
    (lines, end)
}

// Edits, in the order in which they are made. At most twice as many fit in as there are.
#[derive(Drop)]
struct EditList {
    edits: Vec<LineEdit>,
}

impl Model for EditList {
    ghost use Rattle.std.specs.Prelude.{◌*◌, ◌≤◌, List, vec_len, vec_capacity};
    ghost use Rattle.line_index.specs.declared.edit.LineEdit.{LineEdit};

    ghost Value = { List LineEdit };

    ghost view = { λ e. e.edits.items };

    ghost invariant = { λ e. vec_capacity e.edits ≤ 2 * vec_len e.edits };
}

// Appends the edit of a line that has `count` others inside, if `count` is not 0.
fn push_inside(
    edits: &mut EditList,
    types: LineEndTypes,
    line: usize,
    count: usize,
) -> Result<(), AllocError>
    requires { line + count + 1 < 2 ^ 64 }
    ensures edits { OnOk result (edits.new ≡ edits.old ++ inside_edits types line count) }
    ensures free { inside_edits types line count ≡ [] → IsOk result }
{
    if count == 0 {
        return Ok(());
    }
    let edit = match types {
        LineEndTypes::Default => LineEdit::Join { line, count },
        LineEndTypes::Unicode => LineEdit::Come {
            line: line + 1,
            count,
        },
    };
    vec_room::reserve(&mut edits.edits, 1)?;
    edits.edits.push_reserved(edit);
    Ok(())
}

// Returns the line behind one that has `count` others inside, and behind these.
fn line_past(types: LineEndTypes, line: usize, count: usize) -> usize
    requires { line + count + 1 < 2 ^ 64 }
    ensures { result ≡ line_past types line count }
{
    match types {
        LineEndTypes::Default => line + 1,
        LineEndTypes::Unicode => line + count + 1,
    }
}

// Returns the edits of all lines of the text. Reads each line as far as the next one.
fn all_inside(
    alloc: Global,
    types: LineEndTypes,
    before: &[u8],
    after: &[u8],
) -> Result<EditList, AllocError>
    requires { length before.now + length after.now < 2 ^ 63 }
    ensures edits { IfOk result (λ edits. edits ≡ edits_to types (before.now ++ after.now)) }
    ensures free { edits_to types (before.now ++ after.now) ≡ [] → IsOk result }
{
    let mut edits = EditList {
        edits: Vec::new(alloc),
    };
    let end = before.len() + after.len() + 1;
    let mut line = 0;
    let mut start = 0;
    'adding: while start < end {
        let (count, next) = count_inside(before, after, start, end);
        push_inside(&mut edits, types, line, count)?;
        line = line_past(types, line, count);
        start = next;
    }
    Ok(edits)
}

/// Returns how many fresh lines the edits insert.
pub fn fresh_lines(edits: &[LineEdit]) -> usize
    requires { fresh_lines edits.now < 2 ^ 64 }
    ensures { result ≡ fresh_lines edits.now }
{
    let mut lines = 0;
    for edit in edits {
        lines += match *edit {
            LineEdit::Come { line: _, count } => count,
            LineEdit::Join { line: _, count: _ } => 0,
            LineEdit::Restart => 1,
        };
    }
    lines
}

impl<P: Place> LineIndex<P> {
    /// Returns the effect on the lines of the setting `types`, as edits: if it adds line ends of Unicode, fresh lines
    /// are inserted; if it removes them, lines are joined; the same setting has no edits. `before` and `after` are the
    /// halves of the text, which is read once. The index does not change.
    ///
    /// # Errors
    ///
    /// `AllocError` if the allocation of the edits fails. No edits need none.
    pub fn edits_for_types(
        &self,
        alloc: Global,
        types: LineEndTypes,
        before: &[u8],
        after: &[u8],
    ) -> Result<Vec<LineEdit>, AllocError>
        requires text { IsIndexOf (before.now ++ after.now) self.now }
        requires short { self.now.length < 2 ^ 63 }
        ensures edits { IfOk result (λ edits. edits.items ≡ edits_for_types types self.now (before.now ++ after.now)) }
        ensures free { edits_for_types types self.now (before.now ++ after.now) ≡ [] → IsOk result }
        ensures at_most { IfOk result (λ edits. vec_capacity edits ≤ 2 * vec_len edits) }
    {
        if types == self.types {
            return Ok(Vec::new(alloc));
        }
        let EditList { edits } = all_inside(alloc, types, before, after)?;
        Ok(edits)
    }

    /// Sets which line ends count. The starts become those that the text has under `types`. `before` and `after` are
    /// the halves of the text. The fresh lines must fit in.
    pub fn set_types(&mut self, types: LineEndTypes, before: &[u8], after: &[u8])
        requires text { IsIndexOf (before.now ++ after.now) self.old }
        requires fits { line_count types (before.now ++ after.now) ≤ self.old.capacity }
        requires short { self.old.length < 2 ^ 63 }
        ensures set { (self.new.types ≡ types) × (self.new.capacity ≡ self.old.capacity) }
        ensures index { IsIndexOf (before.now ++ after.now) self.new }
    {
        if types == self.types {
            return;
        }
        self.types = types;
        let count = self.starts.count();
        let end = self.starts.length() + 1;
        remove_starts(&mut self.starts, 1, count);
        let text = Halves {
            types,
            before,
            after,
        };
        add_starts(&mut self.starts, text, 0, 1, 1, end);
    }
}
