//! The line ends that count in a document, and a container's own steps.

ghost use Rattle.std.specs.Prelude.{◌≡◌, ◌≤◌, ◌-◌, ◌*◌, ◌+◌, [], length, IsOk, IfOk, vec_len, vec_capacity};
ghost use Rattle.ed_model.specs.declared.plan.DocumentChange.TheVariants.{AppendContainer, SetLineEndTypes};
ghost use Rattle.ed_model.specs.Session.{lines_in};
ghost use Rattle.line_index.specs.Edits.{fresh_lines};
ghost use Rattle.vec_room.specs.Reserved.{IsReserved};
ghost use Rattle.document.specs.Kept.{HasHistoryRoom, HasLineRoom};
ghost use Rattle.document.specs.Changes.{after_change, container_need, line_type_edits, stored_by};
ghost use Rattle.document.specs.Memory.{ReservesLines, ReservesStep};

use crate::kept::Document;
use crate::need::DocumentNeed;
use ed_model::{LineEndTypes, rows_match_lines, rows_that_meet};
use line_index::{LineEdit, edits_of_settings};
use std::alloc::{AllocError, Global};

impl Document {
    /// Returns the effect on the lines, as edits, if the line ends of `types` count from now on. Reads the text once.
    ///
    /// # Errors
    ///
    /// `AllocError` if the allocation of the edits fails. No edits need none.
    pub fn line_type_edits(
        &self,
        alloc: Global,
        types: LineEndTypes,
    ) -> Result<Vec<LineEdit>, AllocError>
        ensures edits { IfOk result (λ edits. edits.items ≡ line_type_edits types self.now.document) }
        ensures few { IfOk result (λ edits. lines_in self.now.document + fresh_lines edits.items ≤ length self.now.document.cells + 1) }
        ensures free { line_type_edits types self.now.document ≡ [] → IsOk result }
        ensures at_most { IfOk result (λ edits. vec_capacity edits ≤ 2 * vec_len edits) }
    {
        edits_of_settings();
        let (before, after) = self.parts.cells.halves();
        self.parts
            .places
            .edits_for_types(alloc, types, before, after)
    }

    /// Makes room for `lines` more lines. The memory for their starts grows to that or to twice its size, and not at
    /// all if they fit in.
    ///
    /// # Errors
    ///
    /// `AllocError` if an allocation fails. The document is then unchanged, and may have more memory.
    pub fn reserve_lines(&mut self, lines: usize) -> Result<(), AllocError>
        ensures reserved { IsReserved (HasLineRoom lines) result self.old self.new }
        ensures grown { ReservesLines lines self.old self.new }
    {
        self.parts.places.reserve_lines(lines)?;
        self.parts.rows.reserve_lines(lines)
    }

    /// Sets which line ends count (`SCI_SETLINEENDTYPESALLOWED`). `edits` is the effect on the lines
    /// (`line_type_edits`), through which the rows are carried. There must be room for the fresh lines. The caller
    /// carries the flags that views keep of the lines.
    pub fn set_line_end_types(&mut self, types: LineEndTypes, edits: &[LineEdit])
        requires edits { edits.now ≡ line_type_edits types self.old.document }
        requires room { HasLineRoom (fresh_lines edits.now) self.old }
        ensures document { self.new ≡ record (after_change [] (SetLineEndTypes types) self.old) { stored = stored_by edits.now self.old.stored } }
    {
        edits_of_settings();
        rows_that_meet();
        rows_match_lines();
        let (before, after) = self.parts.cells.halves();
        self.parts.places.set_types(types, before, after);
        self.parts.rows.carry(edits);
    }

    /// Makes room for a container's own step in the history, if that collects steps.
    ///
    /// # Errors
    ///
    /// `AllocError` if an allocation fails. The document is then unchanged, and its history may have more memory.
    pub fn reserve_container(&mut self) -> Result<(), AllocError>
        ensures reserved { IsReserved (HasHistoryRoom container_need) result self.old self.new }
        ensures grown { ReservesStep self.old self.new }
    {
        self.history.reserve(1, 0)
    }

    /// Appends a container's own step with this token to the history (`SCI_ADDUNDOACTION`). A step that does not
    /// coalesce seals its transaction, unless a group is open. There must be room for it in the history.
    pub fn append_container_reserved(&mut self, token: i64, coalesce: bool)
        requires { HasHistoryRoom container_need self.old }
        ensures { self.new ≡ after_change [] (AppendContainer token coalesce) self.old }
    {
        self.history.append_container_reserved(token, coalesce);
    }
}
