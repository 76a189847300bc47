//! Changes of a document that allocate nothing, and its list of views.

ghost use Rattle.std.specs.Prelude.{◌≡◌, ◌≤◌, ◌<◌, ◌+◌, ◌-◌, ◌^◌, length, OnErr};
ghost use Rattle.ed_model.specs.History.{sealed_outside_groups, saved, group_begun, group_ended};
ghost use Rattle.ed_model.specs.Session.{left_by};
ghost use Rattle.vec_room.specs.Reserved.{IsReserved};
ghost use Rattle.document.specs.Kept.{HasViewRoom};
ghost use Rattle.document.specs.Memory.{ReservesView};
ghost use Rattle.document.specs.Changes.{with_attached_view, with_held_by_callers, with_history};
ghost use Rattle.document.specs.Changes.{with_collecting, with_forgotten_history};

use crate::kept::Document;
use ed_model::LineEnd;
use std::alloc::AllocError;

impl Document {
    /// Sets whether callers may change the text (`SCI_SETREADONLY`).
    pub fn set_read_only(&mut self, on: bool)
        ensures { self.new ≡ record self.old { document = record self.old.document { read_only = on } } }
    {
        self.is_read_only = on;
    }

    /// Sets the line end that typing inserts (`SCI_SETEOLMODE`).
    pub fn set_line_end(&mut self, line_end: LineEnd)
        ensures { self.new ≡ record self.old { document = record self.old.document { line_end = line_end } } }
    {
        self.line_end = line_end;
    }

    /// Sets the place up to which the document is styled, in bytes from 0 (`SCI_STARTSTYLING`).
    pub fn set_end_styled(&mut self, place: usize)
        ensures { self.new ≡ record self.old { document = record self.old.document { end_styled = place } } }
    {
        self.end_styled = place;
    }

    /// Seals the last transaction unless a group is open: no step joins it any more.
    pub fn seal_outside_groups(&mut self)
        ensures { self.new ≡ with_history (sealed_outside_groups self.old.document.history) self.old }
    {
        self.history.seal_outside_groups();
    }

    /// Makes this state the save point: the document counts as unmodified here (`SCI_SETSAVEPOINT`).
    pub fn set_save_point(&mut self)
        ensures { self.new ≡ with_history (saved self.old.document.history) self.old }
    {
        self.history.set_save_point();
    }

    /// Opens a group (`SCI_BEGINUNDOACTION`). Its steps are one transaction, which no earlier step belongs to.
    pub fn begin_group(&mut self)
        requires { self.old.document.history.depth + 1 < 2 ^ 64 }
        ensures { self.new ≡ with_history (group_begun self.old.document.history) self.old }
    {
        self.history.begin_group();
    }

    /// Closes the innermost group, if one is open (`SCI_ENDUNDOACTION`).
    pub fn end_group(&mut self)
        ensures { self.new ≡ with_history (group_ended self.old.document.history) self.old }
    {
        self.history.end_group();
    }

    /// Forgets all steps, and frees their memory (`SCI_EMPTYUNDOBUFFER`). This state becomes the save point, and no
    /// group is open.
    pub fn forget_history(&mut self)
        ensures { self.new ≡ with_forgotten_history self.old }
    {
        self.history.empty();
    }

    /// Turns the collection of steps on or off (`SCI_SETUNDOCOLLECTION`). When it is off, the document forgets all
    /// steps and frees their memory, but not whether it counts as modified.
    pub fn set_collecting(&mut self, on: bool)
        ensures { self.new ≡ with_collecting on self.old }
    {
        self.history.set_collecting(on);
    }

    /// Adds a reference that a caller holds (`SCI_ADDREFDOCUMENT`).
    pub fn hold(&mut self)
        requires { self.old.document.held_by_callers + 1 < 2 ^ 32 }
        ensures { self.new ≡ with_held_by_callers (self.old.document.held_by_callers + 1) self.old }
    {
        self.held_by_callers += 1;
    }

    /// Releases a reference that a caller holds, if there is one (`SCI_RELEASEDOCUMENT`).
    pub fn release(&mut self)
        ensures { self.new ≡ with_held_by_callers (self.old.document.held_by_callers - 1) self.old }
    {
        self.held_by_callers = self.held_by_callers.saturating_sub(1);
    }

    /// Makes room for one more view. If there is none, it becomes room for twice as many as are attached, or for one.
    ///
    /// # Errors
    ///
    /// `AllocError` if the allocation fails. The document is then unchanged.
    pub fn reserve_view(&mut self) -> Result<(), AllocError>
        ensures reserved { IsReserved HasViewRoom result self.old self.new }
        ensures grown { ReservesView self.old self.new }
        ensures err { OnErr result (self.new ≡ self.old) }
    {
        vec_room::reserve(&mut self.views, 1)
    }

    /// Attaches a view, behind those that are attached. There must be room for it.
    pub fn attach_reserved(&mut self, view: u32)
        requires { HasViewRoom self.old }
        ensures { self.new ≡ with_attached_view view self.old }
    {
        self.views.push_reserved(view);
    }

    /// Detaches a view, if it is attached.
    pub fn detach(&mut self, view: u32)
        ensures { self.new ≡ record self.old { document = left_by view self.old.document } }
    {
        self.views.retain(|id| *id != view);
    }
}
