//! The capacity that folding needs, and making a line visible.

ghost use Rattle.std.specs.Prelude.{◌≡◌, ◌<◌, ◌+◌, length};
ghost use Rattle.ed_model.specs.declared.plan.ViewChange.TheVariants as change_to;
ghost use Rattle.ed_model.specs.Folding.{is_visible};
ghost use Rattle.vec_room.specs.Reserved.{IsReserved};
ghost use Rattle.contraction.specs.ViewLines.{HaveGrown};
ghost use Rattle.ed_view.specs.Kept.{with_change};
ghost use Rattle.ed_view.specs.Folding.{fold_need as need_of, HasFoldRoom};

use crate::view::View;
use contraction::Levels;
use ed_model::ViewChange;
use std::alloc::AllocError;

/// The capacity that a change of a view needs.
#[derive(Clone, Copy)]
pub struct FoldNeed {
    /// How many lines in all may be hidden.
    pub hidden: usize,
    /// How many lines in all may be contracted.
    pub contracted: usize,
}

impl View {
    // Returns whether the line is visible, or the view has no such line.
    fn shows(&self, line: usize) -> bool
        ensures { result ≡ is_visible self.now.view.flags line }
    {
        line >= self.lines.count() || self.lines.visible(line)
    }

    /// Returns the capacity that the change needs. To make a line visible that already is needs none.
    pub fn fold_need(&self, change: ViewChange) -> FoldNeed
        ensures { result ≡ need_of self.now.view.flags change }
    {
        let lines = self.lines.count();
        match change {
            ViewChange::SetExpanded { on, .. } => FoldNeed {
                hidden: 0,
                contracted: if on {
                    0
                } else {
                    self.lines.contracted_count() + 1
                },
            },
            ViewChange::Contract { .. } => FoldNeed {
                hidden: lines,
                contracted: self.lines.contracted_count() + 1,
            },
            ViewChange::HideLines { .. } | ViewChange::Expand { .. } => FoldNeed {
                hidden: lines,
                contracted: 0,
            },
            ViewChange::EnsureVisible { line } => FoldNeed {
                hidden: if self.shows(line) { 0 } else { lines },
                contracted: 0,
            },
            _ => FoldNeed {
                hidden: 0,
                contracted: 0,
            },
        }
    }

    /// Makes room for lines to be hidden and contracted. Allocates nothing for those that fit.
    ///
    /// # Errors
    ///
    /// `AllocError` if an allocation fails. The view is then unchanged, and its capacity is at least what it was.
    pub fn reserve_folding(&mut self, need: FoldNeed) -> Result<(), AllocError>
        ensures reserved { IsReserved (λ v. HasFoldRoom v.capacity need) result self.old self.new }
        ensures grown { (self.new ≡ record self.old { capacity = self.new.capacity }) × HaveGrown need.hidden need.contracted self.old.capacity self.new.capacity }
    {
        self.lines.reserve(need.hidden, need.contracted)
    }

    /// Makes a hidden line visible (`SCI_ENSUREVISIBLE`): its fold parents are made visible and expanded first, the
    /// outermost before the others. There must be room for all lines to be hidden, unless the line is visible already.
    pub(crate) fn ensure_visible(&mut self, levels: &Levels, line: usize)
        requires levels { length levels.now ≡ length self.old.view.flags }
        requires within { line < length self.old.view.flags }
        requires room { HasFoldRoom self.old.capacity (need_of self.old.view.flags (change_to.EnsureVisible line)) }
        ensures { self.new ≡ with_change levels.now (change_to.EnsureVisible line) self.old }
    {
        if self.shows(line) {
            return;
        }
        self.lines.ensure(levels, line);
    }
}
