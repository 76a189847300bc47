//! `Contraction`: how it is made and read, and its capacity.

ghost use Rattle.std.specs.Prelude.{◌≡◌, ◌^◌, ◌≤◌, ◌<◌, ℕ, true, false, length, replicate, OnErr};
ghost use Rattle.ed_model.specs.Rows.{fresh_flags};
ghost use Rattle.ed_model.specs.Folding.{is_visible, is_expanded};
ghost use Rattle.ed_model.specs.DisplayLines.{display_line, line_shown, all_visible};
ghost use Rattle.vec_room.specs.Reserved.{IsReserved};
ghost use Rattle.contraction.specs.ViewLines.{contracted_lines, fold_capacity, FoldsFit, HaveGrown};

use crate::line_set::LineSet;
use rising_numbers::Place;
use std::alloc::{AllocError, Global};
use std::marker::Model;

/// The flags of the lines of a view: which are visible, and which are expanded. Lines are counted from 0.
///
/// `P` is the type in which line numbers are stored, and bounds them.
#[derive(Drop)]
pub struct Contraction<P: Place> {
    pub(crate) hidden: LineSet<P>,
    pub(crate) contracted: LineSet<P>,
}

impl<P: Place> Model for Contraction<P> {
    ghost use Rattle.std.specs.Prelude.{◌≡◌};
    ghost use Rattle.contraction.specs.ViewLines.{ViewLines, view_lines};

    ghost Value = { ViewLines };

    ghost view = { λ c. view_lines c.hidden c.contracted };

    // Both sets have the same number of lines.
    ghost invariant = { λ c. c.contracted.length ≡ c.hidden.length };
}

#[tactic(auto, using(crate::proofs::Kept::kept_length))]
impl<P: Place> Contraction<P> {
    /// Returns the flags of `lines` lines, all visible and expanded. Allocates nothing.
    pub fn new(alloc: Global, lines: usize) -> Self
        requires { lines ≤ P.GREATEST }
        ensures { result ≡ record { flags = replicate lines fresh_flags; capacity = fold_capacity 0 0 } }
    {
        Contraction {
            hidden: LineSet::new(alloc, lines),
            contracted: LineSet::new(alloc, lines),
        }
    }

    /// Returns the number of lines.
    pub fn count(&self) -> usize
        ensures count { result ≡ length self.now.flags }
        ensures within { length self.now.flags ≤ P.GREATEST }
    {
        self.hidden.length()
    }

    /// Returns how many lines are contracted, in constant time.
    #[tactic(auto, using(crate::proofs::Kept::kept_contracted))]
    pub fn contracted_count(&self) -> usize
        ensures count { result ≡ contracted_lines self.now.flags }
        ensures within { contracted_lines self.now.flags < 2 ^ 63 }
    {
        self.contracted.count()
    }

    /// Returns whether the line is visible (`SCI_GETLINEVISIBLE`).
    #[tactic(auto, using(crate::proofs::Kept::kept_length, crate::proofs::Kept::kept_visible))]
    #[inline]
    pub fn visible(&self, line: usize) -> bool
        requires { line < length self.now.flags }
        ensures { result ≡ is_visible self.now.flags line }
    {
        !self.hidden.contains(line)
    }

    /// Returns whether the line is expanded (`SCI_GETFOLDEXPANDED`).
    #[tactic(auto, using(crate::proofs::Kept::kept_length, crate::proofs::Kept::kept_expanded))]
    #[inline]
    pub fn expanded(&self, line: usize) -> bool
        requires { line < length self.now.flags }
        ensures { result ≡ is_expanded self.now.flags line }
    {
        !self.contracted.contains(line)
    }

    // Returns the first contracted line from `line` on, or the number of lines if there is none.
    #[tactic(auto, using(crate::proofs::Kept::kept_length, crate::proofs::Kept::kept_expanded))]
    pub(crate) fn next_contracted(&self, line: usize) -> usize
        requires { line ≤ length self.now.flags }
        ensures from { line ≤ result }
        ensures expanded { (k : ℕ) → line ≤ k → k < result → k < length self.now.flags → is_expanded self.now.flags k ≡ true }
        ensures contracted { result < length self.now.flags → is_expanded self.now.flags result ≡ false }
    {
        self.contracted.next(line)
    }

    /// Returns whether all lines are visible, in constant time (`SCI_GETALLLINESVISIBLE`).
    #[tactic(auto, using(crate::proofs::Kept::kept_all_visible))]
    pub fn is_all_visible(&self) -> bool
        ensures { result ≡ all_visible self.now.flags }
    {
        self.hidden.count() == 0
    }

    /// Returns the display line of a line, counted from 0 (`SCI_VISIBLEFROMDOCLINE`). A hidden line has that of the
    /// visible line before it.
    #[tactic(auto, using(crate::proofs::Kept::kept_length, crate::proofs::Kept::kept_display))]
    #[inline]
    pub fn display_of(&self, line: usize) -> usize
        requires { line < length self.now.flags }
        ensures { result ≡ display_line self.now.flags line }
    {
        self.hidden.is_sound();
        let hidden = self.hidden.before_likely(line + 1);
        (line + 1 - hidden).saturating_sub(1)
    }

    /// Returns the line at a display line, or the number of lines past the last one (`SCI_DOCLINEFROMVISIBLE`).
    #[tactic(auto, using(crate::proofs::Kept::kept_shown))]
    #[inline]
    pub fn doc_of(&self, display: usize) -> usize
        ensures { result ≡ line_shown self.now.flags display }
    {
        self.hidden.nth_outside(display)
    }

    /// Makes room for `hidden` hidden lines in all, and for `contracted` contracted ones. Allocates nothing for those
    /// that fit.
    ///
    /// # Errors
    ///
    /// `AllocError` if an allocation fails. The flags are then unchanged. Room for hidden lines is made first, so more of
    /// them may fit than before.
    pub fn reserve(&mut self, hidden: usize, contracted: usize) -> Result<(), AllocError>
        ensures reserved { IsReserved (λ v. FoldsFit hidden contracted v.capacity) result self.old self.new }
        ensures grown { (self.new ≡ record self.old { capacity = self.new.capacity }) × HaveGrown hidden contracted self.old.capacity self.new.capacity }
        ensures err { OnErr result ((self.new.capacity.contracted ≡ self.old.capacity.contracted) × (contracted ≤ self.old.capacity.contracted → self.new ≡ self.old)) }
    {
        self.hidden.reserve(hidden)?;
        self.contracted.reserve(contracted)
    }
}
