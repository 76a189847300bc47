//! The markers of lines as chains of links.
ghost use Rattle.std.specs.Prelude.{ℕ, ◌≡◌, ◌≤◌, ◌<◌, ◌+◌, ◌-◌, ◌^◌, ◌==◌, ◌++◌, [], ◌∷◌, length, not, replicate, slice_index_or, slice_set, OnErr};
ghost use Rattle.std.specs.List.{list_any};
ghost use Rattle.ed_model.specs.LinePlans.{mask_of};
ghost use Rattle.split_vector.specs.Split.{inserted, deleted};
ghost use Rattle.marker_store.specs.Lines.{GrowsFor};
ghost use Rattle.marker_store.specs.Chains.{chained, held, link_at, relinked, MarkersFit, LinesFit, IsLaid, IsBack, IsFreed};
ghost use Rattle.vec_room.specs.Reserved.{IsReserved};

use crate::links::Link;
use crate::markers::Marker;
use crate::zeros::{first_set, last_set};
use split_vector::SplitVector;
use std::alloc::{AllocError, Allocator, Global};
use std::marker::Model;

/// The markers of each line, as a chain of links from the last marker to the first. All links stand in one vector, in no
/// order, and a chain may be laid aside while that of its line is changed. Links without a marker form the spare chain.
#[derive(Drop)]
pub struct Chains<A: Allocator = Global> {
    links: SplitVector<Link, A>,
    // The number of the first link of each line's chain, or 0. A link has its index plus 1 as its number.
    heads: SplitVector<u32, A>,
    spare: u32,
    aside: u32,
    // How many links are spare.
    unused: usize,
}

impl<A: Allocator> Model for Chains<A> {
    ghost use Rattle.marker_store.specs.Chains.{Chained, chained_code};

    ghost Value = { Chained };

    ghost coded = { chained_code };

    ghost use Rattle.marker_store.specs.Fields.{chains_in, AreSound};

    ghost view = { chains_in };

    ghost invariant = { AreSound };
}

// Lets the link with the number stand before another one, and returns what it stood before.
#[inline]
fn relink<A: Allocator>(links: &mut SplitVector<Link, A>, at: u32, next: u32) -> u32
    requires { (0 < at) × (at ≤ length links.old.items) }
    ensures next { result ≡ (link_at links.old.items at).next }
    ensures links { links.new ≡ record links.old { items = relinked links.old.items at (link_at links.old.items at).marker next } }
{
    let index = at as usize - 1;
    let link = links.get(index);
    links.set(index, Link::new(link.marker(), next));
    link.next()
}

impl<A: Allocator + Copy> Chains<A> {
    /// Returns no lines. Allocates nothing.
    pub(crate) fn new(alloc: A) -> Self
        ensures { result ≡ chained [] [] 0 0 }
    {
        Chains {
            links: SplitVector::new(alloc),
            heads: SplitVector::new(alloc),
            spare: 0,
            aside: 0,
            unused: 0,
        }
    }
}

impl<A: Allocator> Chains<A> {
    /// Returns how many lines have a chain.
    #[tactic(auto, using(crate::proofs::Deeds::lines_seen))]
    pub(crate) fn lines(&self) -> usize
        ensures lines { result ≡ length self.now.rows }
        ensures fits { LinesFit 0 self.now × (self.now.line_capacity < 2 ^ 63) }
    {
        self.heads.len()
    }

    /// Returns how many links have a marker.
    pub(crate) fn len(&self) -> usize
        ensures len { result ≡ held self.now }
        ensures fits { MarkersFit 0 self.now × (self.now.capacity < 2 ^ 63) }
    {
        self.links.len() - self.unused
    }

    /// Returns for how many markers there is memory.
    pub(crate) fn capacity(&self) -> usize
        ensures { result ≡ self.now.capacity }
    {
        self.links.capacity()
    }

    /// Makes room for `count` more markers.
    pub(crate) fn reserve(&mut self, count: usize) -> Result<(), AllocError>
        ensures reserved { IsReserved (MarkersFit count) result self.old self.new }
        ensures grown { (self.new ≡ record self.old { capacity = self.new.capacity }) × GrowsFor (held self.old + count) self.old.capacity self.new.capacity }
        ensures err { OnErr result (self.new ≡ self.old) }
    {
        // A use of the field brings what always holds of it: its items fit in.
        let _ = self.links.len();
        self.links.reserve(count.saturating_sub(self.unused))
    }

    /// Makes room for the chains of `count` more lines.
    #[tactic(auto, using(crate::proofs::Deeds::lines_seen))]
    pub(crate) fn reserve_lines(&mut self, count: usize) -> Result<(), AllocError>
        ensures reserved { IsReserved (LinesFit count) result self.old self.new }
        ensures grown { (self.new ≡ record self.old { line_capacity = self.new.line_capacity }) × GrowsFor (length self.old.rows + count) self.old.line_capacity self.new.line_capacity }
        ensures err { OnErr result (self.new ≡ self.old) }
    {
        self.heads.reserve(count)
    }

    /// Inserts `count` lines without markers before the line, or at the end. There must be room for them.
    #[tactic(auto, using(crate::proofs::Deeds::lines_seen))]
    pub(crate) fn insert(&mut self, line: usize, count: usize)
        requires line { line ≤ length self.old.rows }
        requires room { LinesFit count self.old }
        ensures { self.new ≡ record self.old { rows = inserted self.old.rows line (replicate count []) } }
    {
        self.heads.insert_fill_reserved(line, count, 0);
    }

    /// Removes a line without markers.
    #[tactic(auto, using(crate::proofs::Deeds::lines_seen))]
    pub(crate) fn remove(&mut self, line: usize)
        requires line { line < length self.old.rows }
        requires bare { slice_index_or self.old.rows line [] ≡ [] }
        ensures { self.new ≡ record self.old { rows = deleted self.old.rows line 1 } }
    {
        self.heads.delete(line, 1);
    }

    /// Removes all lines and all markers. Their memory stays.
    pub(crate) fn clear(&mut self)
        ensures { self.new ≡ record self.old { rows = []; aside = [] } }
    {
        self.links.delete(0, self.links.len());
        self.heads.delete(0, self.heads.len());
        self.spare = 0;
        self.aside = 0;
        self.unused = 0;
    }

    /// Adds a marker behind those of the line. There must be room for it.
    #[tactic(auto, using(crate::proofs::Deeds::lines_seen))]
    pub(crate) fn push(&mut self, line: usize, marker: Marker)
        requires line { line < length self.old.rows }
        requires room { MarkersFit 1 self.old }
        requires few { held self.old + 1 < 2 ^ 32 }
        ensures { self.new ≡ record self.old { rows = slice_set self.old.rows line (slice_index_or self.old.rows line [] ++ (marker ∷ [])) } }
    {
        let next = self.heads.get(line);
        if self.unused > 0 {
            let at = self.spare;
            let index = at as usize - 1;
            self.spare = self.links.get(index).next();
            self.links.set(index, Link::new(marker, next));
            self.heads.set(line, at);
            self.unused -= 1;
            return;
        }
        let count = self.links.len();
        self.links.insert_reserved(count, Link::new(marker, next));
        self.heads.set(line, count as u32 + 1);
    }

    /// Returns whether the line has no marker.
    #[inline]
    #[tactic(auto, using(crate::proofs::Deeds::lines_seen))]
    pub(crate) fn is_bare(&self, line: usize) -> bool
        requires { line < length self.now.rows }
        ensures { result ≡ (length (slice_index_or self.now.rows line []) == 0) }
    {
        self.heads.get(line) == 0
    }

    /// Returns the first line from `from` on that has a marker, or how many lines there are.
    pub(crate) fn next_marked(&self, from: usize) -> usize
        requires { from ≤ length self.now.rows }
        ensures within { (from ≤ result) × (result ≤ length self.now.rows) }
        ensures bare { (k : ℕ) → from ≤ k → k < result → slice_index_or self.now.rows k [] ≡ [] }
    {
        let (left, right) = self.heads.halves();
        if from < left.len() {
            let line = first_set(left, from);
            if line < left.len() {
                return line;
            }
        }
        left.len() + first_set(right, from.saturating_sub(left.len()))
    }

    /// Returns the line behind the last line before `end` that has a marker, or 0 if there is none.
    pub(crate) fn previous_marked(&self, end: usize) -> usize
        requires { end ≤ length self.now.rows }
        ensures within { result ≤ end }
        ensures bare { (k : ℕ) → result ≤ k → k < end → slice_index_or self.now.rows k [] ≡ [] }
    {
        let (left, right) = self.heads.halves();
        if end > left.len() {
            let behind = last_set(right, end - left.len());
            if behind > 0 {
                return left.len() + behind;
            }
        }
        last_set(left, end.min(left.len()))
    }

    /// Lays the last marker of the line aside.
    #[tactic(auto, using(crate::proofs::Deeds::lines_seen))]
    pub(crate) fn lay(&mut self, line: usize)
        requires line { line < length self.old.rows }
        requires some { 0 < length (slice_index_or self.old.rows line []) }
        ensures { IsLaid line self.old self.new }
    {
        let at = self.heads.get(line);
        let next = relink(&mut self.links, at, self.aside);
        self.heads.set(line, next);
        self.aside = at;
    }

    /// Returns whether a marker is laid aside.
    #[inline]
    pub(crate) fn has_aside(&self) -> bool
        ensures { result ≡ not (length self.now.aside == 0) }
    {
        self.aside != 0
    }

    /// Returns the marker that was laid aside last.
    #[inline]
    pub(crate) fn first(&self) -> Marker
        requires { 0 < length self.now.aside }
        ensures { result ≡ slice_index_or self.now.aside 0 result }
    {
        self.links.get(self.aside as usize - 1).marker()
    }

    /// Puts the marker that was laid aside last behind those of the line.
    #[tactic(auto, using(crate::proofs::Deeds::lines_seen))]
    pub(crate) fn put_back(&mut self, line: usize)
        requires line { line < length self.old.rows }
        requires some { 0 < length self.old.aside }
        ensures { IsBack line self.old self.new }
    {
        let at = self.aside;
        let next = relink(&mut self.links, at, self.heads.get(line));
        self.aside = next;
        self.heads.set(line, at);
    }

    /// Deletes the marker that was laid aside last.
    pub(crate) fn free(&mut self)
        requires { 0 < length self.old.aside }
        ensures { IsFreed self.old self.new }
    {
        let at = self.aside;
        let next = relink(&mut self.links, at, self.spare);
        self.aside = next;
        self.spare = at;
        self.unused += 1;
    }

    /// Returns the mask of the line.
    pub(crate) fn mask(&self, line: usize) -> u32
        requires { line < length self.now.rows }
        ensures { result ≡ mask_of (slice_index_or self.now.rows line []) }
    {
        let mut at = self.heads.get(line);
        let mut mask = 0;
        for _passed in 0..self.links.len() {
            if at == 0 {
                return mask;
            }
            let link = self.links.get(at as usize - 1);
            mask |= link.marker().bit();
            at = link.next();
        }
        mask
    }

    /// Returns whether a marker of the line has the handle.
    pub(crate) fn has(&self, line: usize, handle: u32) -> bool
        requires { line < length self.now.rows }
        ensures { result ≡ list_any (λ m. m.handle == handle) (slice_index_or self.now.rows line []) }
    {
        let mut at = self.heads.get(line);
        for _passed in 0..self.links.len() {
            if at == 0 {
                return false;
            }
            let link = self.links.get(at as usize - 1);
            if link.marker().handle() == handle {
                return true;
            }
            at = link.next();
        }
        false
    }
}
