//! `Decorations` and its calls.
ghost use Rattle.ed_model.specs.Steps.{Delete, Insert};
ghost use Rattle.ed_model.specs.Indicators.{indicators_after};
ghost use Rattle.std.specs.Prelude.{List, ◌≡◌, ◌≤◌, ◌<◌, ◌+◌, ◌↔◌, ℕ, [], length, replicate, pos, Option, IsTrue};
ghost use Rattle.std.specs.List.{AllByRecursion};
ghost use Rattle.ed_model.specs.TextPlans.{at_place};
ghost use Rattle.decorations.specs.Decorated.{decorated, filled_range, mask_of, no_capacity, run_about, values_of, HasRoomForFill, HasRoomForInsertions, IsCapacityForFill, IsCapacityForRuns, IsFilled, IsUsed, KeepsRuns, WereFilledFrom};
ghost use Rattle.vec_room.specs.Reserved.{IsReserved};

use crate::slots::{
    Slot, add_slots, delete_from_all, fill_slot, insert_into_all, mask_in, reserve_one,
    reserve_runs, runs_in,
};
use crate::spare::SpareRuns;
use partitioning::Place;
use std::alloc::{AllocError, Global};
use std::marker::Model;

/// The values of all indicators at each place of a text, in bytes from 0.
///
/// `P` is the type in which places are stored, and bounds the length of the text.
#[derive(Drop)]
pub struct Decorations<P: Place> {
    // One slot for each indicator, up to the last that ever had a value.
    slots: Vec<Slot<P>>,
    // Runs without a place, for an indicator that is filled for the first time.
    spare: SpareRuns<P>,
    size: usize,
    alloc: Global,
}

impl<P: Place> Model for Decorations<P> {
    ghost use Rattle.decorations.specs.Decorated.{Decorated};
    ghost use Rattle.decorations.specs.Slots.{seen, stored, AreSlots};

    ghost Value = { Decorated };

    ghost view = { λ d. seen d.size (stored d.slots d.spare) };

    ghost invariant = { λ d. AreSlots P.GREATEST d.size d.slots.items };
}

impl<P: Place> Decorations<P> {
    /// Returns the values of an empty text. Allocates nothing.
    pub fn new(alloc: Global) -> Self
        ensures { result ≡ decorated 0 (replicate 32 []) no_capacity }
    {
        Decorations {
            slots: Vec::new(alloc),
            spare: SpareRuns::new(),
            size: 0,
            alloc,
        }
    }

    /// Returns the length of the text in bytes, which is the number of values of each indicator.
    pub fn length(&self) -> usize
        ensures length { result ≡ self.now.length }
        ensures within { self.now.length ≤ P.GREATEST }
        ensures count { length self.now.values ≡ 32 }
        ensures each { AllByRecursion (λ values. length values ≡ self.now.length) self.now.values }
    {
        self.size
    }

    /// Returns whether an indicator has a value other than 0 somewhere. Only such indicators have runs.
    pub fn is_used(&self, indicator: usize) -> bool
        requires { indicator < 32 }
        ensures { IsTrue result ↔ IsUsed self.now indicator }
    {
        runs_in(&self.slots, indicator).is_some()
    }

    /// Returns the value of an indicator at a place, or 0 past the end of the text (`SCI_INDICATORVALUEAT`).
    pub fn value(&self, indicator: usize, place: usize) -> u32
        requires { indicator < 32 }
        ensures { result ≡ at_place (values_of self.now.values indicator) (pos place) }
    {
        match runs_in(&self.slots, indicator) {
            Some(runs) if place < self.size => runs.value_at(place),
            _ => 0,
        }
    }

    /// Returns the longest range of equal values of an indicator around a place, as its first place and the place
    /// behind it (`SCI_INDICATORSTART`, `SCI_INDICATOREND`).
    pub fn run(&self, indicator: usize, place: usize) -> (usize, usize)
        requires indicator { indicator < 32 }
        requires place { place < self.now.length }
        ensures { result ≡ run_about (values_of self.now.values indicator) place }
    {
        match runs_in(&self.slots, indicator) {
            Some(runs) => runs.run(place),
            None => (0, self.size),
        }
    }

    /// Returns the indicators that are not 0 at a place, bit `k` for indicator `k`, and 0 past the end of the text
    /// (`SCI_INDICATORALLONFOR`). Looks only at the indicators in use.
    pub fn mask_at(&self, place: usize) -> u32
        ensures { result ≡ mask_of self.now.values place }
    {
        mask_in(&self.slots, self.size, place)
    }

    /// Makes room for `insertions` insertions, and for a fill besides, of each indicator that is not 0 everywhere. If
    /// the room is there, nothing is allocated, and it cannot fail.
    ///
    /// # Errors
    ///
    /// `AllocError` if an allocation fails. Nothing has changed then, except that more runs may fit in.
    #[inline(always)]
    pub fn reserve(&mut self, insertions: usize) -> Result<(), AllocError>
        ensures reserved { IsReserved (HasRoomForInsertions insertions) result self.old self.new }
        ensures grown { (self.new ≡ record self.old { capacity = self.new.capacity }) × IsCapacityForRuns (insertions + 2) self.old self.new.capacity }
    {
        if self.slots.len() == 0 {
            return Ok(());
        }
        self.make_room(insertions)
    }

    // The slow path of `reserve`: there are slots.
    #[inline(never)]
    fn make_room(&mut self, insertions: usize) -> Result<(), AllocError>
        ensures reserved { IsReserved (HasRoomForInsertions insertions) result self.old self.new }
        ensures grown { (self.new ≡ record self.old { capacity = self.new.capacity }) × IsCapacityForRuns (insertions + 2) self.old self.new.capacity }
    {
        reserve_runs(&mut self.slots, insertions)
    }

    /// Makes room for one fill of an indicator. If the room is there, nothing is allocated, and it cannot fail.
    ///
    /// # Errors
    ///
    /// `AllocError` if an allocation fails. Nothing has changed then, except that more slots and runs may fit in.
    pub fn reserve_fill(&mut self, indicator: usize) -> Result<(), AllocError>
        requires { indicator < 32 }
        ensures reserved { IsReserved (HasRoomForFill indicator) result self.old self.new }
        ensures grown { (self.new ≡ record self.old { capacity = self.new.capacity }) × IsCapacityForFill indicator self.old self.new.capacity }
    {
        reserve_one(&mut self.slots, &mut self.spare, indicator, self.alloc)
    }

    /// Sets an indicator to a value at `count` places from `start` on. Returns the smallest range that holds all places
    /// that changed, as its first place and its length, or `None` if none changed. There must be room for the fill.
    /// Allocates nothing.
    pub fn fill(
        &mut self,
        indicator: usize,
        start: usize,
        count: usize,
        value: u32,
    ) -> Option<(usize, usize)>
        requires indicator { indicator < 32 }
        requires within { start + count ≤ self.old.length }
        requires room { HasRoomForFill indicator self.old }
        ensures values { IsFilled indicator start count value self.old self.new }
        ensures capacity { WereFilledFrom indicator self.old self.new }
        ensures changed { result ≡ filled_range self.old indicator start count value }
    {
        add_slots(&mut self.slots, indicator + 1);
        let slot = &mut self.slots[indicator];
        fill_slot(slot, &mut self.spare, self.size, start, count, value)
    }

    /// Inserts `count` bytes before a place. Each indicator is 0 there at both ends of the text and where it is 0 at
    /// the place, and otherwise has its value before the place. There must be room for one insertion. Allocates nothing.
    #[inline]
    pub fn insert(&mut self, place: usize, count: usize)
        requires within { place ≤ self.old.length }
        requires fits { self.old.length + count ≤ P.GREATEST }
        requires room { HasRoomForInsertions 1 self.old }
        ensures length { self.new.length ≡ self.old.length + count }
        ensures values { (bytes : List ℕ) → length bytes ≡ count → self.new.values ≡ indicators_after (Insert place bytes) self.old.values }
        ensures room { (n : ℕ) → HasRoomForInsertions (n + 1) self.old → HasRoomForInsertions n self.new }
        ensures capacity { self.new.capacity ≡ self.old.capacity }
        ensures runs { KeepsRuns self.old self.new }
    {
        insert_into_all(&mut self.slots, place, count);
        self.size += count;
    }

    /// Deletes `count` bytes from a place on. Allocates nothing.
    #[inline]
    pub fn delete(&mut self, place: usize, count: usize)
        requires { place + count ≤ self.old.length }
        ensures length { self.new.length + count ≡ self.old.length }
        ensures values { (bytes : List ℕ) → length bytes ≡ count → self.new.values ≡ indicators_after (Delete place bytes) self.old.values }
        ensures room { (n : ℕ) → HasRoomForInsertions n self.old → HasRoomForInsertions n self.new }
        ensures capacity { KeepsRuns self.old self.new }
    {
        delete_from_all(&mut self.slots, place, count);
        self.size -= count;
    }
}
