//! `RunStyles` and its calls. A contract sees it as its default value, its list of values and its capacity for runs.
ghost use Rattle.std.specs.Prelude.{◌≡◌, ◌≤◌, ◌<◌, ◌+◌, ◌^◌, ◌↔◌, [], length, slice_get, Some, All, IsTrue, IfOk, IfNone, IfSome, OnErr};
ghost use Rattle.run_styles.specs.Expansion.{IsExact};
ghost use Rattle.run_styles.specs.Runs.{runs, run_capacity, inserted, deleted, filled, run_count, with_space, GrowsFor, HasRoom, IsRunStart, IsRunEnd, IsChangedRange};
ghost use Rattle.vec_room.specs.Reserved.{IsReserved};

use crate::table::RunTable;
use partitioning::Place;
use std::alloc::{AllocError, Allocator, Global};
use std::marker::Model;

/// A list of values kept as runs.
///
/// `P` is the type of places, and bounds the length. `==` must tell all values apart.
#[derive(Drop)]
pub struct RunStyles<P: Place, V: Copy + Eq, A: Allocator = Global> {
    table: RunTable<P, V, A>,
    default: V,
}

impl<P: Place, V: Copy + Eq, A: Allocator> Model for RunStyles<P, V, A> {
    ghost use Rattle.run_styles.specs.Runs.{Runs, runs, runs_code};

    ghost Value = { Runs V };

    ghost coded = { runs_code V.code };

    ghost use Rattle.run_styles.specs.Expansion.{NeighboursDiffer};
    ghost use Rattle.run_styles.specs.Table.{list_of};

    ghost view = { λ s. runs s.default (list_of s.table) s.table.capacity };

    ghost invariant = { λ s. NeighboursDiffer s.table.values };
}

impl<P: Place, V: Copy + Eq, A: Allocator + Copy> RunStyles<P, V, A> {
    /// Returns an empty list. Places that are inserted without a value get `default`. Allocates memory for the one run
    /// of an empty list, and no more.
    ///
    /// # Errors
    ///
    /// `AllocError` if the allocation fails.
    pub fn new(alloc: A, default: V) -> Result<Self, AllocError>
        requires exact { IsExact V.eq }
        ensures { IfOk result (λ s. s ≡ runs default [] (run_capacity 1 1)) }
    {
        Ok(RunStyles {
            table: RunTable::new(alloc, default)?,
            default,
        })
    }
}

impl<P: Place, V: Copy + Eq, A: Allocator> RunStyles<P, V, A> {
    /// Returns the number of places.
    pub fn length(&self) -> usize
        ensures length { result ≡ length self.now.values }
        ensures within { length self.now.values ≤ P.GREATEST }
    {
        self.table.length()
    }

    /// Returns the value at `place`.
    pub fn value_at(&self, place: usize) -> V
        requires { place < length self.now.values }
        ensures { slice_get self.now.values place ≡ Some result }
    {
        self.table.value(self.table.run_of(place))
    }

    /// Returns the value at `place`, as `value_at` does, for a caller that asks several tables for one place, in turn: where
    /// they have many runs, that takes a fourth of the time.
    pub fn value_in_turn(&self, place: usize) -> V
        requires { place < length self.now.values }
        ensures { slice_get self.now.values place ≡ Some result }
    {
        self.table.value(self.table.run_in_turn(place))
    }

    /// Returns where the run of equal values that holds `place` begins.
    pub fn start_run(&self, place: usize) -> usize
        requires { place < length self.now.values }
        ensures { IsRunStart self.now.values place result }
    {
        self.table.start_of(self.table.run_of(place))
    }

    /// Returns where the run of equal values that holds `place` ends: the first place behind it.
    pub fn end_run(&self, place: usize) -> usize
        requires { place < length self.now.values }
        ensures { IsRunEnd self.now.values place result }
    {
        self.table.end_of(self.table.run_of(place))
    }

    /// Returns where the run of equal values that holds `place` begins, and where it ends: the first place behind it.
    /// Looks the run up once for both.
    pub fn run(&self, place: usize) -> (usize, usize)
        requires { place < length self.now.values }
        ensures start { IsRunStart self.now.values place result.0 }
        ensures end { IsRunEnd self.now.values place result.1 }
    {
        let run = self.table.run_of(place);
        (self.table.start_of(run), self.table.end_of(run))
    }

    /// Returns how many runs there are: 1 for an empty list.
    #[tactic(auto, using(crate::proofs::Reading::count_runs))]
    pub fn runs(&self) -> usize
        ensures { result ≡ run_count V.eq self.now.values }
    {
        self.table.count()
    }

    /// Returns whether each place has `value`.
    #[tactic(auto, using(crate::proofs::Reading::single_all, crate::proofs::Reading::all_single))]
    pub fn is_all(&self, value: V) -> bool
        ensures { IsTrue result ↔ All (λ x. x ≡ value) self.now.values }
    {
        self.table.length() == 0 || self.table.count() == 1 && self.table.has(0, value)
    }

    /// What the list holds fits in.
    #[inline(always)]
    #[tactic(auto, using(crate::proofs::Reading::count_runs))]
    pub fn fits_in(&self)
        ensures fits { HasRoom V.eq 0 self.now }
        ensures within { self.now.capacity.starts < 2 ^ 63 }
    {
        self.table.count();
    }

    /// Makes room for `count` more runs. The starts need no allocation if `count` more of them fit in, and likewise the
    /// values. If both need none, it cannot fail.
    ///
    /// # Errors
    ///
    /// `AllocError` if an allocation fails. Nothing has changed then, except that more starts may fit in.
    pub fn reserve(&mut self, count: usize) -> Result<(), AllocError>
        ensures reserved { IsReserved (HasRoom V.eq count) result self.old self.new }
        ensures grown { (self.new ≡ record self.old { capacity = self.new.capacity }) × GrowsFor (run_count V.eq self.old.values + count) self.old.capacity self.new.capacity }
        ensures err { OnErr result (self.new.capacity.values ≡ self.old.capacity.values) }
    {
        // There are as many runs as the table has.
        self.table.count();
        self.table.reserve(count)
    }

    /// Sets `count` places from `place` on to `value`. Returns the smallest range that holds all places that changed, as
    /// its first place and its length, or `None` if none changed. There must be room for two more
    /// runs. Allocates nothing.
    #[tactic(auto, using(crate::proofs::Reading::count_runs))]
    pub fn fill(&mut self, place: usize, count: usize, value: V) -> Option<(usize, usize)>
        requires within { place + count ≤ length self.old.values }
        requires room { HasRoom V.eq 2 self.old }
        ensures filled { self.new ≡ record self.old { values = filled self.old.values place count value } }
        ensures runs { run_count V.eq self.new.values ≤ run_count V.eq self.old.values + 2 }
        ensures none { IfNone result (self.new.values ≡ self.old.values) }
        ensures changed { IfSome result (IsChangedRange self.old.values self.new.values) }
    {
        if count == 0 {
            return None;
        }
        // Brings the bound on the end.
        self.table.length();
        let end = place + count;
        let first = self.table.run_of(place);
        let last = self.table.run_near(end - 1, first);
        let (low, high) = self.table.changed_range(first, last, place, count, value)?;
        // The places that change may begin behind the first of these runs, and end before the last.
        let likely_first = first + (low != place) as usize;
        let likely_last = last.saturating_sub((high != end) as usize);
        self.table
            .overwrite(likely_first, likely_last, low, high, value);
        // There are as many runs as the table has.
        self.table.count();
        Some((low, high - low))
    }

    /// Inserts `count` places before `place`. They get the default at both ends of the list and where the value at
    /// `place` is the default, and otherwise the value before. There must be room for one
    /// more run. Allocates nothing.
    #[tactic(auto, using(crate::proofs::Reading::count_runs))]
    pub fn insert_space(&mut self, place: usize, count: usize)
        requires within { place ≤ length self.old.values }
        requires fits { length self.old.values + count ≤ P.GREATEST }
        requires room { HasRoom V.eq 1 self.old }
        ensures inserted { self.new ≡ record self.old { values = with_space V.eq self.old.default self.old.values place count } }
        ensures runs { run_count V.eq self.new.values ≤ run_count V.eq self.old.values + 1 }
    {
        if count == 0 {
            return;
        }
        // There are as many runs as the table has, before and after.
        self.table.count();
        self.table.insert_default(place, count, self.default);
        self.table.count();
    }

    /// Inserts `count` places with `value` before `place`. There must be room for two more
    /// runs. Allocates nothing.
    pub fn insert_value(&mut self, place: usize, count: usize, value: V)
        requires within { place ≤ length self.old.values }
        requires fits { length self.old.values + count ≤ P.GREATEST }
        requires room { HasRoom V.eq 2 self.old }
        ensures inserted { self.new ≡ record self.old { values = inserted self.old.values place count value } }
        ensures runs { run_count V.eq self.new.values ≤ run_count V.eq self.old.values + 2 }
    {
        if count == 0 {
            return;
        }
        let run = self.table.run_at(place);
        self.table.grow(run, count);
        let _ = self.fill(place, count, value);
    }

    /// Deletes `count` places from `place` on. Adds no run, and allocates nothing.
    #[tactic(auto, using(crate::proofs::Reading::count_runs))]
    pub fn delete_range(&mut self, place: usize, count: usize)
        requires { place + count ≤ length self.old.values }
        ensures deleted { self.new ≡ record self.old { values = deleted self.old.values place count } }
        ensures runs { run_count V.eq self.new.values ≤ run_count V.eq self.old.values }
    {
        if count == 0 {
            return;
        }
        // There are as many runs as the table has, before and after.
        self.table.count();
        self.table.delete_places(place, count);
        self.table.count();
    }
}
