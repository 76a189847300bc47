//! `RunTable`: the starts of the runs and their values, as one. Only the calls of this file touch the two containers.
//! Two neighbouring runs may have the same value between two steps of a call of `RunStyles`.
ghost use Rattle.std.specs.Prelude.{◌≡◌, ◌≤◌, ◌<◌, ◌+◌, ◌↔◌, [], ◌∷◌, ◌++◌, Some, IfOk, IsTrue, OnErr, length, take, drop, slice_get, slice_set};
ghost use Rattle.run_styles.specs.Expansion.{IsExact};
ghost use Rattle.run_styles.specs.Runs.{GrowsFor, run_capacity};
ghost use Rattle.run_styles.specs.Table.{IsRunOf, IsSound, RunsFit, end_of_run, grown, list_of, shrunk, split_at, start_of_run, table, united, with_first, with_last, without_run};
ghost use Rattle.vec_room.specs.Reserved.{IsReserved};

use partitioning::{Partitioning, Place, Probes};
use split_vector::SplitVector;
use std::alloc::{AllocError, Allocator};
use std::marker::Model;

/// The starts of the runs, and a value for each.
#[derive(Drop)]
pub(crate) struct RunTable<P: Place, V: Copy + Eq, A: Allocator> {
    starts: Partitioning<P, A>,
    values: SplitVector<V, A>,
}

impl<P: Place, V: Copy + Eq, A: Allocator> Model for RunTable<P, V, A> {
    ghost use Rattle.run_styles.specs.Table.{Table, table_code};

    ghost Value = { Table V };

    ghost coded = { table_code V.code };

    ghost use Rattle.run_styles.specs.Expansion.{IsExact, IsTable};
    ghost use Rattle.run_styles.specs.Table.{table_of};

    ghost view = { λ t. table_of t.starts t.values };

    ghost invariant = { λ t. IsTable t.starts.starts t.values.items t.starts.length × IsExact V.eq };
}

impl<P: Place, V: Copy + Eq, A: Allocator + Copy> RunTable<P, V, A> {
    /// Returns a table of one run, which is empty and has this value. Allocates memory for that run, and no more.
    ///
    /// # Errors
    ///
    /// `AllocError` if the allocation fails.
    pub(crate) fn new(alloc: A, value: V) -> Result<Self, AllocError>
        requires exact { IsExact V.eq }
        ensures { IfOk result (λ t. t ≡ table (0 ∷ []) (value ∷ []) 0 (run_capacity 1 1)) }
    {
        let starts = Partitioning::new(alloc)?;
        let mut values = SplitVector::new(alloc);
        values.reserve(1)?;
        values.insert_reserved(0, value);
        Ok(RunTable { starts, values })
    }
}

impl<P: Place, V: Copy + Eq, A: Allocator> RunTable<P, V, A> {
    /// Returns the number of runs.
    #[inline(always)]
    pub(crate) fn count(&self) -> usize
        ensures count { result ≡ length self.now.starts }
        ensures sound { IsSound V.eq self.now }
    {
        // Brings that the values fit in.
        let _len = self.values.len();
        self.starts.count()
    }

    /// Returns the number of places.
    #[tactic(auto, using(crate::proofs::ByIndex::length_table))]
    #[inline(always)]
    pub(crate) fn length(&self) -> usize
        ensures length { result ≡ length (list_of self.now) }
        ensures within { length (list_of self.now) ≤ P.GREATEST }
        ensures sound { IsSound V.eq self.now }
    {
        // Brings that the table is sound.
        self.count();
        self.starts.length()
    }

    /// Returns where a run starts.
    #[inline(always)]
    pub(crate) fn start_of(&self, index: usize) -> usize
        requires { index < length self.now.starts }
        ensures { result ≡ start_of_run self.now index }
    {
        self.starts.start_of(index)
    }

    /// Returns where a run ends.
    pub(crate) fn end_of(&self, index: usize) -> usize
        requires { index < length self.now.starts }
        ensures end { result ≡ end_of_run self.now index }
        ensures sound { IsSound V.eq self.now }
    {
        let count = self.count();
        if index + 1 < count {
            self.starts.start_of(index + 1)
        } else {
            self.starts.length()
        }
    }

    /// Returns the value of a run.
    #[inline(always)]
    pub(crate) fn value(&self, index: usize) -> V
        requires { index < length self.now.starts }
        ensures { slice_get self.now.values index ≡ Some result }
    {
        self.values.get(index)
    }

    /// Returns whether a run has this value.
    #[inline(always)]
    pub(crate) fn has(&self, index: usize, value: V) -> bool
        requires { index < length self.now.starts }
        ensures { IsTrue result ↔ (slice_get self.now.values index ≡ Some value) }
    {
        self.values.get(index) == value
    }

    /// Returns the run that holds a place.
    pub(crate) fn run_of(&self, place: usize) -> usize
        requires { place < length (list_of self.now) }
        ensures { IsRunOf V.eq self.now place result }
    {
        // Brings that the table is sound.
        self.count();
        let mut probes = Probes::new();
        self.starts.partition_of(place, &mut probes)
    }

    /// Returns the run that holds a place. Tries the run `likely` first, and looks the place up otherwise.
    pub(crate) fn run_near(&self, place: usize, likely: usize) -> usize
        requires { place < length (list_of self.now) }
        ensures { IsRunOf V.eq self.now place result }
    {
        if likely < self.count() && self.start_of(likely) <= place && place < self.end_of(likely) {
            return likely;
        }
        self.run_of(place)
    }

    /// Returns the run that holds a place, for a caller that asks several tables for one place, in turn. The branch at each
    /// start that is read is predicted, so that the processor reads the next table before it has done with this one.
    pub(crate) fn run_in_turn(&self, place: usize) -> usize
        requires { place < length (list_of self.now) }
        ensures { IsRunOf V.eq self.now place result }
    {
        let last = self.count() - 1;
        if place < self.start_of(last) {
            let mut probes = Probes::new();
            return self.starts.partition_between(place, 0, last, &mut probes);
        }
        self.run_near(place, last)
    }

    /// Returns the run that holds a place. It is likely the run of the last edit, or a neighbour of it: edits follow one
    /// another, and undo goes back through them. The place is looked up only if it is in none of these. That reads at
    /// most three starts, each once: the start of the likely run, and then that of the run before it, or those of the
    /// two behind it.
    #[tactic(auto, using(crate::proofs::Deleting::index_within, crate::proofs::ByIndex::length_table))]
    pub(crate) fn run_about(&self, place: usize) -> usize
        requires { place < length (list_of self.now) }
        ensures { IsRunOf V.eq self.now place result }
    {
        let last = self.starts.step_at();
        if last < self.count() {
            if place < self.start_of(last) {
                // There is a run before it, since the first one starts at 0.
                let before = last - 1;
                if self.start_of(before) <= place {
                    return before;
                }
            } else if place < self.end_of(last) {
                return last;
            } else {
                // There is a run behind it, since the last one ends at the length.
                let next = last + 1;
                if place < self.end_of(next) {
                    return next;
                }
            }
        }
        self.run_of(place)
    }

    /// Makes room for `count` more runs. The starts need no allocation if `count` more of them fit in, and likewise the
    /// values.
    ///
    /// # Errors
    ///
    /// `AllocError` if an allocation fails. Nothing has changed then, except that more starts may fit in.
    #[inline(always)]
    pub(crate) fn reserve(&mut self, count: usize) -> Result<(), AllocError>
        ensures reserved { IsReserved (RunsFit count) result self.old self.new }
        ensures grown { (self.new ≡ record self.old { capacity = self.new.capacity }) × GrowsFor (length self.old.starts + count) self.old.capacity self.new.capacity }
        ensures err { OnErr result (self.new.capacity.values ≡ self.old.capacity.values) }
    {
        self.starts.reserve(count)?;
        self.values.reserve(count)?;
        Ok(())
    }

    /// Gives a run another value.
    pub(crate) fn set_value(&mut self, index: usize, value: V)
        requires { index < length self.old.starts }
        ensures { self.new ≡ record self.old { values = slice_set self.old.values index value } }
    {
        self.values.set(index, value);
    }

    /// Inserts places into a run.
    #[tactic(auto, using(crate::proofs::ByIndex::length_table))]
    pub(crate) fn grow(&mut self, index: usize, count: usize)
        requires run { (index < length self.old.starts) × (0 < count) }
        requires fits { length (list_of self.old) + count ≤ P.GREATEST }
        ensures { self.new ≡ grown index count self.old }
    {
        self.starts.insert_text(index, count);
    }

    /// Deletes places from a run, in which some stay.
    pub(crate) fn shrink(&mut self, index: usize, count: usize)
        requires { (index < length self.old.starts) × (start_of_run self.old index + count < end_of_run self.old index) }
        ensures { self.new ≡ shrunk index count self.old }
    {
        self.starts.delete_text(index, count);
    }

    /// Deletes all places. The only run stays.
    pub(crate) fn clear(&mut self)
        requires { length self.old.starts ≡ 1 }
        ensures { self.new ≡ record self.old { end = 0 } }
    {
        let length = self.starts.length();
        self.starts.delete_text(0, length);
    }

    /// Cuts a run in two at a place inside it.
    pub(crate) fn split(&mut self, index: usize, place: usize)
        requires inside { (index < length self.old.starts) × (start_of_run self.old index < place) × (place < end_of_run self.old index) }
        requires room { RunsFit 1 self.old }
        ensures { self.new ≡ split_at index place self.old }
    {
        // Brings the bound on the index.
        let _count = self.starts.count();
        let value = self.values.get(index);
        self.starts.insert_reserved(index + 1, place);
        self.values.insert_reserved(index + 1, value);
    }

    /// Makes one run with this value of the runs from `from` up to `to`.
    pub(crate) fn unite(&mut self, from: usize, to: usize, value: V)
        requires { (from < to) × (to ≤ length self.old.starts) × (0 < length (list_of self.old)) }
        ensures { self.new ≡ united from to value self.old }
    {
        self.values.set(from, value);
        remove_starts(&mut self.starts, from + 1, to);
        self.values.delete(from + 1, to - from - 1);
    }

    /// Deletes a run with its places. There is another run.
    pub(crate) fn drop_run(&mut self, index: usize, count: usize)
        requires range { (index < length self.old.starts) × (1 < length self.old.starts) × (0 < length (list_of self.old)) }
        requires whole { start_of_run self.old index + count ≡ end_of_run self.old index }
        ensures { self.new ≡ without_run index count self.old }
    {
        // The run before it, or the first, takes its places, and then loses as many.
        let joined = index.max(1);
        self.starts.remove(joined);
        self.starts.delete_text(joined - 1, count);
        self.values.delete(index, 1);
    }

    /// Inserts a run of `count` places before the first.
    #[tactic(auto, using(crate::proofs::ByIndex::length_table))]
    pub(crate) fn insert_first(&mut self, count: usize, value: V)
        requires some { (0 < count) × (0 < length (list_of self.old)) }
        requires fits { length (list_of self.old) + count ≤ P.GREATEST }
        requires room { RunsFit 1 self.old }
        ensures { self.new ≡ with_first count value self.old }
    {
        self.starts.insert_text(0, count);
        self.starts.insert_reserved(1, count);
        self.values.insert_reserved(0, value);
    }

    /// Inserts a run of `count` places behind the last.
    #[tactic(auto, using(crate::proofs::ByIndex::length_table))]
    pub(crate) fn insert_last(&mut self, count: usize, value: V)
        requires some { (0 < count) × (0 < length (list_of self.old)) }
        requires fits { length (list_of self.old) + count ≤ P.GREATEST }
        requires room { RunsFit 1 self.old }
        ensures { self.new ≡ with_last count value self.old }
    {
        let place = self.starts.length();
        let index = self.starts.count();
        self.starts.insert_text(index - 1, count);
        self.starts.insert_reserved(index, place);
        self.values.insert_reserved(index, value);
    }
}

/// Removes the starts from `from` up to `to`.
fn remove_starts<P: Place, A: Allocator>(starts: &mut Partitioning<P, A>, from: usize, to: usize)
    requires { (0 < from) × (from ≤ to) × (to ≤ length starts.old.starts) }
    ensures { starts.new ≡ record starts.old { starts = take from starts.old.starts ++ drop to starts.old.starts; step_at = starts.new.step_at } }
{
    for _ in from..to {
        starts.remove(from);
    }
}
