//! The steps of an insertion and of a deletion.
ghost use Rattle.std.specs.Prelude.{◌≡◌, ◌≤◌, ◌<◌, ◌+◌, length};
ghost use Rattle.run_styles.specs.Expansion.{NeighboursDiffer};
ghost use Rattle.run_styles.specs.Table.{Becomes, IsSound, RunsFit, end_of_run, list_of, start_of_run};
ghost use Rattle.run_styles.specs.Runs.{deleted, with_space};

use crate::table::RunTable;
use partitioning::Place;
use std::alloc::Allocator;

impl<P: Place, V: Copy + Eq, A: Allocator> RunTable<P, V, A> {
    /// Returns a run that holds a place, or ends at it.
    pub(crate) fn run_at(&self, place: usize) -> usize
        requires { place ≤ length (list_of self.now) }
        ensures run { (result < length self.now.starts) × (start_of_run self.now result ≤ place) × (place ≤ end_of_run self.now result) }
        ensures sound { IsSound V.eq self.now }
    {
        if place == self.length() {
            self.count() - 1
        } else {
            self.run_about(place)
        }
    }

    /// Inserts places between two others. They join one of the two runs.
    fn insert_inside(&mut self, place: usize, count: usize, default: V)
        requires inside { (0 < count) × (0 < place) × (place < length (list_of self.old)) }
        requires fits { length (list_of self.old) + count ≤ P.GREATEST }
        ensures becomes { Becomes 0 (with_space V.eq default (list_of self.old) place count) self.old self.new }
        ensures values { self.new.values ≡ self.old.values }
    {
        let run = self.run_about(place);
        if self.start_of(run) == place && !self.has(run, default) {
            self.grow(run - 1, count);
        } else {
            self.grow(run, count);
        }
    }

    /// Inserts places by the rule for inserted values (`inserted_value`).
    pub(crate) fn insert_default(&mut self, place: usize, count: usize, default: V)
        requires differ { NeighboursDiffer self.old.values }
        requires within { (0 < count) × (place ≤ length (list_of self.old)) }
        requires fits { length (list_of self.old) + count ≤ P.GREATEST }
        requires room { RunsFit 1 self.old }
        ensures becomes { Becomes 1 (with_space V.eq default (list_of self.old) place count) self.old self.new }
        ensures differ { NeighboursDiffer self.new.values }
    {
        let length = self.length();
        if length == 0 {
            self.set_value(0, default);
            self.grow(0, count);
        } else if place == 0 {
            if self.has(0, default) {
                self.grow(0, count);
            } else {
                self.insert_first(count, default);
            }
        } else if place == length {
            let last = self.count() - 1;
            if self.has(last, default) {
                self.grow(last, count);
            } else {
                self.insert_last(count, default);
            }
        } else {
            self.insert_inside(place, count, default);
        }
    }

    /// Deletes places.
    #[tactic(auto, using(crate::proofs::Neighbours::differ_drop, crate::proofs::Neighbours::differ_take))]
    pub(crate) fn delete_places(&mut self, place: usize, count: usize)
        requires differ { NeighboursDiffer self.old.values }
        requires within { (0 < count) × (place + count ≤ length (list_of self.old)) }
        ensures becomes { Becomes 0 (deleted (list_of self.old) place count) self.old self.new }
        ensures differ { NeighboursDiffer self.new.values }
    {
        let run = self.run_about(place);
        if self.start_of(run) == place {
            self.delete_runs(run, count);
            return;
        }
        let cut = count.min(self.end_of(run) - place);
        self.shrink(run, cut);
        if cut < count {
            self.delete_runs(run + 1, count - cut);
        }
    }
}
