//! The steps of a fill and of a deletion.
ghost use Rattle.std.specs.Prelude.{◌≡◌, ◌≢◌, ◌⊎◌, ℕ, ◌≤◌, ◌<◌, ◌+◌, ◌-◌, Some, IfNone, IfSome, length, take, drop, slice_get};
ghost use Rattle.run_styles.specs.Expansion.{NeighboursDiffer};
ghost use Rattle.run_styles.specs.Table.{Becomes, IsRunOf, IsSound, RunsFit, deleted_from_run, end_of_run, list_of, runs_filled, start_of_run, start_or_end};
ghost use Rattle.run_styles.specs.Runs.{IsFilled, deleted, filled};
ghost use Rattle.run_styles.specs.Changes.{IsTrimmed};

use crate::table::RunTable;
use partitioning::Place;
use std::alloc::Allocator;

impl<P: Place, V: Copy + Eq, A: Allocator> RunTable<P, V, A> {
    /// Makes a run end at a place inside it or at its end.
    #[tactic(auto, using(crate::proofs::Neighbours::differ_drop, crate::proofs::ByIndex::drop_split_values))]
    fn end_at(&mut self, index: usize, place: usize)
        requires inside { (index < length self.old.starts) × (start_of_run self.old index < place) × (place ≤ end_of_run self.old index) }
        requires differ { NeighboursDiffer self.old.values }
        requires room { RunsFit 1 self.old }
        ensures becomes { Becomes 1 (list_of self.old) self.old self.new }
        ensures ends { (index < length self.new.starts) × (end_of_run self.new index ≡ place) }
        ensures front { take (index + 1) self.new.values ≡ take (index + 1) self.old.values }
        ensures behind { NeighboursDiffer (drop (index + 1) self.new.values) }
    {
        if place < self.end_of(index) {
            self.split(index, place);
        }
    }

    /// Makes a run start at a place in the run `index`, and returns that run.
    #[tactic(auto, using(crate::proofs::Neighbours::differ_shorter, crate::proofs::ByIndex::drop_split_starts, crate::proofs::ByIndex::drop_split_values_more))]
    fn start_at(&mut self, index: usize, place: usize) -> usize
        requires run { IsRunOf V.eq self.old place index }
        requires room { RunsFit 1 self.old }
        ensures becomes { Becomes 1 (list_of self.old) self.old self.new }
        ensures starts { (result < length self.new.starts) × (start_of_run self.new result ≡ place) }
        ensures shifted { (index ≤ result) × (result ≤ index + 1) }
        ensures front { NeighboursDiffer (take (index + 1) self.old.values) → NeighboursDiffer (take result self.new.values) }
        ensures starts_behind { drop (result + 1) self.new.starts ≡ drop (index + 1) self.old.starts }
        ensures values_behind { drop (result + 1) self.new.values ≡ drop (index + 1) self.old.values }
    {
        if self.start_of(index) == place {
            return index;
        }
        self.split(index, place);
        index + 1
    }

    /// Returns the first of the runs that a new run from `first` on replaces: the run before `first`, if it has the same
    /// value.
    #[tactic(auto, using(crate::proofs::Neighbours::differ_before))]
    fn widened_start(&self, first: usize, value: V) -> usize
        requires within { first < length self.now.starts }
        requires differ { NeighboursDiffer (take first self.now.values) }
        ensures near { (result ≡ first) ⊎ ((result + 1 ≡ first) × (slice_get self.now.values result ≡ Some value)) }
        ensures longest { 0 < result → slice_get self.now.values (result - 1) ≢ Some value }
    {
        if first > 0 && self.has(first - 1, value) {
            first - 1
        } else {
            first
        }
    }

    /// Returns the end of the runs that a new run up to `end` replaces: behind the run `end`, if it has the same value.
    #[tactic(auto, using(crate::proofs::Neighbours::differ_behind))]
    fn widened_end(&self, end: usize, value: V) -> usize
        requires within { end ≤ length self.now.starts }
        requires differ { NeighboursDiffer (drop end self.now.values) }
        ensures near { (result ≡ end) ⊎ ((result ≡ end + 1) × (slice_get self.now.values end ≡ Some value)) }
        ensures longest { slice_get self.now.values result ≢ Some value }
        ensures within { result ≤ length self.now.starts }
        ensures sound { IsSound V.eq self.now }
    {
        if end < self.count() && self.has(end, value) {
            end + 1
        } else {
            end
        }
    }

    /// Replaces the runs from `first` up to `end` by one, which is joined with the neighbours that have its value.
    fn replace_runs(&mut self, first: usize, end: usize, value: V)
        requires range { (first < end) × (end ≤ length self.old.starts) × (0 < length (list_of self.old)) }
        requires front { NeighboursDiffer (take first self.old.values) }
        requires behind { NeighboursDiffer (drop end self.old.values) }
        ensures becomes { Becomes 0 (runs_filled self.old first end value) self.old self.new }
        ensures differ { NeighboursDiffer self.new.values }
    {
        let from = self.widened_start(first, value);
        let to = self.widened_end(end, value);
        self.unite(from, to, value);
    }

    /// Sets a range that is not empty to a value. Its first and its last place are likely in these runs.
    pub(crate) fn overwrite(
        &mut self,
        likely_first: usize,
        likely_last: usize,
        low: usize,
        high: usize,
        value: V,
    )
        requires differ { NeighboursDiffer self.old.values }
        requires range { (low < high) × (high ≤ length (list_of self.old)) }
        requires room { RunsFit 2 self.old }
        ensures becomes { Becomes 2 (filled (list_of self.old) low (high - low) value) self.old self.new }
        ensures differ { NeighboursDiffer self.new.values }
    {
        let last = self.run_near(high - 1, likely_last);
        self.end_at(last, high);
        let run = self.run_near(low, likely_first);
        let first = self.start_at(run, low);
        // Brings the bound on each index.
        self.count();
        self.replace_runs(first, last + 1 + (first - run), value);
    }

    /// Returns the first place from `place` on whose value differs, or the length.
    #[tactic(auto, using(crate::proofs::Reading::value_of_run, crate::proofs::Filling::slice_get_in_run))]
    fn next_other(&self, likely: usize, place: usize, value: V) -> usize
        requires differ { NeighboursDiffer self.now.values }
        requires within { place < length (list_of self.now) }
        ensures from { place ≤ result }
        ensures same { (k : ℕ) → place ≤ k → k < result → slice_get (list_of self.now) k ≡ Some value }
        ensures other { slice_get (list_of self.now) result ≢ Some value }
    {
        let run = self.run_near(place, likely);
        if self.has(run, value) {
            self.end_of(run)
        } else {
            place
        }
    }

    /// Returns the place behind the last one before `end` whose value differs, or 0.
    #[tactic(auto, using(crate::proofs::Reading::value_of_run, crate::proofs::Filling::slice_get_in_run))]
    fn last_other(&self, likely: usize, end: usize, value: V) -> usize
        requires differ { NeighboursDiffer self.now.values }
        requires within { (0 < end) × (end ≤ length (list_of self.now)) }
        ensures to { result ≤ end }
        ensures same { (k : ℕ) → result ≤ k → k < end → slice_get (list_of self.now) k ≡ Some value }
        ensures other { 0 < result → slice_get (list_of self.now) (result - 1) ≢ Some value }
    {
        let run = self.run_near(end - 1, likely);
        if self.has(run, value) {
            self.start_of(run)
        } else {
            end
        }
    }

    /// Returns the ends of the smallest range that holds each place that changes when `count` places are set to a value.
    /// The first and the last of these `count` places are likely in these runs.
    #[tactic(auto, using(crate::proofs::Filling::filled_same, crate::proofs::Filling::trimmed))]
    pub(crate) fn changed_range(
        &self,
        likely_first: usize,
        likely_last: usize,
        place: usize,
        count: usize,
        value: V,
    ) -> Option<(usize, usize)>
        requires differ { NeighboursDiffer self.now.values }
        requires within { (0 < count) × (place + count ≤ length (list_of self.now)) }
        ensures none { IfNone result (IsFilled (list_of self.now) place count value) }
        ensures some { IfSome result (IsTrimmed (list_of self.now) place count value) }
    {
        // Brings the bound on the end.
        self.length();
        let end = place + count;
        let low = self.next_other(likely_first, place, value);
        if end <= low {
            return None;
        }
        let high = self.last_other(likely_last, end, value);
        Some((low, high))
    }

    /// Joins a run with the one before it, if both have the same value.
    fn join_at(&mut self, index: usize)
        requires index { index ≤ length self.old.starts }
        requires front { NeighboursDiffer (take index self.old.values) }
        requires behind { NeighboursDiffer (drop index self.old.values) }
        ensures becomes { Becomes 0 (list_of self.old) self.old self.new }
        ensures differ { NeighboursDiffer self.new.values }
    {
        let count = self.count();
        if 0 < index && index < count {
            let value = self.value(index);
            if self.has(index - 1, value) {
                self.unite(index - 1, index + 1, value);
            }
        }
    }

    /// Deletes the first places of a run, and the run itself if no place is left, unless it is the only one.
    #[tactic(auto, using(crate::proofs::ByIndex::run_top, crate::proofs::ByIndex::length_table))]
    fn take_from(&mut self, index: usize, count: usize)
        requires { (index < length self.old.starts) × (0 < count) × (start_of_run self.old index + count ≤ end_of_run self.old index) }
        ensures becomes { Becomes 0 (deleted_from_run self.old index count) self.old self.new }
        ensures at { (index ≤ length self.new.starts) × (start_or_end self.new index ≡ start_of_run self.old index) }
        ensures front { take index self.new.values ≡ take index self.old.values }
        ensures behind { NeighboursDiffer (drop index self.old.values) → NeighboursDiffer (drop index self.new.values) }
        ensures end { self.new.end + count ≡ self.old.end }
    {
        let whole = self.end_of(index) - self.start_of(index);
        if count < whole {
            self.shrink(index, count);
        } else if self.count() == 1 {
            self.clear();
        } else {
            self.drop_run(index, count);
        }
    }

    /// Deletes `count` places, from the start of a run on, and joins the runs that come to lie side by side.
    #[tactic(auto, using(crate::proofs::Deleting::index_within, crate::proofs::ByIndex::run_order))]
    pub(crate) fn delete_runs(&mut self, index: usize, count: usize)
        requires range { (index ≤ length self.old.starts) × (start_or_end self.old index + count ≤ self.old.end) }
        requires front { NeighboursDiffer (take index self.old.values) }
        requires behind { NeighboursDiffer (drop index self.old.values) }
        ensures becomes { Becomes 0 (deleted_from_run self.old index count) self.old self.new }
        ensures differ { NeighboursDiffer self.new.values }
    {
        let mut left = count;
        while left > 0 {
            let whole = self.end_of(index) - self.start_of(index);
            let taken = left.min(whole);
            self.take_from(index, taken);
            left -= taken;
        }
        self.join_at(index);
    }
}
