//! Moves of the step.
ghost use Rattle.std.specs.Prelude.{◌≡◌, ◌≤◌, ◌<◌, ◌+◌, length, map};
ghost use Rattle.rising_numbers.specs.Numbers.{stepped_to};
ghost use Rattle.rising_numbers.specs.Stored.{AreWithin, IsTurned, IsOneTurned};
ghost use Rattle.split_vector.specs.Split.{counted};

use crate::numbers::RisingNumbers;
use crate::places::Place;
use split_vector::SplitVector;
use std::alloc::Allocator;

// Replaces the number at `index` by its distance to the end, or the distance by the number.
#[inline]
fn turn_one<P: Place, A: Allocator>(body: &mut SplitVector<P, A>, index: usize, end: P)
    requires index { index < length body.old.items }
    requires within { AreWithin (P.number end) (map P.number body.old.items) }
    ensures turned { IsOneTurned (P.number end) index (map P.number body.old.items) (map P.number body.new.items) }
    ensures capacity { body.new.capacity ≡ body.old.capacity }
{
    let distance = end.minus(body.get(index));
    body.set(index, distance);
}

// Replaces each number from `low` up to `high` by its distance to the end, and each distance by the number.
fn turn<P: Place, A: Allocator>(body: &mut SplitVector<P, A>, low: usize, high: usize, end: P)
    requires range { (low ≤ high) × (high ≤ length body.old.items) }
    requires within { AreWithin (P.number end) (map P.number body.old.items) }
    ensures turned { IsTurned (P.number end) low high (map P.number body.old.items) (map P.number body.new.items) }
    ensures capacity { body.new.capacity ≡ body.old.capacity }
{
    body.update(low, high, |stored| end.minus(stored));
}

impl<P: Place, A: Allocator> RisingNumbers<P, A> {
    // Moves the step behind the next number, and counts the number that this changes.
    fn step_on(&mut self)
        requires { self.old.step_at < length self.old.numbers }
        ensures { self.new ≡ record self.old { stepped = counted self.old.stepped 1; step_at = self.old.step_at + 1 } }
    {
        self.are_rising();
        turn_one(&mut self.body, self.step_at, self.end);
        self.step_at += 1;
        self.stepped = self.stepped.saturating_add(1);
    }

    // Moves the step before the number at `index`, which may be far away, and counts the numbers that this changes. Out
    // of line, so that the hot path does not pay for its stack frame.
    #[inline(never)]
    fn step_far(&mut self, index: usize)
        requires { index ≤ length self.old.numbers }
        ensures { self.new ≡ record self.old { stepped = stepped_to index self.old; step_at = index } }
    {
        let low = self.step_at.min(index);
        let high = self.step_at.max(index);
        turn(&mut self.body, low, high, self.end);
        self.step_at = index;
        self.stepped = self.stepped.saturating_add((high - low) as u64);
    }

    // Moves the step before the number at `index`, and counts the numbers that this changes. The step usually stands
    // there already, or before the number before it.
    #[inline(always)]
    pub(crate) fn step_to(&mut self, index: usize)
        requires { index ≤ length self.old.numbers }
        ensures { self.new ≡ record self.old { stepped = stepped_to index self.old; step_at = index } }
    {
        if index == self.step_at {
            return;
        }
        self.are_rising();
        if index == self.step_at + 1 {
            self.step_on();
            return;
        }
        self.step_far(index);
    }
}
