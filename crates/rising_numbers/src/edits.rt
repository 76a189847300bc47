//! The calls that change the numbers. A change of all numbers from a place on moves the step there.
ghost use Rattle.std.specs.Prelude.{◌≡◌, ◌≤◌, ◌<◌, ◌+◌, ◌-◌, length, insert, remove};
ghost use Rattle.rising_numbers.specs.Numbers.{AreRising, CanInsert, CanLower, NumbersFit, lowered_from, raised_from, step_inserted, step_removed, stepped_to};
ghost use Rattle.rising_numbers.specs.SumLaws.{KeepsTo, steps_of};

use crate::numbers::RisingNumbers;
use crate::places::Place;
use std::alloc::Allocator;

impl<P: Place, A: Allocator> RisingNumbers<P, A> {
    /// Inserts `number` before the one at `index`, or at the end. There must be room for it. No other stored number
    /// changes.
    pub fn insert_reserved(&mut self, index: usize, number: usize)
        requires room { NumbersFit 1 self.old }
        requires number { CanInsert self.old.numbers self.old.length index number }
        ensures inserted { self.new ≡ record self.old { numbers = insert self.old.numbers index number; step_at = step_inserted index self.old.step_at } }
        ensures few { KeepsTo index (steps_of self.old) (steps_of self.new) }
        ensures sound { AreRising self.new.numbers self.new.length }
    {
        self.are_rising();
        let place = P::from_usize(number);
        if index <= self.step_at {
            self.body.insert_reserved(index, place);
            self.step_at += 1;
        } else {
            let distance = self.end.minus(place);
            self.body.insert_reserved(index, distance);
        }
    }

    /// Removes the number at `index`. No other stored number changes.
    pub fn remove(&mut self, index: usize)
        requires { index < length self.old.numbers }
        ensures removed { self.new ≡ record self.old { numbers = remove self.old.numbers index; step_at = step_removed index self.old.step_at } }
        ensures few { KeepsTo index (steps_of self.old) (steps_of self.new) }
        ensures sound { AreRising self.new.numbers self.new.length }
    {
        let count = self.count();
        prove!(index < count);
        self.body.delete(index, 1);
        if index < self.step_at {
            self.step_at -= 1;
        }
    }

    /// Raises the numbers from `index` on, and the length, by `count`.
    pub fn raise(&mut self, index: usize, count: usize)
        requires index { index ≤ length self.old.numbers }
        requires fits { self.old.length + count ≤ P.GREATEST }
        ensures raised { self.new ≡ record self.old { numbers = raised_from self.old.numbers index count; length = self.old.length + count; stepped = stepped_to index self.old; step_at = index } }
        ensures few { KeepsTo index (steps_of self.old) (steps_of self.new) }
        ensures sound { AreRising self.new.numbers self.new.length }
    {
        self.step_to(index);
        self.end = self.end.plus(P::from_usize(count));
    }

    /// Lowers the numbers from `index` on, and the length, by `count`. They must stay above the number before them.
    pub fn lower(&mut self, index: usize, count: usize)
        requires { CanLower self.old.numbers self.old.length index count }
        ensures lowered { self.new ≡ record self.old { numbers = lowered_from self.old.numbers index count; length = self.old.length - count; stepped = stepped_to index self.old; step_at = index } }
        ensures few { KeepsTo index (steps_of self.old) (steps_of self.new) }
        ensures sound { AreRising self.new.numbers self.new.length }
    {
        self.step_to(index);
        self.end = self.end.minus(P::from_usize(count));
    }
}
