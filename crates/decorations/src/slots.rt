//! The runs of all indicators in use, and the effect of a step on them. A slot without runs stands for an indicator
//! that is 0 everywhere.
ghost use Rattle.std.specs.Prelude.{◌≡◌, ◌≤◌, ◌<◌, ◌+◌, ℕ, length, nat_eq, pos, Option, Some, None, IfSome, vec_capacity};
ghost use Rattle.ed_model.specs.Indicators.{filled, changed_range};
ghost use Rattle.ed_model.specs.TextPlans.{at_place};
ghost use Rattle.std.specs.Option.{is_some, option_copied};
ghost use Rattle.run_styles.specs.Runs.{HasRoom, RunCapacity, Runs};
ghost use Rattle.decorations.specs.Decorated.{mask_of};
ghost use Rattle.decorations.specs.Slots.{all_shown, slot_at, source_capacity, spare_left, stored, shown, AreKept, CanFill, CanFillAt, CanTakeIn, ChangesEach, EachSlot, GaveAway, GrowsForFill, HaveGrown, InBoth, IsKept, SlotFits, SpareGrows, TookIn, WasFilled};
ghost use Rattle.vec_room.specs.Reserved.{IsReserved};

use crate::spare::SpareRuns;
use partitioning::Place;
use run_styles::RunStyles;
use std::alloc::{AllocError, Global};

/// The runs of one indicator, if it has a value other than 0 somewhere.
pub(crate) type Slot<P> = Option<RunStyles<P, u32>>;

/// Returns the runs of an indicator, if it has a value other than 0 somewhere.
pub(crate) fn runs_in<P: Place>(
    slots: &Vec<Slot<P>>,
    indicator: usize,
) -> Option<&RunStyles<P, u32>>
    ensures runs { option_copied result ≡ slot_at slots.now.items indicator }
    ensures some { is_some result ≡ is_some (slot_at slots.now.items indicator) }
{
    slots.get(indicator)?.as_ref()
}

/// Returns the value of a slot's indicator at a place of the text, for a caller that asks all slots in turn.
#[inline(always)]
fn value_in<P: Place>(slot: &Slot<P>, place: usize) -> u32
    requires { IfSome slot.now (λ runs. place < length runs.values) }
    ensures { (size : ℕ) → result ≡ at_place (shown size slot.now) (pos place) }
{
    match slot {
        Some(runs) => runs.value_in_turn(place),
        None => 0,
    }
}

/// Returns the indicators that are not 0 at a place of a text of `size` bytes, bit `k` for indicator `k`, and 0 past its
/// end. Looks only at those in use.
pub(crate) fn mask_in<P: Place>(slots: &[Slot<P>], size: usize, place: usize) -> u32
    requires few { length slots.now ≤ 32 }
    requires kept { (k : ℕ) → IsKept size (slot_at slots.now k) }
    ensures { result ≡ mask_of (all_shown size slots.now) place }
{
    if place >= size {
        return 0;
    }
    let mut mask = 0u32;
    for (indicator, slot) in slots.iter().enumerate() {
        if value_in(slot, place) != 0 {
            mask += 1 << indicator;
        }
    }
    mask
}

/// Adds empty slots up to `count`, if there are fewer. They fit in.
pub(crate) fn add_slots<P: Place>(slots: &mut Vec<Slot<P>>, count: usize)
    requires { length slots.old.items < count → count ≤ vec_capacity slots.old }
    ensures same { (k : ℕ) → slot_at slots.new.items k ≡ slot_at slots.old.items k }
    ensures there { count ≤ length slots.new.items }
    ensures few { (most : ℕ) → length slots.old.items ≤ most → count ≤ most → length slots.new.items ≤ most }
    ensures capacity { vec_capacity slots.new ≡ vec_capacity slots.old }
{
    while slots.len() < count {
        slots.push_reserved(None);
    }
}

/// Makes room for what `insertions` insertions and a fill bring in a slot, if it has runs.
fn reserve_in<P: Place>(slot: &mut Slot<P>, insertions: usize) -> Result<(), AllocError>
    ensures reserved { IsReserved (SlotFits (insertions + 2)) result slot.old slot.new }
    ensures grown { InBoth (HaveGrown (insertions + 2)) slot.old slot.new }
{
    let Some(runs) = slot else {
        return Ok(());
    };
    // Brings the bound on a capacity: so many runs never fit in.
    runs.fits_in();
    runs.reserve(insertions.checked_add(2).ok_or(AllocError)?)
}

/// Makes room for what `insertions` insertions and a fill bring in each slot that has runs.
pub(crate) fn reserve_runs<P: Place>(
    slots: &mut Vec<Slot<P>>,
    insertions: usize,
) -> Result<(), AllocError>
    ensures reserved { IsReserved (EachSlot (HasRoom nat_eq (insertions + 2))) result slots.old.items slots.new.items }
    ensures grown { ChangesEach (InBoth (HaveGrown (insertions + 2))) slots.old slots.new }
{
    for slot in slots.iter_mut() {
        reserve_in(slot, insertions)?;
    }
    Ok(())
}

fn insert_into<P: Place>(slot: &mut Slot<P>, place: usize, count: usize)
    requires { IfSome slot.old (CanTakeIn P.GREATEST place count) }
    ensures { InBoth (TookIn place count) slot.old slot.new }
{
    if let Some(runs) = slot {
        runs.insert_space(place, count);
    }
}

/// Inserts `count` places before `place`, in the runs of each indicator in use. There is usually no slot at all.
#[inline(always)]
pub(crate) fn insert_into_all<P: Place>(slots: &mut Vec<Slot<P>>, place: usize, count: usize)
    requires { EachSlot (CanTakeIn P.GREATEST place count) slots.old.items }
    ensures { ChangesEach (InBoth (TookIn place count)) slots.old slots.new }
{
    if slots.len() > 0 {
        insert_into_each(slots, place, count);
    }
}

// The slow path of `insert_into_all`, out of line: there are slots.
#[inline(never)]
fn insert_into_each<P: Place>(slots: &mut Vec<Slot<P>>, place: usize, count: usize)
    requires { EachSlot (CanTakeIn P.GREATEST place count) slots.old.items }
    ensures { ChangesEach (InBoth (TookIn place count)) slots.old slots.new }
{
    for slot in slots.iter_mut() {
        insert_into(slot, place, count);
    }
}

fn delete_from<P: Place>(slot: &mut Slot<P>, place: usize, count: usize)
    requires { IfSome slot.old (λ runs. place + count ≤ length runs.values) }
    ensures { GaveAway place count slot.old slot.new }
{
    let Some(runs) = slot else {
        return;
    };
    runs.delete_range(place, count);
    let is_clear = runs.is_all(0);
    if is_clear {
        *slot = None;
    }
}

/// Deletes `count` places from `place` on, from the runs of each indicator in use, and drops runs that are all 0 then.
/// There is usually no slot at all.
#[inline(always)]
pub(crate) fn delete_from_all<P: Place>(slots: &mut Vec<Slot<P>>, place: usize, count: usize)
    requires { EachSlot (λ runs. place + count ≤ length runs.values) slots.old.items }
    ensures { ChangesEach (GaveAway place count) slots.old slots.new }
{
    if slots.len() > 0 {
        delete_from_each(slots, place, count);
    }
}

// The slow path of `delete_from_all`, out of line: there are slots.
#[inline(never)]
fn delete_from_each<P: Place>(slots: &mut Vec<Slot<P>>, place: usize, count: usize)
    requires { EachSlot (λ runs. place + count ≤ length runs.values) slots.old.items }
    ensures { ChangesEach (GaveAway place count) slots.old slots.new }
{
    for slot in slots.iter_mut() {
        delete_from(slot, place, count);
    }
}

/// Makes room for a fill in a slot, or in the spare runs if it has none.
fn reserve_slot<P: Place>(
    slot: &mut Slot<P>,
    spare: &mut SpareRuns<P>,
    alloc: Global,
) -> Result<(), AllocError>
    ensures reserved { IsReserved (λ (both : Option (Runs ℕ) × RunCapacity). CanFill both.0 both.1) result (slot.old, spare.old) (slot.new, spare.new) }
    ensures grown { InBoth (HaveGrown 2) slot.old slot.new × SpareGrows slot.old spare.old spare.new }
{
    if let Some(runs) = slot {
        return runs.reserve(2);
    }
    spare.reserve(alloc)
}

/// Takes the runs out of a slot. If it has none, takes the spare ones, and makes them `size` places of value 0.
fn taken<P: Place>(slot: &mut Slot<P>, spare: &mut SpareRuns<P>, size: usize) -> RunStyles<P, u32>
    requires fits { size ≤ P.GREATEST }
    requires room { CanFill slot.old spare.old }
    ensures values { result.values ≡ shown size slot.old }
    ensures default { IfSome slot.old (λ runs. runs.default ≡ 0) → result.default ≡ 0 }
    ensures room { HasRoom nat_eq 2 result }
    ensures slot { slot.new ≡ None }
    ensures capacity { (result.capacity ≡ source_capacity slot.old spare.old) × (spare.new ≡ spare_left slot.old spare.old) }
{
    if let Some(runs) = slot.take() {
        return runs;
    }
    spare.take(size)
}

/// Makes room for a fill of one indicator, and for its slot.
pub(crate) fn reserve_one<P: Place>(
    slots: &mut Vec<Slot<P>>,
    spare: &mut SpareRuns<P>,
    indicator: usize,
    alloc: Global,
) -> Result<(), AllocError>
    requires { indicator < 32 }
    ensures reserved { IsReserved (CanFillAt indicator) result (stored slots.old spare.old) (stored slots.new spare.new) }
    ensures grown { GrowsForFill indicator (stored slots.old spare.old) (stored slots.new spare.new) }
{
    vec_room::reserve(slots, (indicator + 1).saturating_sub(slots.len()))?;
    if indicator < slots.len() {
        return reserve_slot(&mut slots[indicator], spare, alloc);
    }
    spare.reserve(alloc)
}

/// Sets `count` places of an indicator to a value, in its runs, or in the spare ones if it has none. Drops its runs if
/// they are all 0 then. Returns the smallest range that holds all places that changed.
pub(crate) fn fill_slot<P: Place>(
    slot: &mut Slot<P>,
    spare: &mut SpareRuns<P>,
    size: usize,
    start: usize,
    count: usize,
    value: u32,
) -> Option<(usize, usize)>
    requires fits { size ≤ P.GREATEST }
    requires within { start + count ≤ size }
    requires kept { IfSome slot.old (AreKept size) }
    requires room { CanFill slot.old spare.old }
    ensures filled { WasFilled (filled start count value (shown size slot.old)) slot.new }
    ensures changed { result ≡ changed_range (shown size slot.old) (filled start count value (shown size slot.old)) }
    ensures capacity { IfSome slot.new (λ runs. runs.capacity ≡ source_capacity slot.old spare.old) × (spare.new ≡ spare_left slot.old spare.old) }
{
    let mut runs = taken(slot, spare, size);
    let changed = runs.fill(start, count, value);
    let is_clear = runs.is_all(0);
    if !is_clear {
        *slot = Some(runs);
    }
    changed
}
