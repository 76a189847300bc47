//! `UndoHistory` and its calls.

ghost use Rattle.std.specs.Prelude.{true, false, [], ◌≡◌, ◌<◌, ◌+◌, ◌^◌, ◌==◌, if◌then◌else◌, length, slice_get, OnOk};
ghost use Rattle.ed_model.specs.History.{at_save_point, can_undo, can_redo, undone, redone, undo_changes, redo_changes};
ghost use Rattle.ed_model.specs.History.{begins_transaction, appended, joins, TextStep, with_change, with_container_step};
ghost use Rattle.ed_model.specs.History.{sealed_outside_groups, group_begun, group_ended, saved, emptied, reachable};
ghost use Rattle.ed_model.specs.History.{inverse_change};
ghost use Rattle.ed_model.specs.Numbers.{is_number};
ghost use Rattle.undo_history.specs.Kept.{CapacityAtMost, Fits, HasRoom, KeepsCapacity};
ghost use Rattle.undo_history.specs.Kept.{fresh, holding_nothing, with_collecting};
ghost use Rattle.undo_history.specs.Records.{change_lent, change_of, step_of, HasItsBytes, LastIsOpen};
ghost use Rattle.vec_room.specs.Reserved.{IsReserved};

use crate::joining::{belongs, latest_after};
use crate::records::{
    ChangeKind, LentChange, StepKind, StepOutline, StepRecord, all_bytes, all_steps, bytes_before,
    change_at, end_of, seal,
};
use crate::runs::{count_before, count_behind, is_last_of_next};
use split_vector::SplitVector;
use std::alloc::{AllocError, Global};
use std::marker::Model;

/// The undo history of a document. Undo and redo move a boundary among the records; an append drops the records behind
/// it.
#[derive(Drop)]
pub struct UndoHistory {
    alloc: Global,
    // The gap of both stands behind all items, since items are only appended, or deleted at the end.
    steps: SplitVector<StepRecord>,
    bytes: SplitVector<u8>,
    // The number of past steps. The others can be redone.
    past: usize,
    // The number of past transactions.
    transactions: usize,
    // The latest step of the text in the last transaction, unless that is sealed: no change joins it then. So undo and
    // redo need not look for it.
    latest: Option<StepOutline>,
    save_point: Option<usize>,
    depth: u64,
    is_collecting: bool,
}

impl Model for UndoHistory {
    ghost use Rattle.undo_history.specs.Kept.{Kept, kept, history_capacity};

    ghost Value = { Kept };

    ghost use Rattle.std.specs.Prelude.{◌≡◌, length};
    ghost use Rattle.undo_history.specs.Records.{history_of, entries_in, past_of, IsInOrder};
    ghost use Rattle.undo_history.specs.Joining.{IsLatest};

    ghost view = { λ h.
        kept (history_of (entries_in h.steps.items h.bytes.items) h.past h.save_point h.depth h.is_collecting)
        (history_capacity h.steps.capacity h.bytes.capacity) };

    ghost invariant = { λ h. record {
      in_order : IsInOrder h.steps.items h.bytes.items h.past h.transactions;
      latest : IsLatest (past_of h.steps.items h.bytes.items h.past) h.latest;
      step_gap : h.steps.gap ≡ length h.steps.items;
      byte_gap : h.bytes.gap ≡ length h.bytes.items;
    } };
}

impl UndoHistory {
    /// Returns a fresh history. Allocates nothing.
    pub fn new(alloc: Global) -> Self
        ensures { result ≡ fresh }
    {
        UndoHistory {
            alloc,
            steps: SplitVector::new(alloc),
            bytes: SplitVector::new(alloc),
            past: 0,
            transactions: 0,
            latest: None,
            save_point: Some(0),
            depth: 0,
            is_collecting: true,
        }
    }

    /// Returns whether the document counts as unmodified.
    pub fn is_at_save_point(&self) -> bool
        ensures { result ≡ at_save_point self.now.history }
    {
        is_place(self.save_point, self.transactions)
    }

    /// Returns whether the document counts as unmodified after an undo of the last transaction. If there is none to
    /// undo, returns whether it does now.
    #[inline]
    pub fn undo_gets_to_save_point(&self) -> bool
        ensures { result ≡ at_save_point (undone self.now.history) }
    {
        is_place(self.save_point, self.transactions.saturating_sub(1))
    }

    /// Returns whether the document counts as unmodified after a redo of the next transaction. If there is none to
    /// redo, returns whether it does now.
    #[inline]
    pub fn redo_gets_to_save_point(&self) -> bool
        ensures { result ≡ at_save_point (redone self.now.history) }
    {
        if self.past == self.steps.len() {
            return self.is_at_save_point();
        }
        is_place(self.save_point, self.transactions + 1)
    }

    /// Returns whether there is a transaction to undo and no group is open.
    pub fn can_undo(&self) -> bool
        ensures { result ≡ can_undo self.now.history }
    {
        self.depth == 0 && self.transactions > 0
    }

    /// Returns whether there is a transaction to redo and no group is open.
    pub fn can_redo(&self) -> bool
        ensures { result ≡ can_redo self.now.history }
    {
        self.depth == 0 && self.past < self.steps.len()
    }

    /// Returns whether steps are collected.
    pub fn is_collecting(&self) -> bool
        ensures { result ≡ self.now.history.collecting }
    {
        self.is_collecting
    }

    /// Returns how many groups are open.
    pub fn depth(&self) -> u64
        ensures { result ≡ self.now.history.depth }
    {
        self.depth
    }

    /// Makes room for `steps` more steps, with `bytes` bytes in all. Allocates nothing if they fit, and frees nothing. A
    /// block that is too small grows to twice its size, or to what was requested if that is more. A history that does
    /// not collect allocates nothing.
    ///
    /// # Errors
    ///
    /// `AllocError` if an allocation fails. The history is then unchanged, and its capacity is at least what it was.
    #[inline(always)]
    pub fn reserve(&mut self, steps: usize, bytes: usize) -> Result<(), AllocError>
        ensures reserved { IsReserved (HasRoom steps bytes) result self.old self.new }
        ensures grown { (self.new ≡ record self.old { capacity = self.new.capacity }) × KeepsCapacity self.old.capacity self.new.capacity × CapacityAtMost steps bytes self.old self.new }
    {
        if !self.is_collecting {
            return Ok(());
        }
        if steps <= self.steps.spare() && bytes <= self.bytes.spare() {
            return Ok(());
        }
        self.grow(steps, bytes)
    }

    // The slow path of `reserve`, out of line: a block is too small.
    #[inline(never)]
    fn grow(&mut self, steps: usize, bytes: usize) -> Result<(), AllocError>
        ensures ok { OnOk result (Fits steps bytes self.new) }
        ensures grown { (self.new ≡ record self.old { capacity = self.new.capacity }) × KeepsCapacity self.old.capacity self.new.capacity × CapacityAtMost steps bytes self.old self.new }
    {
        self.steps.reserve(steps)?;
        self.bytes.reserve(bytes)
    }

    /// A law: what the history holds fits in.
    pub fn fits_in(&self)
        ensures { Fits 0 0 self.now }
    {
        // `len` says so of each block.
        self.steps.len();
        self.bytes.len();
    }

    /// Seals the last transaction unless a group is open: no step joins it any more.
    pub fn seal_outside_groups(&mut self)
        ensures { self.new ≡ record self.old { history = sealed_outside_groups self.old.history } }
    {
        if self.depth == 0 {
            seal(&mut self.steps, self.past);
        }
    }

    /// Appends a container's own step with this token. A step that does not coalesce seals its transaction, unless a
    /// group is open. There must be room for a step without bytes.
    pub fn append_container_reserved(&mut self, token: i64, coalesce: bool)
        requires { HasRoom 1 0 self.old }
        ensures { self.new ≡ record self.old { history = with_container_step token coalesce self.old.history } }
    {
        self.append(false, ChangeKind::Container { token, coalesce }, &[]);
        if !coalesce && self.is_collecting {
            self.seal_outside_groups();
        }
    }

    /// Makes this state the save point: the document counts as unmodified here.
    pub fn set_save_point(&mut self)
        ensures { self.new ≡ record self.old { history = saved self.old.history } }
    {
        self.save_point = Some(self.transactions);
    }

    /// Opens a group. Its steps are one transaction, which no earlier step belongs to.
    pub fn begin_group(&mut self)
        requires { self.old.history.depth + 1 < 2 ^ 64 }
        ensures { self.new ≡ record self.old { history = group_begun self.old.history } }
    {
        self.seal_outside_groups();
        self.depth += 1;
    }

    /// Closes the innermost group, if one is open.
    pub fn end_group(&mut self)
        ensures { self.new ≡ record self.old { history = group_ended self.old.history } }
    {
        if self.depth == 0 {
            return;
        }
        self.depth -= 1;
        self.seal_outside_groups();
    }

    /// Forgets all steps, and frees all memory. This state becomes the save point, and no group is open. Allocates
    /// nothing.
    pub fn empty(&mut self)
        ensures { self.new ≡ holding_nothing (emptied self.old.history) }
    {
        self.steps = SplitVector::new(self.alloc);
        self.bytes = SplitVector::new(self.alloc);
        self.past = 0;
        self.transactions = 0;
        self.latest = None;
        self.save_point = Some(0);
        self.depth = 0;
    }

    /// Turns the collection of steps on or off. When it is off, the history forgets all but whether the document counts
    /// as modified, and frees the memory of its steps like `empty`.
    pub fn set_collecting(&mut self, on: bool)
        ensures { self.new ≡ with_collecting on self.old }
    {
        if on {
            self.is_collecting = true;
            return;
        }
        let saved = self.is_at_save_point();
        self.empty();
        if !saved {
            self.save_point = None;
        }
        self.is_collecting = false;
    }

    /// Moves the last past transaction to those that can be redone, and seals the one before it. The caller reverts its
    /// changes.
    pub fn undo(&mut self)
        ensures { self.new ≡ record self.old { history = undone self.old.history } }
    {
        if self.past == 0 {
            return;
        }
        self.past -= count_before(all_steps(&self.steps), self.past);
        self.transactions -= 1;
        seal(&mut self.steps, self.past);
    }

    /// Moves the next transaction that can be redone to the past, and seals it. The caller makes its changes again.
    pub fn redo(&mut self)
        ensures { self.new ≡ record self.old { history = redone self.old.history } }
    {
        let count = count_behind(all_steps(&self.steps), self.past);
        if count == 0 {
            return;
        }
        self.past += count;
        self.transactions += 1;
        seal(&mut self.steps, self.past);
    }

    /// Returns how many changes an undo reverts: 0 if there is nothing to undo.
    pub fn undo_len(&self) -> usize
        ensures { result ≡ length (undo_changes self.now.history) }
    {
        count_before(all_steps(&self.steps), self.past)
    }

    /// Returns the change that an undo reverts at `index`, counted from 0 in the order of reverting: what was done, its
    /// bytes, and whether it is the last of its transaction. Allocates nothing.
    pub fn change_to_undo(&self, index: usize) -> LentChange
        requires { index < length (undo_changes self.now.history) }
        ensures change { slice_get (undo_changes self.now.history) index ≡ Some (inverse_change (change_lent result)) }
        ensures bytes { HasItsBytes result.kind result.bytes.now }
        ensures last { result.is_last ≡ (index + 1 == length (undo_changes self.now.history)) }
    {
        let steps = all_steps(&self.steps);
        let place = self.past - 1 - index;
        let (kind, bytes) = change_at(steps, all_bytes(&self.bytes), place);
        let is_last = steps[place].starts;
        LentChange {
            kind,
            bytes,
            is_last,
        }
    }

    /// Returns how many changes a redo makes: 0 if there is nothing to redo.
    pub fn redo_len(&self) -> usize
        ensures { result ≡ length (redo_changes self.now.history) }
    {
        count_behind(all_steps(&self.steps), self.past)
    }

    /// Returns the change that a redo makes at `index`, counted from 0 in the order of making: what is done, its bytes,
    /// and whether it is the last of its transaction. Allocates nothing.
    pub fn change_to_redo(&self, index: usize) -> LentChange
        requires { index < length (redo_changes self.now.history) }
        ensures change { slice_get (redo_changes self.now.history) index ≡ Some (change_lent result) }
        ensures bytes { HasItsBytes result.kind result.bytes.now }
        ensures last { result.is_last ≡ (index + 1 == length (redo_changes self.now.history)) }
    {
        let steps = all_steps(&self.steps);
        let place = self.past + index;
        let (kind, bytes) = change_at(steps, all_bytes(&self.bytes), place);
        let is_last = is_last_of_next(steps, place);
        LentChange {
            kind,
            bytes,
            is_last,
        }
    }

    // Appends a change, and returns whether it begins a transaction. There must be room for it.
    #[inline(always)]
    fn append(&mut self, later: bool, kind: ChangeKind, bytes: &[u8]) -> bool
        requires room { HasRoom 1 (length bytes.now) self.old }
        requires own { HasItsBytes kind bytes.now }
        ensures history { self.new ≡ record self.old { history = appended later (change_of kind bytes.now) self.old.history } }
        ensures begins { result ≡ begins_transaction later (change_of kind bytes.now) self.old.history }
    {
        if !self.is_collecting {
            return false;
        }
        let joined = self.joins(later, kind, bytes);
        self.drop_future();
        self.push(joined, kind, bytes);
        !joined
    }

    /// Appends a step of the text, and returns whether it begins a transaction. `later` says that it is not the first
    /// step of its message. There must be room for it.
    pub fn append_reserved(
        &mut self,
        later: bool,
        kind: StepKind,
        place: usize,
        bytes: &[u8],
    ) -> bool
        requires { HasRoom 1 (length bytes.now) self.old }
        ensures history { self.new ≡ record self.old { history = appended later (TextStep (step_of kind place bytes.now)) self.old.history } }
        ensures begins { result ≡ begins_transaction later (TextStep (step_of kind place bytes.now)) self.old.history }
    {
        if self.steps.len() > self.past {
            return self.append_instead(later, kind, place, bytes);
        }
        self.append(later, ChangeKind::Text { kind, place }, bytes)
    }

    // Appends a step of the text, and drops what was undone. Out of line, since it is rare: a step behind all others is
    // appended without a call.
    #[inline(never)]
    fn append_instead(&mut self, later: bool, kind: StepKind, place: usize, bytes: &[u8]) -> bool
        requires { HasRoom 1 (length bytes.now) self.old }
        ensures history { self.new ≡ record self.old { history = appended later (TextStep (step_of kind place bytes.now)) self.old.history } }
        ensures begins { result ≡ begins_transaction later (TextStep (step_of kind place bytes.now)) self.old.history }
    {
        let change = ChangeKind::Text { kind, place };
        self.append(later, change, bytes)
    }

    /// Returns whether a step would begin a transaction.
    pub fn begins_transaction(
        &self,
        later: bool,
        kind: StepKind,
        place: usize,
        bytes: &[u8],
    ) -> bool
        ensures { result ≡ begins_transaction later (TextStep (step_of kind place bytes.now)) self.now.history }
    {
        self.is_collecting && !self.joins(later, ChangeKind::Text { kind, place }, bytes)
    }

    // Returns whether a change joins the last transaction. `later` says that it is not the first step of its message.
    #[inline]
    fn joins(&self, later: bool, kind: ChangeKind, bytes: &[u8]) -> bool
        ensures { result ≡ joins later (change_of kind bytes.now) self.now.history }
    {
        if self.past == 0 {
            return false;
        }
        let steps = all_steps(&self.steps);
        if steps[self.past - 1].is_sealed || self.is_at_save_point() {
            return false;
        }
        if self.depth > 0 || later {
            return true;
        }
        belongs(kind, bytes.len(), self.latest)
    }

    // Drops what was undone, and the save point if only a redo could reach it.
    #[inline(always)]
    fn drop_future(&mut self)
        ensures { self.new ≡ record self.old { history = record self.old.history { future = []; save_point = reachable (length self.old.history.past) self.old.history.save_point } } }
    {
        self.drop_undone();
        if is_lost(self.transactions, self.save_point) {
            self.save_point = None;
        }
    }

    // Drops what was undone. There is usually nothing.
    #[inline(always)]
    fn drop_undone(&mut self)
        ensures { self.new ≡ record self.old { history = record self.old.history { future = [] } } }
    {
        if self.past < self.steps.len() {
            self.delete_undone();
        }
    }

    // The slow path of `drop_undone`, out of line: something was undone.
    #[inline(never)]
    fn delete_undone(&mut self)
        ensures { self.new ≡ record self.old { history = record self.old.history { future = [] } } }
    {
        let kept = bytes_before(all_steps(&self.steps), self.past);
        let steps = self.steps.len();
        let bytes = self.bytes.len();
        self.steps.delete(self.past, steps - self.past);
        self.bytes.delete(kept, bytes - kept);
    }

    // Appends a change, to the last transaction or as a new one. There is nothing to redo.
    #[inline(always)]
    fn push(&mut self, joined: bool, kind: ChangeKind, bytes: &[u8])
        requires last { self.old.history.future ≡ [] }
        requires begun { joined ≡ true → LastIsOpen self.old.history.past }
        requires room { Fits 1 (length bytes.now) self.old }
        requires own { HasItsBytes kind bytes.now }
        ensures { self.new ≡ record self.old { history = record self.old.history { past = with_change joined (change_of kind bytes.now) self.old.history.past } } }
    {
        let stored = end_of(&self.bytes);
        self.bytes.insert_slice_reserved(stored, bytes);
        let step = StepRecord {
            kind,
            bytes_end: stored + bytes.len(),
            starts: !joined,
            is_sealed: false,
        };
        let place = end_of(&self.steps);
        self.steps.insert_reserved(place, step);
        self.past += 1;
        self.transactions = transactions_after(self.transactions, joined);
        self.latest = latest_after(self.latest, joined, kind, bytes.len());
    }
}

// Returns whether the save point is the state behind so many transactions.
fn is_place(save_point: Option<usize>, transactions: usize) -> bool
    ensures { result ≡ is_number transactions save_point }
{
    match save_point {
        Some(place) => place == transactions,
        None => false,
    }
}

// Returns whether a past of `past` transactions can no longer reach the save point. It usually can, and nothing is
// written then.
#[inline(always)]
fn is_lost(past: usize, save_point: Option<usize>) -> bool
    ensures lost { result ≡ true → reachable past save_point ≡ None }
    ensures kept { result ≡ false → reachable past save_point ≡ save_point }
{
    match save_point {
        Some(place) => place > past,
        None => false,
    }
}

// Returns the number of transactions once a change has joined the last one, or has begun another.
fn transactions_after(count: usize, joined: bool) -> usize
    requires { count < 2 ^ 63 }
    ensures { result ≡ (if joined then count else count + 1) }
{
    if joined { count } else { count + 1 }
}
