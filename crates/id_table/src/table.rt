//! `IdTable` and its calls.
ghost use Rattle.std.specs.Prelude.{◌≡◌, ◌≤◌, ◌<◌, ◌+◌, ◌^◌, ◌∷◌, ◌++◌, [], map, length, max, IfSome, IfNone, IsOk, OnOk, is_some, option_copied, IsSome, Some};
ghost use Rattle.std.specs.Option.{option_copied_mut};
ghost use Rattle.std.specs.Borrow.{sem};
ghost use Rattle.id_table.specs.Entries.{HasRoom, KeepsCapacity, Rise, empty_table, id_of, most_ids, value_at, without_id};
ghost use Rattle.vec_room.specs.Reserved.{IsReserved};
ghost use Rattle.id_table.specs.Order.{IsOrdered, IsAt, IsNowhere};

use slab::Slab;
use std::alloc::{AllocError, Global};
use std::marker::Model;

/// Where the slab holds the value of an id.
#[derive(Clone, Copy)]
struct Place {
    id: u32,
    key: usize,
}

/// Values under ids, which rise from 1 on in the order of insertion. An id is never given again.
#[derive(Drop)]
pub struct IdTable<T> {
    slab: Slab<T>,
    // In rising order of the ids.
    order: Vec<Place>,
    next: u32,
}

impl<T> Model for IdTable<T> {
    ghost use Rattle.std.specs.Prelude.{vec_capacity};
    ghost use Rattle.id_table.specs.Entries.{Entries, table_of, table_capacity, entries_code};

    ghost Value = { Entries T };

    ghost coded = { entries_code T.code };

    ghost use Rattle.id_table.specs.Order.{entries_by, IsTable};

    ghost view = { λ t. table_of (entries_by t.slab t.order.items) t.next (table_capacity t.slab.capacity (vec_capacity t.order)) };

    ghost invariant = { λ t. IsTable t.slab t.order.items t.next };
}

/// Returns where `id` stands in the order, if it does. Looks at the last place first, since the newest value is asked
/// for most.
fn position_of(order: &[Place], id: u32) -> Option<usize>
    requires { IsOrdered order.now }
    ensures found { IfSome result (IsAt id order.now) }
    ensures missing { IfNone result (IsNowhere id order.now) }
{
    if let Some(last) = order.last() {
        if last.id == id {
            return Some(order.len() - 1);
        }
    }
    order.binary_search_by_key(&id, |place| place.id).ok()
}

impl<T> IdTable<T> {
    ghost use Rattle.id_table.specs.Lends.{lends_value, lends_value_at};

    /// Returns an empty table. Allocates nothing.
    pub fn new(alloc: Global) -> Self
        ensures { result ≡ empty_table }
    {
        IdTable {
            slab: Slab::new(alloc),
            order: Vec::new(alloc),
            next: 1,
        }
    }

    /// Returns the id that the next value gets. All ids so far are below it.
    #[tactic(auto, using(crate::proofs::EntryLemmas::ids_rise))]
    pub fn next(&self) -> u32
        ensures next { result ≡ self.now.next }
        ensures ids { Rise 1 result (map id_of self.now.entries) }
    {
        self.next
    }

    /// Returns the number of values.
    #[tactic(auto, using(crate::proofs::EntryLemmas::length_table))]
    pub fn len(&self) -> usize
        ensures { result ≡ length self.now.entries }
    {
        self.order.len()
    }

    /// Returns whether `id` has a value.
    #[tactic(auto, using(crate::proofs::EntryLemmas::table_ordered, crate::proofs::EntryLemmas::value_found, crate::proofs::EntryLemmas::value_missing))]
    pub fn contains(&self, id: u32) -> bool
        ensures { result ≡ is_some (value_at self.now.entries id) }
    {
        position_of(&self.order, id).is_some()
    }

    /// Returns the value of `id`, or `None` if it has none.
    #[tactic(auto, using(crate::proofs::EntryLemmas::table_ordered, crate::proofs::EntryLemmas::value_found, crate::proofs::EntryLemmas::value_missing))]
    pub fn get(&self, id: u32) -> Option<&T>
        ensures { option_copied result ≡ value_at self.now.entries id }
    {
        let at = position_of(&self.order, id)?;
        self.slab.get(self.order[at].key)
    }

    /// Returns the value of `id` to write to, or `None` if it has none. No other value changes.
    #[tactic(auto, using(crate::proofs::EntryLemmas::table_ordered, crate::proofs::EntryLemmas::value_found, crate::proofs::EntryLemmas::value_missing))]
    pub fn get_mut(&mut self, id: u32) -> Option<&mut T>
        ensures* writes_back { sem 𝓛 (lends_value T.row self.entry id result) }
        ensures value { option_copied_mut result ≡ value_at self.old.entries id }
    {
        let at = position_of(&self.order, id)?;
        let key = self.order[at].key;
        Some(&mut self.slab[key])
    }

    /// Returns the value of `id`, which must have one.
    pub fn at(&self, id: u32) -> &T
        requires there { IsSome (value_at self.now.entries id) }
        ensures { value_at self.now.entries id ≡ Some result.now }
    {
        let Some(value) = self.get(id) else {
            unreachable!()
        };
        value
    }

    /// Returns the value of `id`, which must have one, to write to. No other value changes.
    pub fn at_mut(&mut self, id: u32) -> &mut T
        requires there { IsSome (value_at self.old.entries id) }
        ensures* writes_back { sem 𝓛 (lends_value_at T.row self.entry id result) }
        ensures value { value_at self.old.entries id ≡ Some result.now }
    {
        let Some(value) = self.get_mut(id) else {
            unreachable!()
        };
        value
    }

    /// Makes room for `count` more values. Allocates nothing if they fit.
    ///
    /// # Errors
    ///
    /// `AllocError` if an allocation fails. The table is then unchanged, and its capacity is at least what it was.
    #[tactic(auto, using(crate::proofs::EntryLemmas::length_table))]
    pub fn reserve(&mut self, count: usize) -> Result<(), AllocError>
        ensures reserved { IsReserved (HasRoom count) result self.old self.new }
        ensures grown { (self.new ≡ record self.old { capacity = self.new.capacity }) × KeepsCapacity self.old.capacity self.new.capacity × (self.new.capacity.ids ≤ most_ids count self.old) }
    {
        self.slab.reserve(count)?;
        vec_room::reserve(&mut self.order, count)
    }

    /// Inserts `value` behind all others, and returns its id. There must be room for it.
    pub fn insert_reserved(&mut self, value: T) -> u32
        requires room { HasRoom 1 self.old }
        requires ids { self.old.next + 1 < 2 ^ 32 }
        ensures id { result ≡ self.old.next }
        ensures entries { self.new.entries ≡ self.old.entries ++ record { id = self.old.next; value = value } ∷ [] }
        ensures next { self.new.next ≡ self.old.next + 1 }
        ensures capacity { self.new.capacity ≡ self.old.capacity }
    {
        let id = self.next;
        let key = self.slab.insert_reserved(value);
        self.order.push_reserved(Place { id, key });
        self.next = id + 1;
        id
    }

    /// Removes the value of `id` and returns it, or returns `None` if it has none. The others keep their order.
    #[tactic(auto, using(crate::proofs::EntryLemmas::table_ordered, crate::proofs::EntryLemmas::value_found, crate::proofs::EntryLemmas::value_missing))]
    pub fn remove(&mut self, id: u32) -> Option<T>
        ensures value { result ≡ value_at self.old.entries id }
        ensures rest { self.new ≡ record self.old { entries = without_id id self.old.entries } }
    {
        let at = position_of(&self.order, id)?;
        let key = self.order.remove(at).key;
        Some(self.slab.remove(key))
    }
}
