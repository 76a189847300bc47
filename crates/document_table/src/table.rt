//! `DocumentTable` and its calls.
ghost use Rattle.std.specs.Prelude.{◌≡◌, ◌≢◌, ◌≤◌, ◌<◌, ◌+◌, ◌^◌, ◌∷◌, ◌++◌, ℕ, [], map, IfSome, IsSome, IsSomeAnd, Some, option_copied};
ghost use Rattle.std.specs.Option.{option_copied_mut};
ghost use Rattle.std.specs.Borrow.{sem};
ghost use Rattle.ed_model.specs.Session.{left_by};
ghost use Rattle.id_table.specs.Entries.{HasRoom, KeepsCapacity, Rise, empty_table, entry, id_of, most_ids, value_at, without_id};
ghost use Rattle.vec_room.specs.Reserved.{IsReserved};
ghost use Rattle.document_table.specs.Leaving.{documents_in, let_go, released, KeepsRest};

use document::Document;
use id_table::IdTable;
use std::alloc::{AllocError, Global};
use std::marker::Model;

/// The documents of a session, by id.
#[derive(Drop)]
pub struct DocumentTable {
    documents: IdTable<Document>,
}

impl Model for DocumentTable {
    ghost use Rattle.id_table.specs.Entries.{Entries, entries_code};
    ghost use Rattle.document.specs.Kept.{Kept};

    ghost Value = { Entries Kept };

    ghost view = { λ t. t.documents };
}

impl DocumentTable {
    ghost use Rattle.document_table.specs.Lends.{lends_document, lends_document_at};

    /// Returns a table without documents. Allocates nothing.
    pub fn new(alloc: Global) -> Self
        ensures { result ≡ empty_table }
    {
        DocumentTable {
            documents: IdTable::new(alloc),
        }
    }

    /// Returns the id that the next document gets. Ids rise from 1 on, and all ids so far are below it.
    pub fn next(&self) -> u32
        ensures next { result ≡ self.now.next }
        ensures ids { Rise 1 result (map id_of self.now.entries) }
    {
        self.documents.next()
    }

    /// Returns the document with the id, or `None` if there is none.
    pub fn get(&self, id: u32) -> Option<&Document>
        ensures { option_copied result ≡ value_at self.now.entries id }
    {
        self.documents.get(id)
    }

    /// Returns the document with the id to write to, or `None` if there is none. No other document changes.
    pub fn get_mut(&mut self, id: u32) -> Option<&mut Document>
        ensures* writes_back { sem 𝓛 (lends_document self.entry id result) }
        ensures value { option_copied_mut result ≡ value_at self.old.entries id }
    {
        self.documents.get_mut(id)
    }

    /// Returns the document with the id, which must be there.
    pub fn at(&self, id: u32) -> &Document
        requires there { IsSome (value_at self.now.entries id) }
        ensures { value_at self.now.entries id ≡ Some result.now }
    {
        self.documents.at(id)
    }

    /// Returns the document with the id, which must be there, to write to. No other document changes.
    pub fn at_mut(&mut self, id: u32) -> &mut Document
        requires there { IsSome (value_at self.old.entries id) }
        ensures* writes_back { sem 𝓛 (lends_document_at self.entry id result) }
        ensures value { value_at self.old.entries id ≡ Some result.now }
    {
        self.documents.at_mut(id)
    }

    /// Makes room for `count` more documents. Allocates nothing if they fit.
    ///
    /// # Errors
    ///
    /// `AllocError` if an allocation fails. The table is then unchanged, and its capacity is at least what it was.
    pub fn reserve(&mut self, count: usize) -> Result<(), AllocError>
        ensures reserved { IsReserved (HasRoom count) result self.old self.new }
        ensures grown { (self.new ≡ record self.old { capacity = self.new.capacity }) × KeepsCapacity self.old.capacity self.new.capacity × (self.new.capacity.ids ≤ most_ids count self.old) }
    {
        self.documents.reserve(count)
    }

    /// Adds a document, and returns its id, which is never given again. There must be room for it.
    pub fn insert_reserved(&mut self, document: Document) -> u32
        requires room { HasRoom 1 self.old }
        requires ids { self.old.next + 1 < 2 ^ 32 }
        ensures id { result ≡ self.old.next }
        ensures entries { self.new.entries ≡ self.old.entries ++ entry self.old.next document ∷ [] }
        ensures next { self.new.next ≡ self.old.next + 1 }
        ensures capacity { self.new.capacity ≡ self.old.capacity }
    {
        self.documents.insert_reserved(document)
    }

    fn remove(&mut self, id: u32)
        ensures { self.new ≡ record self.old { entries = without_id id self.old.entries } }
    {
        let _removed = self.documents.remove(id);
    }

    /// Detaches a view from a document, and drops the document if that was its last reference. Allocates nothing.
    pub fn leave(&mut self, id: u32, view: u32)
        ensures documents { documents_in self.new.entries ≡ let_go id (left_by view) (documents_in self.old.entries) }
        ensures others { (other : ℕ) → other ≢ id → value_at self.new.entries other ≡ value_at self.old.entries other }
        ensures rest { KeepsRest id self.old.entries self.new.entries }
        ensures next { self.new.next ≡ self.old.next }
        ensures capacity { self.new.capacity ≡ self.old.capacity }
    {
        let Some(document) = self.get_mut(id) else {
            return;
        };
        document.detach(view);
        if !document.has_references() {
            self.remove(id);
        }
    }

    /// Releases a caller's reference to a document, and drops the document if that was its last reference
    /// (`SCI_RELEASEDOCUMENT`). Allocates nothing.
    pub fn release(&mut self, id: u32)
        ensures documents { documents_in self.new.entries ≡ let_go id released (documents_in self.old.entries) }
        ensures others { (other : ℕ) → other ≢ id → value_at self.new.entries other ≡ value_at self.old.entries other }
        ensures rest { KeepsRest id self.old.entries self.new.entries }
        ensures next { self.new.next ≡ self.old.next }
        ensures capacity { self.new.capacity ≡ self.old.capacity }
    {
        let Some(document) = self.get_mut(id) else {
            return;
        };
        document.release();
        if !document.has_references() {
            self.remove(id);
        }
    }
}
