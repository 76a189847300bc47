//! The state of a session.

use document_table::DocumentTable;
use ed_types::Limits;
use ed_view::View;
use id_table::IdTable;

/// What a session keeps. Contracts see the model's session in it by `session_in`.
#[derive(Drop)]
pub struct SessionState {
    /// The documents, by id.
    pub documents: DocumentTable,
    /// The open views, by id.
    pub views: IdTable<View>,
    /// The bytes of the clipboard.
    pub clipboard: Vec<u8>,
    /// The greatest values that the session may reach.
    pub limits: Limits,
}
