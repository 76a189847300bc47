//! Laws: public functions that do nothing, whose contracts state what holds for all documents, scenes and steps.

ghost use Rattle.std.specs.Prelude.{◌<◌, ◌^◌, length};
ghost use Rattle.ed_model.specs.Session.{lines_in};
ghost use Rattle.document.specs.Kept.{FitsWidth};
ghost use Rattle.scene.specs.Needs.{NeedsAreEnough};

use document::Document;

/// An edit appends at most as many notes as its steps need on the scene before them, and shares at most as many bytes.
pub fn needs_are_enough()
    ensures { NeedsAreEnough }
{}

/// The text and the lines of a document are few enough that no sum of places wraps, and the handles of its markers are
/// numbers of `u32`.
#[inline(always)]
pub fn document_is_small(document: &Document)
    ensures text { length document.now.document.cells < 2 ^ 61 }
    ensures width { FitsWidth document.now.document (length document.now.document.cells) }
    ensures lines { lines_in document.now.document < 2 ^ 63 }
    ensures handles { document.now.document.next_handle < 2 ^ 32 }
{
    document.len();
    document.line_count();
    document.rows().next_handle();
}
