//! Adding and deleting markers.

ghost use Rattle.std.specs.Prelude.{◌<◌, ◌+◌, ◌^◌, length, []};
ghost use Rattle.ed_model.specs.declared.plan.DocumentChange.TheVariants as change;
ghost use Rattle.ed_model.specs.LinePlans.{numbers_in};
ghost use Rattle.ed_model.specs.Session.{lines_in};
ghost use Rattle.performing.specs.Changed.{IsMade, Makes};

use crate::laws::parts_match_text;
use crate::note::{ChangeNote, note_if};
use document::{Document, count_numbers};
use scene::document_is_small;
use std::alloc::AllocError;

/// Adds the marker `number` behind those of a line.
pub(crate) fn add_marker(
    document: &mut Document,
    line: usize,
    number: u32,
) -> Result<ChangeNote, AllocError>
    requires line { line < lines_in document.old.document }
    requires number { number < 32 }
    requires handles { document.old.document.next_handle + 1 < 2 ^ 32 }
    ensures { Makes [] (change.AddMarker line number) document.old document.new result }
{
    parts_match_text(document);
    document.reserve_markers(1)?;
    document.add_marker_reserved(line, number);
    Ok(ChangeNote::Markers { line })
}

/// Adds a marker for each bit of a mask behind those of a line.
pub(crate) fn add_markers(
    document: &mut Document,
    line: usize,
    mask: u32,
) -> Result<ChangeNote, AllocError>
    requires line { line < lines_in document.old.document }
    requires handles { document.old.document.next_handle + length (numbers_in mask) < 2 ^ 32 }
    ensures { Makes [] (change.AddMarkers line mask) document.old document.new result }
{
    parts_match_text(document);
    let count = count_numbers(mask);
    document.reserve_markers(count)?;
    document.add_markers_reserved(line, mask);
    Ok(note_if(count > 0, ChangeNote::Markers { line }))
}

/// Deletes the marker with this handle, if there is one.
pub(crate) fn delete_handle(document: &mut Document, handle: u64) -> ChangeNote
    requires { handle < document.old.document.next_handle }
    ensures { IsMade [] (change.DeleteHandle handle) document.old document.new result }
{
    document_is_small(document);
    parts_match_text(document);
    match document.delete_handle(handle as u32) {
        Some(line) => ChangeNote::Markers { line },
        None => ChangeNote::Nothing,
    }
}
