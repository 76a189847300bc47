//! Setting which line ends count.

ghost use Rattle.std.specs.Prelude.{List, ℕ, IsOk, OnOk, OnErr};
ghost use Rattle.ed_model.specs.declared.plan.DocumentChange.TheVariants as change;
ghost use Rattle.notify.specs.Gathered.{Gathered};
ghost use Rattle.scene.specs.Scenes.{IsWatched};
ghost use Rattle.performing.specs.Changed.{Changes, IsUnchanged, TakesMemory};
ghost use Rattle.performing.specs.ChangeNeeds.{IsReady};

use document::Document;
use ed_model::LineEndTypes;
use ed_view::View;
use id_table::IdTable;
use line_index::fresh_lines;
use scene::{document_is_small, regroup};
use std::alloc::{AllocError, Global};

/// Sets which line ends count. The rows of the document and the flags of the views that watch it follow the lines. No
/// view is notified.
pub(crate) fn set_line_end_types(
    alloc: Global,
    document: &mut Document,
    views: &mut IdTable<View>,
    types: LineEndTypes,
) -> Result<(), AllocError>
    requires watched { IsWatched document.old.document views.old }
    ensures changed { (text : List ℕ) (sender : ℕ) (notes : Gathered) → OnOk result (Changes text (change.SetLineEndTypes types) sender document.old document.new views.old views.new notes notes) }
    ensures memory { OnOk result (TakesMemory (change.SetLineEndTypes types) document.old document.new) }
    ensures same { (notes : Gathered) → OnErr result (IsUnchanged (change.SetLineEndTypes types) document.old document.new views.old views.new notes notes) }
    ensures room_is_there { IsReady (change.SetLineEndTypes types) document.old → IsOk result }
{
    document_is_small(document);
    let edits = document.line_type_edits(alloc, types)?;
    document.reserve_lines(fresh_lines(edits.as_slice()))?;
    regroup(document, views, types, edits.as_slice());
    document.set_line_end_types(types, edits.as_slice());
    Ok(())
}
