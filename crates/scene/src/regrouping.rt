//! The views that watch a document follow when other line ends count.

ghost use Rattle.std.specs.Prelude.{◌≡◌, List, map};
ghost use Rattle.ed_model.specs.declared.plan.DocumentChange.TheVariants.{SetLineEndTypes};
ghost use Rattle.ed_model.specs.Rows.{Row};
ghost use Rattle.ed_model.specs.Session.{text_of};
ghost use Rattle.ed_model.specs.Changes.{changed_lines};
ghost use Rattle.line_index.specs.Settings.{edits_of_setting};
ghost use Rattle.scene.specs.Scenes.{IsWatched, ViewsStay, views_in};

use crate::laws::document_is_small;
use crate::moving::follow;
use document::Document;
use ed_model::{LineEndTypes, rows_match_lines, rows_that_meet};
use ed_view::View;
use id_table::IdTable;
use line_index::{LineEdit, edits_of_settings};
use selection::Movement;

/// Adapts the flags of the views that watch the document to the lines that it has once these line ends count. `edits`
/// are the changes of its lines. The caller changes the document afterwards.
pub fn regroup(
    document: &Document,
    views: &mut IdTable<View>,
    types: LineEndTypes,
    edits: &[LineEdit],
)
    requires watched { IsWatched document.now.document views.old }
    requires edits { edits.now ≡ edits_of_setting document.now.document.line_end_types types (text_of document.now.document) }
    ensures views { views_in views.new ≡ map (changed_lines (SetLineEndTypes types) document.now.document) (views_in views.old) }
    ensures watched { (rows : List Row) → IsWatched (record document.now.document { line_end_types = types; rows = rows }) views.new }
    ensures stay { ViewsStay views.old views.new }
{
    edits_of_settings();
    rows_match_lines();
    rows_that_meet();
    document_is_small(document);
    // Moves no place.
    let nowhere = Movement::Inserted { place: 0, count: 0 };
    follow(document.views(), views, nowhere, edits);
}
