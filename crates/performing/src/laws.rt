//! Laws: functions that do nothing, whose contracts state what holds for all documents.

ghost use Rattle.std.specs.Prelude.{◌≡◌, List, ℕ, length};
ghost use Rattle.std.specs.List.{AllByRecursion};
ghost use Rattle.ed_model.specs.Session.{lines_in};

use document::Document;

/// A document has a row for each of its lines, and a value of each indicator for each of its bytes.
pub(crate) fn parts_match_text(document: &Document)
    ensures rows { length document.now.document.rows ≡ lines_in document.now.document }
    ensures indicators { let d = document.now.document in AllByRecursion (λ (values : List ℕ). length values ≡ length d.cells) d.indicators }
{
    document.rows();
    document.indicators().length();
}
