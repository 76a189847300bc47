//! Changes of the history.

ghost use Rattle.std.specs.Prelude.{[]};
ghost use Rattle.ed_model.specs.declared.plan.DocumentChange.TheVariants.{AppendContainer};
ghost use Rattle.performing.specs.Changed.{Makes};

use crate::note::{ChangeNote, note_if};
use document::Document;
use scene::leaves_save_point;
use std::alloc::AllocError;

/// Appends a container's step to the history.
pub(crate) fn append_container(
    document: &mut Document,
    token: i64,
    coalesce: bool,
) -> Result<ChangeNote, AllocError>
    ensures { Makes [] (AppendContainer token coalesce) document.old document.new result }
{
    document.reserve_container()?;
    let is_left = leaves_save_point(document);
    document.append_container_reserved(token, coalesce);
    Ok(note_if(is_left, ChangeNote::SavePointLeft))
}
