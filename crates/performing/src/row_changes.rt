//! Setting the fold levels and the states of lines.

ghost use Rattle.std.specs.Prelude.{◌≡◌, ◌<◌, ◌-◌, ◌^◌, true, pos, negsuc, int_le, OnErr, []};
ghost use Rattle.ed_model.specs.declared.plan.DocumentChange.TheVariants as change;
ghost use Rattle.ed_model.specs.Session.{lines_in};
ghost use Rattle.performing.specs.Changed.{Makes};

use crate::note::{ChangeNote, note_if};
use document::Document;
use std::alloc::AllocError;

/// Sets the fold level of a line.
pub(crate) fn set_level(
    document: &mut Document,
    line: usize,
    level: u32,
) -> Result<ChangeNote, AllocError>
    requires { line < lines_in document.old.document }
    ensures made { Makes [] (change.SetLevel line level) document.old document.new result }
    ensures err { OnErr result (document.new ≡ document.old) }
{
    document.reserve_level(line)?;
    let before = document.set_level(line, level);
    Ok(note_if(
        before != level,
        ChangeNote::Level {
            line,
            level,
            before,
        },
    ))
}

/// Sets the state of a line.
pub(crate) fn set_state(
    document: &mut Document,
    line: usize,
    state: i32,
) -> Result<ChangeNote, AllocError>
    requires { line < lines_in document.old.document }
    ensures { Makes [] (change.SetState line state) document.old document.new result }
{
    document.reserve_state(line)?;
    let before = document.set_state(line, state);
    Ok(note_if(before != state, ChangeNote::State { line }))
}
