//! The parts of an edit beside its steps: the bytes that it inserts, and what follows it.

ghost use Rattle.std.specs.Prelude.{◌≡◌, length};
ghost use Rattle.ed_model.specs.declared.plan.Follow.TheVariants.{Caret, Target as follow_target};
ghost use Rattle.scene.specs.Scenes.{AreNamed, KeepWidths, views_of};
ghost use Rattle.performing.specs.Kept.{ViewsRise};
ghost use Rattle.editor_session.specs.Edits.{IsStoredIn, stored_bytes, followed_clipboard, FollowsEdit, with_caret_if};

use ed_model::{Follow, LineEnd, Source};
use ed_view::{Target, View};
use id_table::IdTable;
use selection::Selection;

/// Returns the bytes that an edit inserts. `pasted` is the clipboard with the document's line ends, if the edit inserts
/// that.
pub(crate) fn source_bytes<'a>(
    source: Source,
    text: &'a [u8],
    clipboard: &'a [u8],
    pasted: &'a [u8],
    line_end: LineEnd,
) -> &'a [u8]
    requires { IsStoredIn source (length text.now) }
    ensures { result.now ≡ stored_bytes source text.now clipboard.now pasted.now line_end }
{
    match source {
        Source::Nothing => &[],
        Source::MessageText { count } => &text[..count],
        Source::Clipboard { convert: true } => pasted,
        Source::Clipboard { convert: false } => clipboard,
        Source::LineEnd => match line_end {
            LineEnd::CrLf => b"\r\n",
            LineEnd::Cr => b"\r",
            LineEnd::Lf => b"\n",
        },
    }
}

/// Sets anchor and caret of the view with this id to `place`.
fn set_caret(views: &mut IdTable<View>, view: u32, place: usize)
    requires named { AreNamed views.old.entries }
    requires rise { ViewsRise views.old }
    ensures views { FollowsEdit view (Caret place) views.old views.new }
    ensures named { AreNamed views.new.entries }
    ensures next { views.new.next ≡ views.old.next }
    ensures widths { KeepWidths views.old views.new }
{
    if let Some(view) = views.get_mut(view) {
        view.select(Selection::at(place));
    }
}

/// Moves the caret of the view with this id to `place`, if undo or redo made a step of the text.
pub(crate) fn move_caret(views: &mut IdTable<View>, view: u32, place: Option<usize>)
    requires named { AreNamed views.old.entries }
    requires rise { ViewsRise views.old }
    ensures views { views_of views.new.entries ≡ with_caret_if view place (views_of views.old.entries) }
    ensures named { AreNamed views.new.entries }
    ensures next { views.new.next ≡ views.old.next }
    ensures widths { KeepWidths views.old views.new }
{
    let Some(place) = place else {
        return;
    };
    set_caret(views, view, place);
}

/// Sets the target of the view with this id.
fn set_target(views: &mut IdTable<View>, view: u32, start: usize, end: usize)
    requires named { AreNamed views.old.entries }
    requires rise { ViewsRise views.old }
    ensures views { FollowsEdit view (follow_target start end) views.old views.new }
    ensures named { AreNamed views.new.entries }
    ensures next { views.new.next ≡ views.old.next }
    ensures widths { KeepWidths views.old views.new }
{
    if let Some(view) = views.get_mut(view) {
        view.set_target(Target { start, end });
    }
}

/// Does what follows an edit. `taken` becomes the clipboard, if the edit takes bytes there.
pub(crate) fn follow_edit(
    views: &mut IdTable<View>,
    clipboard: &mut Vec<u8>,
    view: u32,
    follow: Follow,
    taken: Vec<u8>,
)
    requires named { AreNamed views.old.entries }
    requires rise { ViewsRise views.old }
    ensures views { FollowsEdit view follow views.old views.new }
    ensures clipboard { clipboard.new.items ≡ followed_clipboard follow taken.items clipboard.old.items }
    ensures named { AreNamed views.new.entries }
    ensures next { views.new.next ≡ views.old.next }
    ensures widths { KeepWidths views.old views.new }
{
    match follow {
        Follow::Nothing => {}
        Follow::Caret { place } => set_caret(views, view, place),
        Follow::Target { start, end } => set_target(views, view, start, end),
        Follow::Clipboard { .. } => *clipboard = taken,
    }
}
