//! Replies that are left in a place of the caller's.

ghost use Rattle.std.specs.Prelude.{◌≡◌};

use ed_types::Reply;

/// Replaces a reply.
fn put(reply: &mut Reply, new: Reply)
    ensures { reply.new ≡ new }
{
    *reply = new;
}

/// Replaces `reply` by `new`. If that is a value alone, a small buffer of the text is kept for the next text. Inlined
/// with its caller, `perform_message`: as calls, this and `record_if` cost a byte typed 48 instructions.
#[inline(always)]
pub(crate) fn keep(reply: &mut Reply, new: Reply)
    ensures { reply.new ≡ new }
{
    if new.text().is_empty() && new.note_count() == 0 {
        reply.answer(new.value());
        return;
    }
    put(reply, new);
}
