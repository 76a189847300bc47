//! Laws of what a session answers.

ghost use Rattle.editor_session.specs.Plans.{MarkedMessagesAreFree};

use ed_model::marked_plans_are_free;

/// A message that is marked as taking no memory, and that is not recorded, needs none.
pub fn marked_messages_are_free()
    ensures { MarkedMessagesAreFree }
{
    marked_plans_are_free();
}
