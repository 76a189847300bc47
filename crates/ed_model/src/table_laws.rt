//! Laws of the message table: what queries, messages marked N, and refusals leave unchanged.

ghost use Rattle.ed_model.specs.FreePlans.{MarkedPlansAreFree};
ghost use Rattle.ed_model.specs.TableLaws.{QueriesLeaveTheSession, RefusedCommandsCanBeLeftOut, RefusedCommandsLeaveTheSession};

/// A message marked Q leaves the session unchanged, whatever its arguments.
pub fn queries_leave_the_session()
    ensures law { QueriesLeaveTheSession }
{}

/// A command that is refused leaves the session unchanged. A run without its refused commands ends in the same session.
pub fn refusals_leave_the_session()
    ensures one { RefusedCommandsLeaveTheSession }
    ensures run { RefusedCommandsCanBeLeftOut }
{}

/// The plan of a message marked N only answers, or makes a change that allocates no memory.
pub fn marked_plans_are_free()
    ensures { MarkedPlansAreFree }
{}
