//! What a handle points to.

use ed_types::Reply;
use editor_session::Session;

/// A session with the reply to its last message, so that C does not have to free replies.
#[derive(Drop)]
pub struct Held {
    /// The session.
    pub session: Session,
    /// The reply to the last message.
    pub reply: Reply,
    /// The answer to the last question beside the replies, whose text C borrows.
    pub asked: Reply,
}
