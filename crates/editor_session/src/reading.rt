//! Text queries to a session, whose bytes are put into a reply before any plan is made.

ghost use Rattle.std.specs.Prelude.{◌≡◌, ◌≤◌, ◌+◌, Ok, Some, OnOk, OnErr, IfNone, IfSome, length, slice_range};
ghost use Rattle.ed_model.specs.Session.{text_of};
ghost use Rattle.ed_model.specs.Table.{table};
ghost use Rattle.message_plans.specs.Asking.{text_question_of};

use crate::attached::{look_up, request_to};
use crate::session::Session;
use document::Document;
use ed_model::plans_are_fit;
use ed_types::{Bytes, Kind, Reply, kinds_and_numbers};
use message_plans::handed_of;
use message_requests::SentMessage;
use std::alloc::{AllocError, Global};

/// The greatest capacity, in bytes, of a buffer that stays as large as it is, however short the text that is read.
const MOST_KEPT: usize = 4096;

/// Replaces the contents of a buffer by the `count` bytes of a document from `start` on. A buffer that is too small is
/// replaced by a larger one, with so much spare capacity that ever longer texts take amortised constant time for each
/// byte. If the bytes fill less than a quarter of a large buffer, the rest of it is freed.
///
/// # Errors
///
/// `AllocError` if an allocation fails. The buffer is then as it was.
fn read_bytes(
    alloc: Global,
    document: &Document,
    start: usize,
    count: usize,
    into: &mut Vec<u8>,
) -> Result<(), AllocError>
    requires range { start + count ≤ length document.now.document.cells }
    ensures bytes { OnOk result (into.new.items ≡ slice_range (text_of document.now.document) start (start + count)) }
    ensures err { OnErr result (into.new ≡ into.old) }
{
    let capacity = into.capacity();
    if count > capacity {
        *into = document.text_to_vec(alloc, start, count, capacity)?;
        return Ok(());
    }
    into.clear();
    let Ok(()) = document.append_text_to(start, count, into) else {
        unreachable!()
    };
    if MOST_KEPT < capacity && count < capacity / 4 {
        into.shrink_to_fit();
    }
    Ok(())
}

/// Answers this text query to `view`: replaces `reply` by its value and bytes, in the buffer of the text before, and
/// returns the value. `None`, with `reply` as it was, if the table refuses the query, it hands out no bytes or an
/// allocation fails.
#[inline(never)]
pub(crate) fn read_into(
    session: &Session,
    view: u32,
    kind: Kind,
    message: &SentMessage,
    reply: &mut Reply,
) -> Option<i64>
    requires question { text_question_of message.now.number ≡ Some kind }
    ensures answer { IfSome result (λ _. table session.now view message.now ≡ Ok (session.now, reply.new)) }
    ensures value { IfSome result (λ value. reply.new.value ≡ value) }
    ensures same { IfNone result (reply.new ≡ reply.old) }
{
    // States that each kind is found by its number, and that what is handed out lies in the text.
    kinds_and_numbers();
    plans_are_fit();
    let Some(found) = look_up(&session.state, view) else {
        return None;
    };
    let request = request_to(&session.state, found, message);
    let Some(handed) = handed_of(kind, &request) else {
        return None;
    };
    let mut bytes = reply.replace_text(Bytes::empty(session.alloc)).into_vec();
    match read_bytes(
        session.alloc,
        found.document,
        handed.start,
        handed.count,
        &mut bytes,
    ) {
        Ok(()) => {
            reply.answer(handed.value);
            let _ = reply.replace_text(Bytes::new(bytes));
            Some(handed.value)
        }
        Err(_) => {
            let _ = reply.replace_text(Bytes::new(bytes));
            None
        }
    }
}
