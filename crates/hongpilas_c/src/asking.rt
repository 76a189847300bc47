//! Questions beside the replies: messages that change nothing, asked without replacing the last reply.

ghost use Rattle.std.specs.Prelude.{◌≡◌, ◌≢◌, [], true, length, is_some, Ok};
ghost use Rattle.ed_types.specs.declared.refusal.Refusal.TheVariants.{OutOfMemory};
ghost use Rattle.ed_model.specs.Printed.{refusal_number};
ghost use Rattle.ed_model.specs.Table.{table};
ghost use Rattle.editor_session.specs.Answers.{message_with};
ghost use Rattle.editor_session.specs.Plans.{is_free};
ghost use Rattle.hongpilas_c.specs.Asked.{is_query, refused_asking, value_answered};
ghost use Rattle.hongpilas_c.specs.Calls.{session_of, asked_of, IsRead};

use crate::answers::{DONE, number_of};
use crate::handle::Handle;
use crate::starts::tell_start;
use ed_model::queries_leave_the_session;
use ed_types::{Bytes, Refusal, Reply, columns_of};
use editor_session::Session;
use std::alloc::Global;

/// Returns whether the message with this number is a question: whether it is marked Q.
fn is_query(number: u32) -> bool
    ensures { result ≡ is_query number }
{
    match columns_of(number) {
        Some(columns) => columns.q,
        None => false,
    }
}

/// Sends a question to a view, and replaces `reply` by its reply. Returns 0 or the number of the refusal, which is that
/// of `UnknownMessage` for a message that is no question. Out of line, so that a numeric query that was asked first does
/// not pay for its stack frame.
#[tactic(auto, using(crate::proofs::Refusing::refused_as_said, crate::proofs::Refusing::memory_alone, crate::proofs::QueryAnswers::question_leaves, crate::proofs::QueryAnswers::question_refused))]
#[inline(never)]
fn send_question(
    session: &mut Session,
    view: u32,
    number: u32,
    w: i64,
    l: i64,
    reply: &mut Reply,
) -> u32
    ensures done { result ≡ 0 → table session.old view (message_with number w l []) ≡ Ok (session.old, reply.new) }
    ensures refused { result ≢ 0 → result ≡ refused_asking number (table session.old view (message_with number w l [])) }
    ensures kept { result ≢ 0 → reply.new ≡ reply.old }
    ensures same { session.new ≡ session.old }
    ensures free { is_free session.old view (message_with number w l []) ≡ true → result ≢ refusal_number OutOfMemory }
{
    // States that a question leaves the session unchanged.
    queries_leave_the_session();
    if !is_query(number) {
        return number_of(Refusal::UnknownMessage);
    }
    match session.send_into(view, number, w, l, &[], reply) {
        Ok(_) => DONE,
        Err(refusal) => number_of(refusal),
    }
}

/// Asks a view a question: a message that changes nothing. Writes to `value` what `hongpilas_send_unchecked` would
/// answer, and replaces no reply. Returns 0 or the number of the refusal, which is that of `UnknownMessage` for a message
/// that is no question.
#[unsafe(no_mangle)]
pub extern "C" fn hongpilas_ask_unchecked(
    alloc: Global,
    handle: &mut Handle,
    view: u32,
    number: u32,
    w: i64,
    l: i64,
    value: &mut i64,
) -> u32
    requires { is_some handle.old.held ≡ true }
    ensures done { result ≡ 0 → value_answered (table (session_of handle.old.held) view (message_with number w l [])) ≡ Ok value.new }
    ensures refused { result ≢ 0 → result ≡ refused_asking number (table (session_of handle.old.held) view (message_with number w l [])) }
    ensures same { handle.new.held ≡ handle.old.held }
    ensures value_kept { result ≢ 0 → value.new ≡ value.old }
    ensures free { is_free (session_of handle.old.held) view (message_with number w l []) ≡ true → result ≢ refusal_number OutOfMemory }
{
    let held = handle.held();
    if let Some(answer) = held.session.ask(view, number, w, l) {
        *value = answer;
        return DONE;
    }
    let mut reply = Reply::quiet(alloc, 0, Bytes::empty(alloc));
    let answer = send_question(&mut held.session, view, number, w, l, &mut reply);
    if answer == DONE {
        *value = reply.value();
    }
    answer
}

/// Asks a view a question as `hongpilas_ask_unchecked` does, and lends its text: sets `text` to the address of the first
/// byte, and `count` to how many there are. The text is valid until the next such call, or the session is freed.
#[unsafe(no_mangle)]
pub extern "C" fn hongpilas_read_unchecked(
    handle: &mut Handle,
    view: u32,
    number: u32,
    w: i64,
    l: i64,
    text: &mut *const u8,
    count: &mut usize,
    value: &mut i64,
) -> u32
    requires { is_some handle.old.held ≡ true }
    ensures done { result ≡ 0 → IsRead view (message_with number w l []) handle.old.held handle.new.held }
    ensures value { result ≡ 0 → value.new ≡ (asked_of handle.new.held).value }
    ensures count { result ≡ 0 → count.new ≡ length (asked_of handle.new.held).text }
    ensures refused { result ≢ 0 → result ≡ refused_asking number (table (session_of handle.old.held) view (message_with number w l [])) }
    ensures kept { result ≢ 0 → handle.new.held ≡ handle.old.held }
    ensures text_kept { result ≢ 0 → text.new ≡ text.old }
    ensures count_kept { result ≢ 0 → count.new ≡ count.old }
    ensures value_kept { result ≢ 0 → value.new ≡ value.old }
    ensures free { is_free (session_of handle.old.held) view (message_with number w l []) ≡ true → result ≢ refusal_number OutOfMemory }
{
    let held = handle.held();
    let answer = send_question(&mut held.session, view, number, w, l, &mut held.asked);
    if answer == DONE {
        *value = held.asked.value();
        *count = tell_start(held.asked.text(), text);
    }
    answer
}
