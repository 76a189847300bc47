//! Text queries: their bytes go to the reply's own buffer.

use ed_types::{Bytes, Kind, Refusal, Reply};
use editor_session::Session;
use std::process::Abort;

/// Inserts bytes at a place of the first view's document.
fn put(rt: &impl Abort, session: &mut Session, place: i64, bytes: &[u8]) {
    let number = Kind::InsertText.number();
    let reply = session.send_lent(1, number, place, 0, bytes);
    assert!(rt; reply.is_ok());
}

/// Asserts the value and the text that a text query answers, without notes.
fn assert_read(
    rt: &impl Abort,
    session: &mut Session,
    kind: Kind,
    w: i64,
    l: i64,
    reply: &mut Reply,
    value: i64,
    text: &[u8],
) {
    let answer = session.send_into(1, kind.number(), w, l, &[], reply);
    assert_eq!(rt; answer, Ok(value));
    assert_eq!(rt; reply.value(), value);
    assert_eq!(rt; reply.text(), text);
    assert_eq!(rt; reply.note_count(), 0);
}

#[test]
fn texts_are_read_into_one_reply(rt: HostRuntime) {
    let mut session = Session::new(rt.alloc());
    let mut reply = Reply::quiet(rt.alloc(), 0, Bytes::empty(rt.alloc()));
    assert_eq!(rt; session.new_view(), Ok(1));
    put(&rt, &mut session, 0, b"a\nb\nd");
    // The gap is then behind the c.
    put(&rt, &mut session, 2, b"c");
    let (session, reply) = (&mut session, &mut reply);
    assert_read(&rt, session, Kind::GetTextRange, 1, 3, reply, 2, b"\nc");
    assert_read(&rt, session, Kind::GetText, 0, 0, reply, 6, b"a\ncb\nd");
    assert_read(&rt, session, Kind::GetLine, 1, 0, reply, 3, b"cb\n");
    // A query that is refused leaves the reply unchanged.
    let refused = session.send_into(1, Kind::GetTextRange.number(), 3, 2, &[], reply);
    assert_eq!(rt; refused, Err(Refusal::BadArgument));
    assert_eq!(rt; reply.value(), 3);
    assert_eq!(rt; reply.text(), b"cb\n".as_slice());
    // A value takes the place of the text, and a text that of notes.
    let length = session.send_into(1, Kind::GetLength.number(), 0, 0, &[], reply);
    assert_eq!(rt; length, Ok(6));
    assert_eq!(rt; reply.text(), b"".as_slice());
    let typed = session.send_into(1, Kind::AddText.number(), 1, 0, b"x", reply);
    assert_eq!(rt; typed, Ok(0));
    assert!(rt; reply.note_count() > 0);
    assert_read(&rt, session, Kind::GetLine, 0, 0, reply, 3, b"xa\n");
}
