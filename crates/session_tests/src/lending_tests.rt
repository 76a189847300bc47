//! Bytes of a view's document lent as one slice, and refused ranges.

use ed_types::{Bytes, Kind, Message, Refusal};
use editor_session::Session;
use std::alloc::{AllocError, Global};
use std::process::Abort;

/// Inserts bytes at a place of the first view's document, and returns whether that was done.
fn put(session: &mut Session, place: i64, bytes: &[u8], alloc: Global) -> Result<bool, AllocError> {
    let mut text = Vec::with_capacity(alloc, bytes.len())?;
    text.extend_from_slice(bytes)?;
    let insertion = Message {
        number: Kind::InsertText.number(),
        w: place,
        l: 0,
        text: Bytes::new(text),
    };
    Ok(session.send(1, &insertion).is_ok())
}

fn assert_lent_or_refused(
    rt: &impl Abort,
    session: &mut Session,
    alloc: Global,
) -> Result<(), AllocError> {
    assert_eq!(rt; session.new_view(), Ok(1));
    assert!(rt; put(session, 0, b"a\r\nb\nd", alloc)?);
    // The gap is then before the last LF.
    assert!(rt; put(session, 4, b"\rc", alloc)?);
    assert_eq!(rt; session.lend_range(1, 3, 2), Ok(b"b\r".as_slice()));
    assert_eq!(rt; session.lend_range(1, 0, 8), Ok(b"a\r\nb\rc\nd".as_slice()));
    assert_eq!(rt; session.lend_range(1, 7, 2), Err(Refusal::BadArgument));
    assert_eq!(rt; session.lend_range(2, 9, 9), Err(Refusal::NoSuchView));
    Ok(())
}

#[test]
fn ranges_are_lent_or_refused(rt: HostRuntime) -> Result<(), AllocError> {
    let mut session = Session::new(rt.alloc());
    assert_lent_or_refused(&rt, &mut session, rt.alloc())
}
