//! Sessions of large sizes: 16 MiB handed out, and the greatest number of open views. `tools/ci/heap.sh` runs each of
//! these tests again with a heap limited to what the sizes justify, as its table says.

ghost use Rattle.std.specs.Prelude.{◌<◌, length};

use ed_types::{Kind, Refusal, Reply, modification, notification};
use editor_session::Session;
use std::alloc::{AllocError, Global};
use std::process::Abort;

/// Returns the value of a message without text, or the negated number of its refusal.
fn value_of(session: &mut Session, view: u32, kind: Kind, w: i64, l: i64) -> i64 {
    match session.send_lent(view, kind.number(), w, l, &[]) {
        Ok(reply) => reply.value(),
        Err(refusal) => -i64::from(refusal as u8),
    }
}

/// The length of a large text in bytes: 8 MiB. It is handed out with a style after each byte.
const TEXT: i64 = 8_388_608;

/// The text is inserted in pieces: the length of a piece in bytes, and the number of pieces.
const PIECE: i64 = 1_048_576;

const PIECES: i64 = 8;

/// Returns a piece, without line ends.
fn piece(alloc: Global) -> Result<Vec<u8>, AllocError> {
    let mut piece = Vec::with_capacity(alloc, 1_048_576)?;
    for _ in 0..65_536 {
        piece.extend_from_slice(b"no end of a line")?;
    }
    Ok(piece)
}

// Neither notes nor a history store the inserted text.
fn put_pieces_in(rt: &impl Abort, session: &mut Session, piece: &[u8]) {
    assert_eq!(rt; session.new_view(), Ok(1));
    assert_eq!(rt; value_of(session, 1, Kind::SetModEventMask, 0, 0), 0);
    assert_eq!(rt; value_of(session, 1, Kind::SetUndoCollection, 0, 0), 0);
    for _ in 0..PIECES {
        let put = session.send_lent(1, Kind::AppendText.number(), PIECE, 0, piece);
        assert!(rt; put.is_ok());
    }
    assert_eq!(rt; value_of(session, 1, Kind::GetLength, 0, 0), TEXT);
}

// The last byte has a style, so that the document stores one for each byte.
fn assert_styled(rt: &impl Abort, session: &mut Session) {
    assert_eq!(rt; value_of(session, 1, Kind::StartStyling, TEXT - 1, 0), 0);
    assert_eq!(rt; value_of(session, 1, Kind::SetStyling, 1, 5), 0);
    let reply = session.send_lent(1, Kind::GetStyledText.number(), 0, -1, &[]);
    let reply = reply.expect(rt, "the styled text");
    assert_eq!(rt; reply.value(), 2 * TEXT);
    assert_eq!(rt; reply.text().len(), 16_777_216);
    assert!(rt; reply.text().starts_with(b"n\0o\0 \0e\0"));
    assert!(rt; reply.text().ends_with(b"i\0n\0e\x05"));
}

fn assert_large_text_styled(rt: &impl Abort, session: &mut Session, piece: &[u8]) {
    put_pieces_in(rt, session, piece);
    assert_styled(rt, session);
}

#[test]
fn styled_text_of_a_large_size(rt: HostRuntime) {
    let piece = piece(rt.alloc()).expect(&rt, "memory");
    let mut session = Session::new(rt.alloc());
    assert_large_text_styled(&rt, &mut session, &piece);
}

/// The greatest number of open views, and the view in which the test types.
const VIEWS: u32 = 1024;

const TYPED_IN: u32 = 512;

/// The code and the kind of an expected note.
#[derive(Clone, Copy)]
struct Told {
    view: u32,
    code: u32,
    kind: u32,
    text: &'static [u8],
}

/// Asserts that the note at `index` is the expected one, and that its text, if it has any, is that which the reply
/// stores.
fn assert_note(rt: &impl Abort, reply: &Reply, index: usize, told: Told)
    requires { index < length reply.now.notes }
{
    let (note, text) = reply.note(index);
    assert_eq!(rt;
        (note.view, note.code, note.kind),
        (told.view, told.code, told.kind)
    );
    assert!(rt; text == told.text);
    assert!(rt; text.is_empty() || (note.text.start == 0 && note.text.end == 1));
}

/// Asserts that all views from `first` to `last` are notified of a typed `x`, that the save point is left, and of the
/// `x` again.
fn assert_told(rt: &impl Abort, reply: &Reply, first: u32, last: u32) {
    let mut index = 0;
    let before = modification::BEFORE_INSERT | modification::PERFORMED_USER;
    let after = modification::INSERT_TEXT
        | modification::PERFORMED_USER
        | modification::START_ACTION;
    for (code, kind, text) in [
        (notification::MODIFIED, before, b"x".as_slice()),
        (notification::SAVE_POINT_LEFT, 0, b""),
        (notification::MODIFIED, after, b"x"),
    ] {
        for view in first..=last {
            let told = Told {
                view,
                code,
                kind,
                text,
            };
            assert!(rt; index < reply.note_count());
            assert_note(rt, reply, index, told);
            index += 1;
        }
    }
    assert_eq!(rt; reply.note_count(), index);
}

/// Types an `x` in a view, and asserts that the views from `first` to `last` are notified.
fn assert_typed(rt: &impl Abort, session: &mut Session, first: u32, last: u32) {
    let reply = session.send_lent(TYPED_IN, Kind::AddText.number(), 1, 0, b"x");
    assert_told(rt, &reply.expect(rt, "a reply"), first, last);
}

/// Asserts that all views have the same value, except that in which the test types.
fn assert_values(rt: &impl Abort, session: &mut Session, kind: Kind, typed_in: i64, other: i64) {
    for view in 1..=VIEWS {
        let wanted = if view == TYPED_IN { typed_in } else { other };
        assert_eq!(rt; value_of(session, view, kind, 0, 0), wanted);
    }
}

fn assert_one_document_is_heard(rt: &impl Abort, session: &mut Session) {
    for view in 1..=VIEWS {
        assert_eq!(rt; session.new_view(), Ok(view));
        assert_eq!(rt; value_of(session, view, Kind::SetDocPointer, 0, 1), 0);
    }
    assert_eq!(rt; session.new_view(), Err(Refusal::TooMany));
    assert_typed(rt, session, 1, VIEWS);
    assert_values(rt, session, Kind::GetLength, 1, 1);
    assert_values(rt, session, Kind::GetCurrentPos, 1, 0);
}

#[test]
fn many_views_hear_one_document(rt: HostRuntime) {
    let mut session = Session::new(rt.alloc());
    assert_one_document_is_heard(&rt, &mut session);
}

fn assert_documents_are_apart(rt: &impl Abort, session: &mut Session) {
    for view in 1..=VIEWS {
        assert_eq!(rt; session.new_view(), Ok(view));
    }
    assert_eq!(rt; session.new_view(), Err(Refusal::TooMany));
    assert_typed(rt, session, TYPED_IN, TYPED_IN);
    assert_values(rt, session, Kind::GetLength, 1, 0);
    assert_values(rt, session, Kind::GetCurrentPos, 1, 0);
    assert_values(rt, session, Kind::GetModify, 1, 0);
}

#[test]
fn many_views_have_documents_of_their_own(rt: HostRuntime) {
    let mut session = Session::new(rt.alloc());
    assert_documents_are_apart(&rt, &mut session);
}
