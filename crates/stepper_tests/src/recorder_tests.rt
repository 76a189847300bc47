//! The recording of a view: a script that does the same in a new session.

use ed_types::{Bytes, Command, Kind, Message, Outcome};
use editor_session::{Run, Session};
use macro_script::{Recorder, Script, assemble, list};
use std::alloc::Global;
use std::process::Abort;

/// A view that records gets three letters, a question, a move of the caret one character to the left, and a deletion of
/// the character before it. Messages before and after the recording are not in it.
const MACRO: &[u8] =
    b"sci 1\nopen\nsend 1 2006 0 0 \"\"\nsend 1 3001 0 0 \"\"\nsend 1 2001 3 0 \"abc\"\n\
    send 1 2006 0 0 \"\"\nsend 1 2304 0 0 \"\"\nsend 1 2326 0 0 \"\"\nsend 1 3002 0 0 \"\"\n\
    send 1 2318 0 0 \"\"\n";

/// The listing of its recording: ADDTEXT, CHARLEFT and DELETEBACK, as they were sent.
const MACRO_LISTING: &[u8] =
    b"sci 2\nsend 1 2001 3 0 \"abc\"\nsend 1 2304 0 0 \"\"\nsend 1 2326 0 0 \"\"\n";

/// Performs commands, and passes the replies to a recorder.
fn feed_replies(rt: &impl Abort, run: &mut Run, commands: &[Command], recorder: &mut Recorder) {
    for command in commands {
        let outcome = run.step(&[], command).expect(rt, "memory");
        if let Outcome::Replied(reply) = &outcome {
            recorder.feed(reply).expect(rt, "a reply is fed");
        }
    }
}

/// Returns what a view records while commands are performed in a new session.
fn recorded(rt: &impl Abort, alloc: Global, commands: &[Command], view: u32) -> Script {
    let mut run = Run::new(Session::new(alloc));
    let mut recorder = Recorder::new(alloc, view);
    feed_replies(rt, &mut run, commands, &mut recorder);
    recorder.finish()
}

/// Asserts that the recording of a view has this listing.
fn assert_recorded(rt: &impl Abort, alloc: Global, script: &[u8], view: u32, wanted: &[u8]) {
    let script = assemble(alloc, script).expect(rt, "a script");
    let recorded = recorded(rt, alloc, script.commands(), view);
    let listing = list(alloc, &recorded).expect(rt, "memory");
    assert!(rt; listing.as_slice() == wanted);
}

#[test]
fn a_recorder_takes_what_its_view_records(rt: HostRuntime) {
    assert_recorded(&rt, rt.alloc(), MACRO, 1, MACRO_LISTING);
    assert_recorded(&rt, rt.alloc(), MACRO, 2, b"sci 2\n");
}

/// Returns a message to view 1 without arguments or text.
fn plain(alloc: Global, kind: Kind) -> Command {
    let message = Message {
        number: kind.number(),
        w: 0,
        l: 0,
        text: Bytes::empty(alloc),
    };
    Command::SendMessage { view: 1, message }
}

/// Performs a command, which must not be refused.
fn perform(rt: &impl Abort, run: &mut Run, command: &Command) {
    let outcome = run.step(&[], command).expect(rt, "memory");
    assert!(rt; !matches!(&outcome, Outcome::Refused(_)));
}

/// Asserts the value of a numeric query to view 1 without arguments.
fn assert_answered(rt: &impl Abort, session: &Session, kind: Kind, value: i64) {
    assert_eq!(rt; session.ask(1, kind.number(), 0, 0), Some(value));
}

/// Asserts the text of view 1's document.
fn assert_text(rt: &impl Abort, alloc: Global, run: &mut Run, text: &[u8]) {
    let outcome = run
        .step(&[], &plain(alloc, Kind::GetText))
        .expect(rt, "memory");
    let Outcome::Replied(reply) = outcome else {
        return assert!(rt; false);
    };
    assert!(rt; reply.text() == text);
}

/// Asserts that the macro leaves `ac`, with the caret behind the a, and two transactions: the letters, and the
/// deletion.
fn assert_replayed(rt: &impl Abort, alloc: Global, run: &mut Run, commands: &[Command]) {
    perform(rt, run, &Command::OpenView);
    for command in commands {
        perform(rt, run, command);
    }
    assert_text(rt, alloc, run, b"ac");
    assert_answered(rt, run.session(), Kind::GetCurrentPos, 1);
    assert_answered(rt, run.session(), Kind::GetAnchor, 1);
    let undo = plain(alloc, Kind::Undo);
    for text in [b"abc".as_slice(), b"".as_slice()] {
        assert_answered(rt, run.session(), Kind::CanUndo, 1);
        perform(rt, run, &undo);
        assert_text(rt, alloc, run, text);
    }
    assert_answered(rt, run.session(), Kind::CanUndo, 0);
    assert_answered(rt, run.session(), Kind::GetModify, 0);
}

#[test]
fn a_recorded_macro_is_replayed(rt: HostRuntime) {
    let script = assemble(rt.alloc(), MACRO).expect(&rt, "a script");
    let recorded = recorded(&rt, rt.alloc(), script.commands(), 1);
    let mut run = Run::new(Session::new(rt.alloc()));
    assert_replayed(&rt, rt.alloc(), &mut run, recorded.commands());
}
