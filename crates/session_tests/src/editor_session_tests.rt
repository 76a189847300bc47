//! Text goes in and out, limits, and every kind of command.

use crate::exchanges::{
    closed, first_unmet, first_unmet_within, not_closed, not_opened, opened, refused, sent, unknown,
};
use ed_types::{Command, Kind, Limits, Outcome, Refusal};
use editor_session::{Run, Session};
use std::alloc::{AllocError, Global};
use std::process::Abort;

#[test]
fn text_goes_in_and_out(rt: HostRuntime) {
    let rows = [
        opened(1),
        opened(2),
        sent(Kind::InsertText, 0, 0, 0).with(b"ab\n"),
        sent(Kind::GetLength, 0, 0, 3),
        // The other view has a document of its own.
        sent(Kind::GetLength, 0, 0, 0).of_view(2),
        // -1 is the caret, which stays before the text inserted there.
        sent(Kind::InsertText, -1, 0, 0).with(b"xy"),
        sent(Kind::InsertText, -1, 0, 0).with(b"z"),
        sent(Kind::GetText, 0, 0, 6).handing_out(b"zxyab\n"),
        closed(),
        not_closed(Refusal::NoSuchView),
        opened(3),
    ];
    assert_eq!(rt; first_unmet(rt.alloc(), rows.as_slice()), None);
}

#[test]
fn limits_are_kept(rt: HostRuntime) {
    let limits = Limits {
        doc_bytes: 4,
        views: 1,
        ..Limits::GREATEST
    };
    let rows = [
        opened(1),
        not_opened(Refusal::TooMany),
        sent(Kind::InsertText, 0, 0, 0).with(b"abcd"),
        refused(Kind::InsertText, 4, 0, Refusal::TooLong).with(b"e"),
        refused(Kind::DeleteRange, 1, 4, Refusal::BadArgument),
        sent(Kind::DeleteRange, 1, 2, 0),
        sent(Kind::GetText, 0, 0, 2).handing_out(b"ad"),
        unknown(9999, Refusal::UnknownMessage),
        unknown(9999, Refusal::NoSuchView).of_view(2),
    ];
    assert_eq!(rt;
        first_unmet_within(rt.alloc(), limits, rows.as_slice()),
        None
    );
}

/// Returns a list of commands: an `expect` that is met, and a file that is not there.
fn commands(rt: &impl Abort, alloc: Global) -> Vec<Command> {
    let mut commands = Vec::new(alloc);
    commands.push(Command::OpenView).expect(rt, "memory");
    commands
        .push(Command::Expect { value: 1 })
        .expect(rt, "memory");
    commands
        .push(Command::LoadFile { view: 1, file: 1 })
        .expect(rt, "memory");
    commands
        .push(Command::CloseView { view: 1 })
        .expect(rt, "memory");
    commands
}

/// Returns the outcomes of commands in a new session, without files.
fn outcomes(alloc: Global, commands: &[Command]) -> Result<Vec<Outcome>, AllocError> {
    let mut run = Run::new(Session::new(alloc));
    run.run(alloc, &[], commands)
}

#[test]
fn commands_run(rt: HostRuntime) {
    let commands = commands(&rt, rt.alloc());
    let done = outcomes(rt.alloc(), &commands).expect(&rt, "memory");
    assert_eq!(rt; done.len(), 4);
    assert!(rt; matches!(done[0], Outcome::Opened(1)));
    assert!(rt; matches!(done[1], Outcome::Expected { met: true, .. }));
    assert!(rt; matches!(done[2], Outcome::Refused(Refusal::BadArgument)));
    assert!(rt; matches!(done[3], Outcome::Closed));
}
