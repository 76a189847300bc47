//! Tests of what no clause states: that memory suffices, and values from outside.

use ed_types::{Bytes, Kind, Message, Note, Outcome, Refusal, Reply, modification, notification};
use macro_script::printing::{append_integer, append_number, append_outcome, append_text};
use macro_script::{Cause, Command, Script, ScriptFault, assemble, list};
use std::alloc::{AllocError, Global};
use std::process::Abort;

/// Every command and every kind of byte, as version 2 lists them.
const EVERY_KIND: &[u8] = b"sci 2\nopen\nload 1 4294967295\n\
    send 1 2282 4 -9223372036854775808 \"\\\"\\\\\\x00\\x80 ~\"\nexpect -1\nclose 1\n";

// In each long test one function owns the value under test and lends it to others, which do the rest: owning it over
// many calls makes a proof slow.

#[test]
fn lists_what_it_assembles(rt: HostRuntime) {
    let script = assemble(rt.alloc(), EVERY_KIND).expect(&rt, "a script");
    let listed = list(rt.alloc(), &script).expect(&rt, "memory");
    assert!(rt; listed.as_slice() == EVERY_KIND);
}

fn push_every_kind(rt: &impl Abort, script: &mut Script, text: Vec<u8>) {
    let message = Message {
        number: Kind::AppendText.number(),
        w: 4,
        l: i64::MIN,
        text: Bytes::new(text),
    };
    script.push(Command::OpenView).expect(rt, "memory");
    script
        .push(Command::LoadFile {
            view: 1,
            file: u32::MAX,
        })
        .expect(rt, "memory");
    script
        .push(Command::SendMessage { view: 1, message })
        .expect(rt, "memory");
    script
        .push(Command::Expect { value: -1 })
        .expect(rt, "memory");
    script
        .push(Command::CloseView { view: 1 })
        .expect(rt, "memory");
    assert_eq!(rt; script.commands().len(), 5);
}

#[test]
fn pushes_what_it_assembles(rt: HostRuntime) {
    let text = Vec::from_slice(rt.alloc(), b"\"\\\x00\x80 ~").expect(&rt, "memory");
    let mut script = Script::new(rt.alloc());
    push_every_kind(&rt, &mut script, text);
    let listed = list(rt.alloc(), &script).expect(&rt, "memory");
    assert!(rt; listed.as_slice() == EVERY_KIND);
}

fn assert_fault(rt: &impl Abort, alloc: Global, text: &[u8], wanted: ScriptFault) {
    let fault = assemble(alloc, text).err().expect(rt, "a fault");
    assert!(rt; fault == wanted);
}

/// Returns a text of `len` bytes.
fn repeated(alloc: Global, len: usize) -> Result<Vec<u8>, AllocError> {
    let mut text = Vec::new(alloc);
    for _ in 0..len {
        text.push(b'a')?;
    }
    Ok(text)
}

/// Returns a script of one line with a text of `len` bytes.
fn long_line(alloc: Global, len: usize) -> Result<Vec<u8>, AllocError> {
    let mut text = Vec::from_slice(alloc, b"sci 1\nsend 1 2003 0 0 \"")?;
    text.extend_from_slice(&repeated(alloc, len)?)?;
    text.extend_from_slice(b"\"\n")?;
    Ok(text)
}

#[test]
fn takes_the_longest_line(rt: HostRuntime) {
    let longest = long_line(rt.alloc(), 65_518).expect(&rt, "memory");
    assert_eq!(rt; longest.len(), 65_536 + 7);
    assert!(rt; assemble(rt.alloc(), &longest).is_ok());
    let longer = long_line(rt.alloc(), 65_519).expect(&rt, "memory");
    let cause = Cause::LineTooLong;
    assert_fault(
        &rt,
        rt.alloc(),
        &longer,
        ScriptFault::BadLine { line: 2, cause },
    );
}

#[test]
fn takes_the_longest_script(rt: HostRuntime) {
    let mut text = Vec::new(rt.alloc());
    for _ in 0..16_777_216u32 {
        text.push(b'\n').expect(&rt, "memory");
    }
    let cause = Cause::BadVersion;
    assert_fault(
        &rt,
        rt.alloc(),
        &text,
        ScriptFault::BadLine { line: 1, cause },
    );
    text.push(b'\n').expect(&rt, "memory");
    assert_fault(&rt, rt.alloc(), &text, ScriptFault::TooLong);
}

/// Returns a message with a text of `len` bytes.
fn long_message(alloc: Global, len: usize) -> Result<Command, AllocError> {
    let message = Message {
        number: Kind::InsertText.number(),
        w: 0,
        l: 0,
        text: Bytes::new(repeated(alloc, len)?),
    };
    Ok(Command::SendMessage { view: 1, message })
}

// Pushes a message with a text of this many bytes.
fn push_long(
    rt: &impl Abort,
    alloc: Global,
    script: &mut Script,
    len: usize,
) -> Result<(), ScriptFault> {
    script.push(long_message(alloc, len).expect(rt, "memory"))
}

fn push_up_to_the_limits(rt: &impl Abort, alloc: Global, script: &mut Script) {
    assert!(rt; push_long(rt, alloc, script, 65_519) == Err(ScriptFault::TooLong));
    // 255 lines of 65,537 bytes, and one that fills the script up to its limit.
    for _ in 0..255u32 {
        assert!(rt; push_long(rt, alloc, script, 65_518).is_ok());
    }
    assert!(rt; push_long(rt, alloc, script, 65_257) == Err(ScriptFault::TooLong));
    assert!(rt; push_long(rt, alloc, script, 65_256).is_ok());
    assert!(rt; script.push(Command::OpenView) == Err(ScriptFault::TooLong));
}

#[test]
fn pushes_up_to_the_limits(rt: HostRuntime) {
    let mut script = Script::new(rt.alloc());
    push_up_to_the_limits(&rt, rt.alloc(), &mut script);
    let listed = list(rt.alloc(), &script).expect(&rt, "memory");
    assert_eq!(rt; listed.len(), 16_777_216);
    let again = assemble(rt.alloc(), &listed).expect(&rt, "a script");
    assert_eq!(rt; again.commands().len(), 256);
}

// Returns a reply with a note that has a text.
fn noted_reply(rt: &impl Abort, alloc: Global) -> Reply {
    let note = Note {
        view: 1,
        code: notification::MODIFIED,
        kind: modification::INSERT_TEXT | modification::PERFORMED_USER | modification::START_ACTION,
        position: 0,
        length: 3,
        lines: 1,
        line: 0,
        now: 0,
        prev: 0,
        token: -7,
        message: 0,
        w: 0,
        l: 0,
        text: 0..3,
    };
    let pool = Bytes::new(Vec::from_slice(alloc, b"ab\n").expect(rt, "memory"));
    let mut notes = Vec::new(alloc);
    notes.push(note).expect(rt, "memory");
    Reply::new(5, Bytes::empty(alloc), notes, pool)
}

fn append_outcomes(rt: &impl Abort, out: &mut Vec<u8>, reply: Reply) {
    let outcomes = [
        Outcome::Opened(1),
        Outcome::Closed,
        Outcome::Replied(reply),
        Outcome::Refused(Refusal::BadArgument),
        Outcome::Expected {
            met: true,
            value: 1,
        },
        Outcome::Expected {
            met: false,
            value: -3,
        },
    ];
    for outcome in &outcomes {
        append_outcome(out, outcome).expect(rt, "memory");
    }
}

fn append_parts(rt: &impl Abort, out: &mut Vec<u8>) {
    append_number(out, 256).expect(rt, "memory");
    append_integer(out, -1).expect(rt, "memory");
    append_text(out, b"\r").expect(rt, "memory");
}

#[test]
fn prints_outcomes(rt: HostRuntime) {
    let reply = noted_reply(&rt, rt.alloc());
    let mut out = Vec::new(rt.alloc());
    append_outcomes(&rt, &mut out, reply);
    append_parts(&rt, &mut out);
    let want =
        b"= 1 \"\"\n= 0 \"\"\n= 5 \"\"\n@ 1 2008 8209 0 3 1 0 0 0 -7 0 0 0 \"ab\\x0a\"\n! 6\n+ 1\n- -3\n256-1\"\\x0d\"";
    assert!(rt; out.as_slice() == want.as_slice());
}
