//! Each call that allocates, at a large size. `tools/ci/heap.sh` runs each of these tests again with a heap limited to
//! what the sizes justify, as its table says. A growth that nothing needs fails there, and with it the test.

use ed_types::{Bytes, Kind, Message, Outcome};
use macro_script::printing::append_outcome;
use macro_script::{Command, Script, assemble, list};
use std::alloc::{AllocError, Global};
use std::process::Abort;

/// The number of commands of a long script.
const COMMANDS: u32 = 100_000;

/// Returns a command that inserts ten bytes at the start.
fn insertion(alloc: Global) -> Result<Command, AllocError> {
    let text = Bytes::new(Vec::from_slice(alloc, b"abcdefghi\n")?);
    let message = Message {
        number: Kind::InsertText.number(),
        w: 0,
        l: 0,
        text,
    };
    Ok(Command::SendMessage { view: 1, message })
}

// One function owns the script and lends it to another, which fills it: owning one over many calls makes a proof slow.
fn push_insertions(rt: &impl Abort, alloc: Global, script: &mut Script) {
    for _ in 0..COMMANDS {
        let command = insertion(alloc).expect(rt, "memory");
        script.push(command).expect(rt, "room");
    }
    assert_eq!(rt; script.commands().len(), 100_000);
}

// Returns the listing of a long script.
fn long_listing(rt: &impl Abort, alloc: Global) -> Vec<u8> {
    let mut script = Script::new(alloc);
    push_insertions(rt, alloc, &mut script);
    list(alloc, &script).expect(rt, "memory")
}

#[test]
fn a_long_script_is_listed_and_read(rt: HostRuntime) {
    let listed = long_listing(&rt, rt.alloc());
    // 6 bytes in the first line, and 32 for each command.
    assert_eq!(rt; listed.len(), 3_200_006);
    let again = assemble(rt.alloc(), listed.as_slice()).expect(&rt, "a script");
    assert_eq!(rt; again.commands().len(), 100_000);
}

#[test]
fn many_outcomes_are_printed(rt: HostRuntime) {
    let mut out = Vec::new(rt.alloc());
    for _ in 0..COMMANDS {
        append_outcome(&mut out, &Outcome::Opened(1)).expect(&rt, "memory");
    }
    assert_eq!(rt; out.len(), 700_000);
}
