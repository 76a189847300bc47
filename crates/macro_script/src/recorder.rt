//! Recording: a script of the messages that a view records.

ghost use Rattle.std.specs.Prelude.{◌≡◌, ◌⊎◌, ◌↔◌, [], OnOk, OnErr, IfErr, IfOk, Ok, Err, None, List, ℕ};
ghost use Rattle.ed_types.specs.declared.script.ScriptFault.TheVariants.{TooLong, OutOfMemory};
ghost use Rattle.ed_types.specs.Heard.{with_text};
ghost use Rattle.macro_script.specs.Recorded.{is_recording, recording_note, after_reply, after_note, IsTooLong, IsPlaceOf, RecordsAll};

use crate::script::Script;
use crate::texts::copied;
use ed_types::{Command, Message, Note, Reply, ScriptFault, notification};
use std::alloc::Global;
use std::marker::Model;

/// Makes a script of what a view records. `feed` takes the replies of a session, and adds the message that each of them
/// records for the view. A contract sees the view and the commands so far.
#[derive(Drop)]
pub struct Recorder {
    alloc: Global,
    view: u32,
    script: Script,
}

impl Model for Recorder {
    ghost use Rattle.macro_script.specs.Recorded.{Recording};

    ghost Value = { Recording };

    ghost view = { λ r. record { view = r.view; commands = r.script } };
}

/// Returns whether a note is the view's notification of a recorded message.
fn tells_recording(view: u32, note: &Note) -> bool
    ensures { (text : List ℕ) → result ≡ is_recording view (with_text note.entry.now text) }
{
    note.code == notification::MACRO_RECORD && note.view == view
}

/// Returns the place of such a note among those of a reply, if there is one.
fn find_recording(view: u32, reply: &Reply) -> Option<usize>
    ensures { IsPlaceOf (recording_note view reply.now) reply.now.notes result }
{
    let count = reply.note_count();
    for index in 0..count {
        let (note, _) = reply.note(index);
        if tells_recording(view, note) {
            return Some(index);
        }
    }
    None
}

impl Recorder {
    /// Returns a recorder of a view, which has recorded nothing yet. Allocates nothing.
    pub fn new(alloc: Global, view: u32) -> Self
        ensures { result ≡ record { view = view; commands = [] } }
    {
        Recorder {
            alloc,
            view,
            script: Script::new(alloc),
        }
    }

    /// Adds the message that the reply records for the view, if it has such a note. Otherwise adds and allocates
    /// nothing.
    ///
    /// # Errors
    ///
    /// `TooLong` if the script with that message would exceed a limit, like `Script::push`; otherwise `OutOfMemory` if
    /// an allocation fails. The recorder is then unchanged.
    pub fn feed(&mut self, reply: &Reply) -> Result<(), ScriptFault>
        ensures too_long { (result ≡ Err TooLong) ↔ IsTooLong (after_reply self.old reply.now) }
        ensures refused { IfErr result (λ fault. (fault ≡ TooLong) ⊎ (fault ≡ OutOfMemory)) }
        ensures nothing { recording_note self.old.view reply.now ≡ None → result ≡ Ok tt }
        ensures added { OnOk result (self.new ≡ after_reply self.old reply.now) }
        ensures kept { OnErr result (self.new ≡ self.old) }
    {
        // brings the fact that the script so far keeps the limits
        let _ = self.script.commands();
        let Some(index) = find_recording(self.view, reply) else {
            return Ok(());
        };
        let (note, text) = reply.note(index);
        self.add(note, text)
    }

    /// Adds the message of a note.
    fn add(&mut self, note: &Note, text: &[u8]) -> Result<(), ScriptFault>
        ensures too_long { (result ≡ Err TooLong) ↔ IsTooLong (after_note self.old note.entry.now text.now) }
        ensures refused { IfErr result (λ fault. (fault ≡ TooLong) ⊎ (fault ≡ OutOfMemory)) }
        ensures added { OnOk result (self.new ≡ after_note self.old note.entry.now text.now) }
        ensures kept { OnErr result (self.new ≡ self.old) }
    {
        // The limits are checked before the text is copied, so that a failed allocation does not hide that it is too
        // long.
        let (number, w, l) = (note.message, note.w, note.l);
        if !self.script.fits_send(self.view, number, w, l, text) {
            return Err(ScriptFault::TooLong);
        }
        let text = copied(self.alloc, text)?;
        let message = Message { number, w, l, text };
        self.script.push(Command::SendMessage {
            view: self.view,
            message,
        })
    }

    /// Returns the script of everything that was recorded. Allocates nothing.
    pub fn finish(self) -> Script
        ensures { result ≡ self.commands }
    {
        let Recorder { script, .. } = self;
        script
    }
}

/// The message that is added for a reply is everything that the view recorded in it, if that is at most one message.
pub fn all_is_recorded()
    ensures { RecordsAll }
{}
