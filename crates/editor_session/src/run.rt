//! Runs of commands.

ghost use Rattle.std.specs.Prelude.{◌≡◌, ◌↔◌, true, IfOk, IfErr, IsOk, IsErr, OnOk, OnErr, Some, None, Err};
ghost use Rattle.ed_types.specs.declared.refusal.Refusal.{Refusal};
ghost use Rattle.ed_types.specs.declared.refusal.Refusal.TheVariants.{OutOfMemory};
ghost use Rattle.ed_types.specs.declared.script.Outcome.TheVariants.{Refused};
ghost use Rattle.ed_model.specs.Run.{starting, after_command, outcomes, run_to};
ghost use Rattle.editor_session.specs.Answers.{AnswersBy};
ghost use Rattle.editor_session.specs.Commands.{takes_no_memory, file_loaded, StopsWithin};

use crate::session::Session;
use ed_model::plans_are_fit;
use ed_types::{Bytes, Command, Kind, Outcome, Refusal, Reply};
use std::alloc::{AllocError, Global};
use std::marker::Model;

/// A run: a session, and the value of the last command that is no `Expect`, if it has one.
#[derive(Drop)]
pub struct Run {
    session: Session,
    value: Option<i64>,
}

impl Model for Run {
    ghost use Rattle.ed_model.specs.Run.{Running};

    ghost Value = { Running };

    ghost view = { λ r. record { session = r.session; value = r.value } };
}

impl Run {
    /// Returns a run from a session. Allocates nothing.
    pub fn new(session: Session) -> Self
        ensures { result ≡ starting session }
    {
        Run {
            session,
            value: None,
        }
    }

    /// Returns the session as it is now.
    pub fn session(&self) -> &Session
        ensures { result.now ≡ self.now.session }
    {
        &self.session
    }

    /// Performs one command, and returns its outcome. `load` takes its file from `files`, where the first is 1. A refusal other than want of
    /// memory is an outcome, after which the run goes on.
    ///
    /// # Errors
    ///
    /// `AllocError` if an allocation fails: never for a command that allocates nothing, or one that the definitions refuse. The run is then
    /// as it was.
    pub fn step(&mut self, files: &[Bytes], command: &Command) -> Result<Outcome, AllocError>
        ensures state { OnOk result (self.new ≡ (after_command files.now command.now self.old).0) }
        ensures outcome { IfOk result (λ outcome. outcome ≡ (after_command files.now command.now self.old).1) }
        ensures err { OnErr result (self.new ≡ self.old) }
        ensures refused { (refusal : Refusal) → (after_command files.now command.now self.old).1 ≡ Refused refusal → IsOk result }
        ensures free { takes_no_memory self.old.session command.now ≡ true → IsOk result }
    {
        // States that no plan for a sound session is refused for want of memory.
        plans_are_fit();
        self.session.soundness();
        match command {
            Command::OpenView => match self.session.new_view() {
                Ok(view) => Ok(self.done(i64::from(view), Outcome::Opened(view))),
                Err(refusal) => self.refused(refusal),
            },
            Command::CloseView { view } => match self.session.close_view(*view) {
                Ok(()) => Ok(self.done(0, Outcome::Closed)),
                Err(refusal) => self.refused(refusal),
            },
            Command::LoadFile { view, file } => match self.load(files, *view, *file) {
                Ok(reply) => Ok(self.done(reply.value(), Outcome::Replied(reply))),
                Err(refusal) => self.refused(refusal),
            },
            Command::SendMessage { view, message } => match self.session.send(*view, message) {
                Ok(reply) => Ok(self.done(reply.value(), Outcome::Replied(reply))),
                Err(refusal) => self.refused(refusal),
            },
            Command::Expect { value } => Ok(Outcome::Expected {
                met: self.value == Some(*value),
                value: *value,
            }),
        }
    }

    /// Performs commands in order, and returns the outcome of each.
    ///
    /// # Errors
    ///
    /// `AllocError` if an allocation fails. The run is then that after the commands that were performed.
    pub fn run(
        &mut self,
        alloc: Global,
        files: &[Bytes],
        commands: &[Command],
    ) -> Result<Vec<Outcome>, AllocError>
        ensures state { OnOk result (self.new ≡ run_to files.now commands.now self.old) }
        ensures outcomes { IfOk result (λ done. done.items ≡ outcomes files.now commands.now self.old) }
        ensures err { OnErr result (StopsWithin files.now commands.now self.old self.new) }
    {
        let mut done = Vec::with_capacity(alloc, commands.len())?;
        for command in commands {
            let outcome = self.step(files, command)?;
            done.push_reserved(outcome);
        }
        Ok(done)
    }

    /// Returns the outcome of a command that was performed, and keeps its value.
    fn done(&mut self, value: i64, outcome: Outcome) -> Outcome
        ensures run { self.new ≡ record self.old { value = Some value } }
        ensures outcome { result ≡ outcome }
    {
        self.value = Some(value);
        outcome
    }

    /// Returns the outcome of a command that was refused, after which there is no value.
    fn refused(&mut self, refusal: Refusal) -> Result<Outcome, AllocError>
        ensures outcome { IfOk result (λ outcome. outcome ≡ Refused refusal) }
        ensures memory { IsErr result ↔ (refusal ≡ OutOfMemory) }
        ensures ok { OnOk result (self.new ≡ record self.old { value = None }) }
        ensures err { OnErr result (self.new ≡ self.old) }
    {
        if refusal == Refusal::OutOfMemory {
            return Err(AllocError);
        }
        self.value = None;
        Ok(Outcome::Refused(refusal))
    }

    /// Sets the text of a view's document to that of a file.
    ///
    /// # Errors
    ///
    /// `NoSuchView`, then `BadArgument` if there is no such file; otherwise those of the message that sets the text.
    fn load(&mut self, files: &[Bytes], view: u32, file: u32) -> Result<Reply, Refusal>
        ensures answer { AnswersBy (file_loaded self.old files.now view file) self.old.session self.new.session result }
        ensures refused { IfErr (file_loaded self.old files.now view file) (λ refusal. result ≡ Err refusal) }
        ensures value { self.new.value ≡ self.old.value }
    {
        if !self.session.has_view(view) {
            return Err(Refusal::NoSuchView);
        }
        if file == 0 || file as usize > files.len() {
            return Err(Refusal::BadArgument);
        }
        let text = files[file as usize - 1].as_slice();
        self.session
            .send_lent(view, Kind::SetText.number(), 0, 0, text)
    }
}
