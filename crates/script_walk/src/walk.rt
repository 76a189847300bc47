//! A script that is performed one command at a time, whose session can be asked between the commands.

use ed_types::{Bytes, Command, Kind, Message, Outcome, Reply};
use editor_session::{Run, Session};
use std::alloc::{AllocError, Global};

/// A place in a script, with the session there.
#[derive(Drop)]
pub struct Walk<'a> {
    alloc: Global,
    commands: &'a [Command],
    files: &'a [Bytes],
    run: Run,
    done: usize,
    last_view: u32,
    was_asked: bool,
}

impl<'a> Walk<'a> {
    /// Returns the walk before the first command, in a new session.
    pub(crate) fn new(alloc: Global, commands: &'a [Command], files: &'a [Bytes]) -> Self {
        Walk {
            alloc,
            commands,
            files,
            run: Run::new(Session::new(alloc)),
            done: 0,
            last_view: 0,
            was_asked: false,
        }
    }

    /// Returns how many commands are done.
    pub(crate) fn done(&self) -> usize {
        self.done
    }

    /// Returns how many commands there are.
    pub(crate) fn count(&self) -> usize {
        self.commands.len()
    }

    /// Returns the greatest id of a view that was opened, or 0 if there was none.
    pub(crate) fn last_view(&self) -> u32 {
        self.last_view
    }

    /// Performs a command.
    fn perform(&mut self, command: &Command) -> Result<Outcome, AllocError> {
        let outcome = self.run.step(self.files, command)?;
        if let Outcome::Opened(view) = &outcome {
            self.last_view = *view;
        }
        Ok(outcome)
    }

    /// Performs the next command, and returns it with its outcome, or `None` if all are done.
    pub(crate) fn go_on(&mut self) -> Result<Option<(&'a Command, Outcome)>, AllocError> {
        let done = self.done;
        let Some(command) = self.commands.get(done) else {
            return Ok(None);
        };
        // A question in between has replaced the value that is expected.
        if self.was_asked && matches!(command, Command::Expect { .. }) {
            self.go_to(done)?;
        }
        let outcome = self.perform(command)?;
        self.was_asked = false;
        self.done = done + 1;
        Ok(Some((command, outcome)))
    }

    /// Goes to where the first `count` commands are done, or all if there are fewer. Performs them again, in a new
    /// session.
    pub(crate) fn go_to(&mut self, count: usize) -> Result<(), AllocError> {
        self.run = Run::new(Session::new(self.alloc));
        self.last_view = 0;
        self.was_asked = false;
        let commands = self.commands;
        for command in commands.iter().take(count) {
            self.perform(command)?;
        }
        self.done = count.min(commands.len());
        Ok(())
    }

    /// Sends a message to a view, and returns its reply, or `None` if it is refused. Its changes stay until the next
    /// `go_to`.
    pub(crate) fn ask(
        &mut self,
        view: u32,
        kind: Kind,
        w: i64,
    ) -> Result<Option<Reply>, AllocError> {
        self.was_asked = true;
        let message = Message {
            number: kind.number(),
            w,
            l: 0,
            text: Bytes::empty(self.alloc),
        };
        let asked = Command::SendMessage { view, message };
        match self.run.step(self.files, &asked)? {
            Outcome::Replied(reply) => Ok(Some(reply)),
            _ => Ok(None),
        }
    }

    /// Returns the value of the reply, or 0 if the message is refused.
    pub(crate) fn value(&mut self, view: u32, kind: Kind, w: i64) -> Result<i64, AllocError> {
        match self.ask(view, kind, w)? {
            Some(reply) => Ok(reply.value()),
            None => Ok(0),
        }
    }
}
