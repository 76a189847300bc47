//! `Stepper` and its calls.

ghost use Rattle.std.specs.Prelude.{◌≡◌, ◌≤◌, ◌<◌, ◌-◌, ◌↔◌, length, OnOk, OnErr, IfOk, IfErr, IsOk, Ok, Err, Some, None, false};
ghost use Rattle.ed_types.specs.declared.refusal.Refusal.{Refusal};
ghost use Rattle.ed_types.specs.declared.script.Outcome.TheVariants.{Refused};
ghost use Rattle.script_stepper.specs.declared.fault.StepFault.TheVariants.{OutOfRange, OutOfMemory};
ghost use Rattle.script_stepper.specs.Stepping.{Stepping, session_of, next_outcome, moved_on, IsNextFree};
ghost use Rattle.ed_model.specs.Run.{run_to};

use crate::fault::StepFault;
use ed_types::{Bytes, Command, Outcome};
use editor_session::{Run, Session};
use macro_script::Script;
use std::alloc::{AllocError, Global};
use std::marker::Model;

/// A script in a session of its own, performed one command at a time. A contract sees its commands, the files that they
/// load, and how many of the commands are done; these three determine the session.
#[derive(Drop)]
pub struct Stepper {
    alloc: Global,
    script: Script,
    files: Vec<Bytes>,
    state: usize,
    run: Run,
}

impl Model for Stepper {
    ghost use Rattle.script_stepper.specs.Stepping.{Stepping, StandsAt};

    ghost Value = { Stepping };

    ghost view = { λ s. record { commands = s.script; files = s.files.items; state = s.state } };

    ghost invariant = { λ s. StandsAt s.state s.script s.files.items s.run };
}

/// Performs commands in order.
///
/// # Errors
///
/// `AllocError` if an allocation fails. The run is then that of the commands that were done.
fn perform_all(run: &mut Run, files: &[Bytes], commands: &[Command]) -> Result<(), AllocError>
    ensures { OnOk result (run.new ≡ run_to files.now commands.now run.old) }
{
    for command in commands {
        run.step(files, command)?;
    }
    Ok(())
}

impl Stepper {
    /// Returns a stepper before the first command of a script, in a new session. `load` reads from `files`, of which
    /// the first has number 1. Allocates nothing.
    pub fn new(alloc: Global, script: Script, files: Vec<Bytes>) -> Self
        ensures { result ≡ record { commands = script; files = files.items; state = 0 } }
    {
        Stepper {
            alloc,
            script,
            files,
            state: 0,
            run: Run::new(Session::new(alloc)),
        }
    }

    /// Returns the commands of the script. Allocates nothing.
    pub fn commands(&self) -> &[Command]
        ensures { result.now ≡ self.now.commands }
    {
        self.script.commands()
    }

    /// Returns how many commands are done. Allocates nothing.
    pub fn state(&self) -> usize
        ensures state { result ≡ self.now.state }
        ensures within { self.now.state ≤ length self.now.commands }
    {
        self.state
    }

    /// Lends the session after the first `state()` commands. Allocates nothing.
    pub fn session(&self) -> &Session
        ensures { result.now ≡ session_of self.now }
    {
        self.run.session()
    }

    /// Performs the next command, and returns its outcome, or `None` if all are done.
    ///
    /// # Errors
    ///
    /// `OutOfMemory` if an allocation fails. The stepper is then unchanged. A command that allocates nothing never has
    /// this error, nor does one that the model refuses: its refusal is its outcome.
    pub fn step(&mut self) -> Result<Option<Outcome>, StepFault>
        ensures outcome { IfOk result (λ outcome. outcome ≡ next_outcome self.old) }
        ensures end { (result ≡ Ok None) ↔ (self.old.state ≡ length self.old.commands) }
        ensures moved { IfOk result (λ outcome. self.new ≡ moved_on outcome self.old) }
        ensures refused { IfErr result (λ fault. fault ≡ OutOfMemory) }
        ensures kept { OnErr result (self.new ≡ self.old) }
        ensures goes_on { (refusal : Refusal) → next_outcome self.old ≡ Some (Refused refusal) → IsOk result }
        ensures free { IsNextFree self.old → IsOk result }
    {
        let Some(command) = self.script.commands().get(self.state) else {
            return Ok(None);
        };
        let outcome = self.run.step(&self.files, command)?;
        self.state += 1;
        Ok(Some(outcome))
    }

    /// Goes back by one command, and returns whether there was one. Performs the commands before it again, in a new
    /// session.
    ///
    /// # Errors
    ///
    /// `OutOfMemory` if an allocation fails. The stepper is then unchanged.
    pub fn back(&mut self) -> Result<bool, StepFault>
        ensures start { (result ≡ Ok false) ↔ (self.old.state ≡ 0) }
        ensures moved { OnOk result (self.new ≡ record self.old { state = self.old.state - 1 }) }
        ensures refused { IfErr result (λ fault. fault ≡ OutOfMemory) }
        ensures kept { OnErr result (self.new ≡ self.old) }
    {
        if self.state == 0 {
            return Ok(false);
        }
        let before = self.state - 1;
        self.start_again(before)?;
        Ok(true)
    }

    /// Goes to where the first `n` commands are done. Performs them again, in a new session.
    ///
    /// # Errors
    ///
    /// `OutOfRange` exactly if the script has fewer than `n` commands, and `OutOfMemory` if an allocation fails. The
    /// stepper is then unchanged.
    pub fn run_to(&mut self, n: usize) -> Result<(), StepFault>
        ensures range { (result ≡ Err OutOfRange) ↔ (length self.old.commands < n) }
        ensures moved { OnOk result (self.new ≡ record self.old { state = n }) }
        ensures kept { OnErr result (self.new ≡ self.old) }
    {
        if self.script.commands().len() < n {
            return Err(StepFault::OutOfRange);
        }
        self.start_again(n)?;
        Ok(())
    }

    /// Performs the first `n` commands in a new session, which replaces the old one.
    fn start_again(&mut self, n: usize) -> Result<(), AllocError>
        requires { n ≤ length self.old.commands }
        ensures moved { OnOk result (self.new ≡ record self.old { state = n }) }
        ensures kept { OnErr result (self.new ≡ self.old) }
    {
        let mut run = Run::new(Session::new(self.alloc));
        perform_all(&mut run, &self.files, &self.script.commands()[..n])?;
        self.run = run;
        self.state = n;
        Ok(())
    }
}
