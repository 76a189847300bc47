//! Printing outcomes with their notes or without them.

ghost use Rattle.std.specs.Prelude.{◌≡◌, false};
ghost use Rattle.ed_model.specs.Printed.{printed_outcome};
ghost use Rattle.macro_script.specs.Appending.{Appends};
ghost use Rattle.script_ends.specs.Answers.{PutCause};
ghost use Rattle.script_jobs.specs.declared.notes.Notes.TheVariants.{LeftOut};
ghost use Rattle.script_jobs.specs.Runs.{PutsOne, without_notes};

use ed_types::Outcome;
use macro_script::printing::{append_answer, append_outcome};
use script_ends::{RunFault, Sink, pour, put};
use std::alloc::AllocError;

/// Whether to print the lines of notes.
#[derive(Clone, Copy)]
pub enum Notes {
    Shown,
    LeftOut,
}

/// Appends the printed form of an outcome without its notes.
fn append_without_notes(out: &mut Vec<u8>, outcome: &Outcome) -> Result<(), AllocError>
    ensures { Appends (printed_outcome (without_notes outcome.now)) out.old.items out.new.items result }
{
    match outcome {
        Outcome::Replied(reply) => append_answer(out, reply.value(), reply.text()),
        Outcome::Opened(_) | Outcome::Closed | Outcome::Refused(_) | Outcome::Expected { .. } => {
            append_outcome(out, outcome)
        }
    }
}

/// Puts the printed form of an outcome without its notes into the buffer, and writes the buffer if it is full.
fn put_without_notes<W: Sink>(
    sink: &mut W,
    buffer: &mut Vec<u8>,
    outcome: &Outcome,
) -> Result<(), RunFault>
    requires { W.has_failed sink.old ≡ false }
    ensures put { PutsOne LeftOut outcome.now result (W.contents sink.old) (W.contents sink.new) buffer.old buffer.new }
    ensures cause { PutCause result (W.has_failed sink.new) }
{
    append_without_notes(buffer, outcome)?;
    pour(sink, buffer)?;
    Ok(())
}

/// Puts the printed form of an outcome, with its notes or without them, into the buffer, and writes the buffer if it is
/// full.
pub(crate) fn put_shown<W: Sink>(
    sink: &mut W,
    notes: Notes,
    buffer: &mut Vec<u8>,
    outcome: &Outcome,
) -> Result<(), RunFault>
    requires { W.has_failed sink.old ≡ false }
    ensures put { PutsOne notes outcome.now result (W.contents sink.old) (W.contents sink.new) buffer.old buffer.new }
    ensures cause { PutCause result (W.has_failed sink.new) }
{
    match notes {
        Notes::Shown => put(sink, buffer, outcome),
        Notes::LeftOut => put_without_notes(sink, buffer, outcome),
    }
}
