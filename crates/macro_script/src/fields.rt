//! Reading of the fields of a line, from the left.

ghost use Rattle.std.specs.Prelude.{◌≡◌, ◌<◌, IfSome, IsTrue, length, slice_index, ◌==◌};
ghost use Rattle.std.specs.List.{position_or_len};
ghost use Rattle.ed_model.specs.Reading.{natural as natural_of, integer as integer_of, behind, word_of, behind_word, word_field, number_field, text_field, ended as ended_by};
ghost use Rattle.macro_script.specs.Stops.{AnswersAndLeaves};
ghost use Rattle.macro_script.specs.Fields.{and_rest, rest_of, lent, IsNumberAtFront};

use crate::numbers;
use crate::stop::Stop;
use crate::texts::read_text;
use ed_types::{Bytes, Cause, Command};
use std::alloc::Global;
use std::marker::Model;

/// The rest of a line.
#[derive(Drop)]
pub struct Fields<'a> {
    rest: &'a [u8],
}

impl<'a> Model for Fields<'a> {
    ghost use Rattle.std.specs.Prelude.{List, ℕ};

    ghost Value = { List ℕ };

    ghost view = { λ fields. fields.rest.now };
}

/// Returns the length of the word at the front, in bytes.
fn word_len(line: &[u8]) -> usize
    ensures place { result ≡ position_or_len (λ b. b == 32) line.now }
    ensures len { result ≡ length (word_of line.now) }
{
    for (i, byte) in line.iter().enumerate() {
        if *byte == b' ' {
            return i;
        }
    }
    line.len()
}

/// Returns whether the word ends at `place`: the byte there is a space, or the line is over.
fn ends_word(line: &[u8], place: usize) -> bool
    ensures { IsTrue result → place < length line.now → slice_index line.now place ≡ 32 }
{
    place >= line.len() || line[place] == b' '
}

/// Returns the number of a single digit at the front after a space, if there is one: most numbers have one digit.
fn lone_digit(line: &[u8]) -> Option<u8>
    ensures { IfSome result (λ digit. IsNumberAtFront line.now digit 2) }
{
    let [first, digit, ..] = line else {
        return None;
    };
    if *first != b' ' {
        return None;
    }
    if !digit.is_ascii_digit() {
        return None;
    }
    if ends_word(line, 2) {
        Some(*digit - b'0')
    } else {
        None
    }
}

impl<'a> Fields<'a> {
    /// Returns all fields of a line.
    pub(crate) fn new(line: &'a [u8]) -> Self
        ensures { result ≡ line.now }
    {
        Fields { rest: line }
    }

    /// Takes the word at the front, up to the next space or the end.
    pub(crate) fn word(&mut self) -> &'a [u8]
        ensures word { result.now ≡ word_of self.old }
        ensures rest { self.new ≡ behind_word self.old }
    {
        let (word, rest) = self.rest.split_at(word_len(self.rest));
        self.rest = rest;
        word
    }

    /// Skips one byte, which must be `byte`.
    fn pass(&mut self, byte: u8) -> Result<(), Cause>
        ensures { rest_of result self.new ≡ behind byte self.old }
    {
        match self.rest {
            [first, rest @ ..] if *first == byte => {
                self.rest = rest;
                Ok(())
            }
            _ => Err(Cause::BadShape),
        }
    }

    /// Takes the next word, after one space.
    fn next_word(&mut self) -> Result<&'a [u8], Cause>
        ensures { and_rest (lent result) self.new ≡ word_field self.old }
    {
        self.pass(b' ')?;
        let word = self.word();
        if word.is_empty() {
            return Err(Cause::BadShape);
        }
        Ok(word)
    }

    /// Takes the next number from 0 to 4,294,967,295.
    ///
    /// # Errors
    ///
    /// `BadShape` if no space and word are left, and `BadNumber` if the word is no such number.
    pub(crate) fn natural(&mut self) -> Result<u32, Cause>
        ensures { and_rest result self.new ≡ number_field natural_of self.old }
    {
        if let Some(digit) = lone_digit(self.rest) {
            self.rest = &self.rest[2..];
            return Ok(u32::from(digit));
        }
        let word = self.next_word()?;
        numbers::natural(word).ok_or(Cause::BadNumber)
    }

    /// Takes the next number of 64 bits.
    ///
    /// # Errors
    ///
    /// `BadShape` if no space and word are left, and `BadNumber` if the word is no such number.
    pub(crate) fn integer(&mut self) -> Result<i64, Cause>
        ensures { and_rest result self.new ≡ number_field integer_of self.old }
    {
        if let Some(digit) = lone_digit(self.rest) {
            self.rest = &self.rest[2..];
            return Ok(i64::from(digit));
        }
        let word = self.next_word()?;
        numbers::integer(word).ok_or(Cause::BadNumber)
    }

    /// Takes the next text, after one space.
    ///
    /// # Errors
    ///
    /// `Stop::Fault` with `BadShape` if no space and quote come first, or `BadText` if the text is spelled wrongly;
    /// `Stop::OutOfMemory` if an allocation fails.
    pub(crate) fn text(&mut self, alloc: Global) -> Result<Bytes, Stop>
        ensures { AnswersAndLeaves (text_field self.old) result self.new }
    {
        self.pass(b' ')?;
        self.pass(b'"')?;
        let (text, passed) = read_text(alloc, self.rest)?;
        self.rest = &self.rest[passed..];
        Ok(text)
    }

    /// Returns `command` if nothing is left of the line.
    ///
    /// # Errors
    ///
    /// `BadShape` if something is left.
    pub(crate) fn ended(&self, command: Command) -> Result<Command, Cause>
        ensures { result ≡ ended_by command self.now }
    {
        if self.rest.is_empty() {
            Ok(command)
        } else {
            Err(Cause::BadShape)
        }
    }
}
