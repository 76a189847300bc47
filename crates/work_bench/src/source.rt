//! Texts as editors have them: like source code in the lengths of lines, the indentation and the words.

use crate::dice::Dice;
use std::alloc::{AllocError, Global};

/// A kind of line end.
#[derive(Clone, Copy)]
pub enum Ends {
    /// LF.
    Feeds,
    /// CR and LF.
    Pairs,
    /// CR alone.
    Returns,
    /// The line separator of Unicode.
    Separators,
}

/// Words of source code, the frequent ones several times.
const WORDS: [&[u8]; 32] = [
    b"self",
    b"return",
    b"if",
    b"def",
    b"for",
    b"value",
    b"index",
    b"self",
    b"result",
    b"in",
    b"name",
    b"path",
    b"node",
    b"line",
    b"None",
    b"not",
    b"import",
    b"class",
    b"else",
    b"items",
    b"text",
    b"key",
    b"data",
    b"self",
    b"length",
    b"config",
    b"request",
    b"append",
    b"position",
    b"True",
    b"context",
    b"\xc3\xbcbersicht",
];

/// The bytes between words.
const JOINTS: [&[u8]; 16] = [
    b" ", b" ", b".", b"(", b") ", b" = ", b", ", b" ", b"_", b": ", b" + ", b"[", b"] ", b" == ",
    b".", b" ",
];

/// From how many different lines texts are made.
const STOCKED: usize = 1024;

/// The deepest indentation.
const SPACES: &[u8] = b"                                        ";

/// Returns a word of source code.
pub fn word(dice: &mut Dice) -> &'static [u8] {
    WORDS.get(dice.below(32)).copied().unwrap_or(b"x")
}

/// Returns the bytes between two words.
fn joint(dice: &mut Dice) -> &'static [u8] {
    JOINTS.get(dice.below(16)).copied().unwrap_or(b" ")
}

/// Returns the bytes of a line end.
pub fn end_of(ends: Ends) -> &'static [u8] {
    match ends {
        Ends::Feeds => b"\n",
        Ends::Pairs => b"\r\n",
        Ends::Returns => b"\r",
        Ends::Separators => b"\xe2\x80\xa8",
    }
}

/// Appends words with the bytes between them.
fn append_words(text: &mut Vec<u8>, dice: &mut Dice, count: usize) -> Result<(), AllocError> {
    for _ in 0..count {
        text.extend_from_slice(word(dice))?;
        text.extend_from_slice(joint(dice))?;
    }
    Ok(())
}

/// Lines without indentation and line end, from which texts are made.
#[derive(Drop)]
struct Stock {
    text: Vec<u8>,
    ends: Vec<usize>,
}

impl Stock {
    /// Returns `STOCKED` lines, of one to six words.
    fn new(alloc: Global, dice: &mut Dice) -> Result<Self, AllocError> {
        let mut stock = Stock {
            text: Vec::new(alloc),
            ends: Vec::new(alloc),
        };
        for _ in 0..STOCKED {
            let count = dice.within(1, 6);
            append_words(&mut stock.text, dice, count)?;
            stock.ends.push(stock.text.len())?;
        }
        Ok(stock)
    }

    /// Returns one of the lines.
    fn line(&self, dice: &mut Dice) -> &[u8] {
        let index = dice.below(STOCKED.wrapping_sub(1));
        let from = self.ends.get(index).copied().unwrap_or(0);
        let to = self.ends.get(index.wrapping_add(1)).copied().unwrap_or(0);
        self.text.get(from..to).unwrap_or(&[])
    }
}

/// Returns the indentation of a line, four spaces for each level.
fn indentation(levels: usize) -> &'static [u8] {
    SPACES.get(..levels.wrapping_mul(4)).unwrap_or(SPACES)
}

/// Returns the depth of the next line: mostly that of the line before.
pub fn next_depth(dice: &mut Dice, depth: usize) -> usize {
    match dice.below(8) {
        0 | 1 if depth < 9 => depth.wrapping_add(1),
        2 => depth.saturating_sub(1),
        3 => depth / 2,
        _ => depth,
    }
}

/// Returns source code of this many lines, of 36 bytes on average and up to about 150. One in ten is empty.
pub fn source_lines(
    alloc: Global,
    dice: &mut Dice,
    lines: usize,
    ends: Ends,
) -> Result<Vec<u8>, AllocError> {
    let stock = Stock::new(alloc, dice)?;
    let mut text = Vec::with_capacity(alloc, lines.saturating_mul(40))?;
    let mut depth = 0usize;
    for _ in 0..lines {
        depth = next_depth(dice, depth);
        if !dice.happens(10) {
            text.extend_from_slice(indentation(depth))?;
            text.extend_from_slice(stock.line(dice))?;
        }
        text.extend_from_slice(end_of(ends))?;
    }
    Ok(text)
}

/// Returns a text of this many words without a line end.
pub fn one_line(alloc: Global, dice: &mut Dice, words: usize) -> Result<Vec<u8>, AllocError> {
    let stock = Stock::new(alloc, dice)?;
    let mut text = Vec::with_capacity(alloc, words.saturating_mul(8))?;
    for _ in 0..words / 3 {
        text.extend_from_slice(stock.line(dice))?;
    }
    Ok(text)
}

/// Returns a text of this many pieces of two bytes each: mostly `often`, and sometimes `seldom`.
pub fn two_pieces(
    alloc: Global,
    dice: &mut Dice,
    pieces: usize,
    often: &[u8],
    seldom: &[u8],
) -> Result<Vec<u8>, AllocError> {
    let mut text = Vec::with_capacity(alloc, pieces.saturating_mul(2))?;
    for _ in 0..pieces {
        let piece = if dice.happens(97) { often } else { seldom };
        text.extend_from_slice(piece)?;
    }
    Ok(text)
}
