//! Files opened, searched, replaced and saved: source code, logs with CRLF, one long line, lines of one byte, and
//! Unicode line ends.

use crate::desk::{Desk, argument};
use crate::dice::Dice;
use crate::source::{Ends, one_line, source_lines, two_pieces, word};
use ed_types::Kind;
use std::alloc::{AllocError, Global};

/// Searches in the target, and returns where the match starts.
fn search(desk: &mut Desk, view: u32, from: i64, to: i64, text: &[u8]) -> i64 {
    desk.send(view, Kind::SetTargetRange, from, to, &[]);
    desk.send(view, Kind::SearchInTarget, argument(text.len()), 0, text)
}

/// Searches from match to match, `most` times at most, from the start or from the end.
fn search_all(desk: &mut Desk, view: u32, text: &[u8], backwards: bool, most: usize) {
    let length = argument(desk.length(view));
    let mut from = if backwards { length } else { 0 };
    for _ in 0..most {
        let to = if backwards { 0 } else { length };
        let found = search(desk, view, from, to, text);
        if found < 0 {
            return;
        }
        let size = if backwards { 0 } else { argument(text.len()) };
        from = found.wrapping_add(size);
    }
}

/// Searches for frequent words and for one that the text does not have, with these flags.
fn search_words(desk: &mut Desk, view: u32, dice: &mut Dice, flags: i64, most: usize) {
    desk.send(view, Kind::SetSearchFlags, flags, 0, &[]);
    search_all(desk, view, b"import config", false, most);
    search_all(desk, view, b"nowhere_to_be_found", false, most);
    search_all(desk, view, b"selfless", true, most);
    for _ in 0..3 {
        search_all(desk, view, word(dice), false, most);
        search_all(desk, view, word(dice), true, most);
    }
}

/// Searches with case and in any case, for whole words and for any match.
fn search_each_way(desk: &mut Desk, view: u32, dice: &mut Dice, most: usize) {
    search_words(desk, view, dice, 4, most);
    search_words(desk, view, dice, 0, most);
    search_words(desk, view, dice, 6, most);
    search_words(desk, view, dice, 2, most);
}

/// Opens a text, makes an edit in its middle, and searches in it.
fn open_and_search(desk: &mut Desk, dice: &mut Dice, text: &[u8], most: usize) -> u32 {
    let view = desk.open_on(text);
    let middle = argument(desk.length(view) / 2);
    desk.send(view, Kind::InsertText, middle, 0, b"changed");
    search_each_way(desk, view, dice, most);
    view
}

/// Replaces the text of a view by another one, saves it, undoes that, and closes the view.
fn replace_and_save(desk: &mut Desk, view: u32, text: &[u8]) {
    desk.send(view, Kind::SetText, 0, 0, text);
    desk.read(view, Kind::GetText, 0, 0);
    desk.send(view, Kind::SetSavePoint, 0, 0, &[]);
    desk.send(view, Kind::Undo, 0, 0, &[]);
    desk.send(view, Kind::GetText, 0, 0, &[]);
    desk.close(view);
}

/// Opens source code, searches it, and replaces it by another text.
fn with_source(
    desk: &mut Desk,
    alloc: Global,
    dice: &mut Dice,
    lines: usize,
    ends: Ends,
) -> Result<(), AllocError> {
    let text = source_lines(alloc, dice, lines, ends)?;
    let view = open_and_search(desk, dice, &text, lines / 4);
    let text = source_lines(alloc, dice, lines, Ends::Feeds)?;
    replace_and_save(desk, view, &text);
    Ok(())
}

/// Works on a text without a line end, as some data files are.
fn with_one_line(
    desk: &mut Desk,
    alloc: Global,
    dice: &mut Dice,
    words: usize,
) -> Result<(), AllocError> {
    let text = one_line(alloc, dice, words)?;
    let view = open_and_search(desk, dice, &text, words / 16);
    replace_and_save(desk, view, &text);
    Ok(())
}

/// Works on a text with lines of one byte, some of which have another line end.
fn with_short_lines(
    desk: &mut Desk,
    alloc: Global,
    dice: &mut Dice,
    lines: usize,
) -> Result<(), AllocError> {
    let text = two_pieces(alloc, dice, lines, b"a\n", b"\r\n")?;
    let view = desk.open_on(&text);
    let text = two_pieces(alloc, dice, lines, b"b\r", b"\r\n")?;
    replace_and_save(desk, view, &text);
    Ok(())
}

/// Works on a text in which Unicode line ends count.
fn with_unicode_ends(
    desk: &mut Desk,
    alloc: Global,
    dice: &mut Dice,
    lines: usize,
) -> Result<(), AllocError> {
    let text = source_lines(alloc, dice, lines, Ends::Separators)?;
    let view = desk.open();
    desk.send(view, Kind::SetLineEndTypesAllowed, 1, 0, &[]);
    desk.send(view, Kind::InsertText, 0, 0, &text);
    let text = source_lines(alloc, dice, lines, Ends::Returns)?;
    replace_and_save(desk, view, &text);
    Ok(())
}

/// Works on a text that has the beginning of the pattern everywhere.
fn with_near_matches(
    desk: &mut Desk,
    alloc: Global,
    dice: &mut Dice,
    pieces: usize,
) -> Result<(), AllocError> {
    let text = two_pieces(alloc, dice, pieces, b"ab", b"ac")?;
    let view = desk.open_on(&text);
    for flags in [4, 0, 6, 2] {
        desk.send(view, Kind::SetSearchFlags, flags, 0, &[]);
        search_all(desk, view, b"ab", false, 1);
        search_all(desk, view, b"acacac", false, pieces / 256);
        search_all(desk, view, b"abababad", true, pieces / 256);
    }
    desk.close(view);
    Ok(())
}

/// Works with files of each kind.
pub fn files(
    desk: &mut Desk,
    alloc: Global,
    dice: &mut Dice,
    size: usize,
) -> Result<(), AllocError> {
    with_source(desk, alloc, dice, size.saturating_mul(4), Ends::Feeds)?;
    with_source(desk, alloc, dice, size, Ends::Pairs)?;
    with_one_line(desk, alloc, dice, size.saturating_mul(8))?;
    with_short_lines(desk, alloc, dice, size.saturating_mul(4))?;
    with_unicode_ends(desk, alloc, dice, size.saturating_mul(2))?;
    with_near_matches(desk, alloc, dice, size.saturating_mul(4))
}
