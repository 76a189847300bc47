//! Setting styles and indicators, and requests for styles.

ghost use Rattle.std.specs.Prelude.{◌≡◌, ◌≤◌, ◌<◌, ◌+◌, length, OnErr, []};
ghost use Rattle.ed_model.specs.declared.plan.DocumentChange.TheVariants.{StyleRun, StyleBytes, NeedStyle, FillIndicator};
ghost use Rattle.performing.specs.Changed.{IsMade, Makes};

use crate::laws::parts_match_text;
use crate::note::{ChangeNote, range_note};
use crate::telling::{INDICATOR_KIND, STYLE_KIND};
use document::Document;
use scene::document_is_small;
use std::alloc::AllocError;

/// Sets one style on the `count` bytes from the end of the styled text on, and moves that end behind them.
pub(crate) fn style_run(
    document: &mut Document,
    count: usize,
    style: u8,
) -> Result<ChangeNote, AllocError>
    requires { document.old.document.end_styled + count ≤ length document.old.document.cells }
    ensures made { Makes [] (StyleRun count style) document.old document.new result }
    ensures err { OnErr result (document.new ≡ document.old) }
{
    document_is_small(document);
    document.reserve_styles()?;
    let changed = document.style_run(count, style);
    Ok(range_note(STYLE_KIND, changed))
}

/// Like `style_run`, with the first `count` bytes of a text as styles.
pub(crate) fn style_bytes(
    document: &mut Document,
    text: &[u8],
    count: usize,
) -> Result<ChangeNote, AllocError>
    requires within { document.old.document.end_styled + count ≤ length document.old.document.cells }
    requires text { count ≤ length text.now }
    ensures { Makes text.now (StyleBytes count) document.old document.new result }
{
    document_is_small(document);
    document.reserve_styles()?;
    let changed = document.style_bytes(&text[..count]);
    Ok(range_note(STYLE_KIND, changed))
}

/// Lowers the end of the styled text to `start` at most, and asks the sending view to style the text up to `end`.
pub(crate) fn need_style(document: &mut Document, start: usize, end: usize) -> ChangeNote
    requires { end ≤ length document.old.document.cells }
    ensures { IsMade [] (NeedStyle start end) document.old document.new result }
{
    document_is_small(document);
    let styled = document.end_styled();
    document.set_end_styled(styled.min(start));
    ChangeNote::StyleNeeded { end }
}

/// Sets an indicator to a value on some bytes.
pub(crate) fn fill_indicator(
    document: &mut Document,
    indicator: usize,
    start: usize,
    count: usize,
    value: u32,
) -> Result<ChangeNote, AllocError>
    requires indicator { indicator < 32 }
    requires within { start + count ≤ length document.old.document.cells }
    ensures { Makes [] (FillIndicator indicator start count value) document.old document.new result }
{
    document_is_small(document);
    parts_match_text(document);
    document.reserve_fill(indicator)?;
    let changed = document.fill(indicator, start, count, value);
    Ok(range_note(INDICATOR_KIND, changed))
}
