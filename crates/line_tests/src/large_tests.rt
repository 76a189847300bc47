//! Each call that allocates, at a large size. `tools/ci/heap.sh` runs each of these tests again with a heap limited to
//! what the sizes justify, as its table says. A growth that nothing needs fails there, and with it the test.
ghost use Rattle.std.specs.Prelude.{[]};
ghost use Rattle.line_index.specs.Index.{IsIndexOf};

use crate::line_index_tests::insert;
use ed_model::{LineEnd, LineEndTypes};
use line_ends::{convert_into, converted_len, count_unwanted, next_missing, next_unwanted};
use line_index::{LineEdit, LineIndex};
use line_rows::LineRows;
use partitioning::Probes;
use std::alloc::Global;
use std::process::Abort;
use test_support::{LARGE, LINE, LINES, MARKED_LINES, large_text};

fn assert_large_lines(rt: &impl Abort, alloc: Global, index: &mut LineIndex<u32>, bytes: &[u8])
    requires { IsIndexOf [] index.old }
{
    let (text, _) = insert(rt, alloc, index, b"", 0, bytes, 524_288);
    assert_eq!(rt; index.count(), 65_537);
    let mut probes = Probes::new();
    assert_eq!(rt; index.line_of(1_000_000, &mut probes), 62_500);
    assert!(rt; 16 <= probes.count() && probes.count() <= 18);
    let (_, _) = insert(rt, alloc, index, text.as_slice(), 8, b"\n", 9);
    assert_eq!(rt; index.count(), 65_538);
}

fn index_large_lines(rt: &impl Abort, alloc: Global, types: LineEndTypes, bytes: &[u8]) {
    let mut index: LineIndex<u32> = LineIndex::new(alloc, types).expect(rt, "memory");
    assert_large_lines(rt, alloc, &mut index, bytes);
}

#[test]
fn lines_of_a_large_text(rt: HostRuntime) {
    let bytes = large_text(rt.alloc()).expect(&rt, "memory");
    for types in [LineEndTypes::Default, LineEndTypes::Unicode] {
        index_large_lines(&rt, rt.alloc(), types, bytes.as_slice());
    }
}

// The look-up of each step starts at the step before: there are so many that each may read a line, but not the whole
// text.
#[test]
fn line_ends_turned_and_back(rt: HostRuntime) {
    let text = large_text(rt.alloc()).expect(&rt, "memory");
    assert_eq!(rt; text.len(), LARGE);
    for line in 0..LINES {
        let found = next_missing(&text, &[], LINE * line, LineEnd::CrLf);
        assert!(rt; found == Some((LINE * line + 15, b'\r')));
    }
    let length = converted_len(&text, LineEnd::CrLf);
    assert_eq!(rt; length, LARGE + LINES);
    let mut turned = Vec::with_capacity(rt.alloc(), length).expect(&rt, "memory");
    convert_into(&text, LineEnd::CrLf, &mut turned);
    assert_eq!(rt; turned.len(), LARGE + LINES);
    assert!(rt; turned.ends_with(b" bytes\r\n"));
    assert_eq!(rt; count_unwanted(&turned, &[], LineEnd::Lf), LINES);
    for line in 0..LINES {
        let found = next_unwanted(&turned, &[], (LINE + 1) * line, LineEnd::Lf);
        assert!(rt; found == Some((LINE + 1) * line + 15));
    }
}

// Adds one more line at the end.
fn line_comes(rt: &impl Abort, rows: &mut LineRows) {
    rows.reserve_lines(1).expect(rt, "memory");
    let lines = rows.count();
    assert!(rt; lines < MARKED_LINES);
    rows.carry(&[LineEdit::Come {
        line: lines,
        count: 1,
    }]);
}

fn row_is_set(rt: &impl Abort, rows: &mut LineRows, line: usize) {
    assert!(rt; line < MARKED_LINES);
    rows.reserve_level(line).expect(rt, "memory");
    rows.reserve_state(line).expect(rt, "memory");
    assert!(rt; line < rows.count() && rows.next_handle() <= 100_000);
    let _ = rows.set_level(line, 0x401);
    let _ = rows.set_state(line, 5);
    rows.reserve_markers(1).expect(rt, "memory");
    let _ = rows.add_reserved(line, 3);
}

fn assert_rows_are_set(rt: &impl Abort, rows: &LineRows) {
    for line in 0..rows.count() {
        assert!(rt; line < rows.count() && rows.level(line) == 0x401);
        assert!(rt; rows.state(line) == 5 && rows.mask(line) == 1 << 3);
    }
}

fn set_row_by_row(rt: &impl Abort, rows: &mut LineRows) {
    row_is_set(rt, rows, 0);
    for line in 1..MARKED_LINES {
        line_comes(rt, rows);
        row_is_set(rt, rows, line);
    }
    assert_eq!(rt; rows.count(), MARKED_LINES);
    assert_rows_are_set(rt, rows);
    assert_eq!(rt; rows.line_of_handle(100_000), Some(99_999));
}

// In each test one function owns the rows and lends them to others, which do the rest: owning them over many calls
// makes a proof slow.
#[test]
fn rows_line_by_line(rt: HostRuntime) {
    let mut rows = LineRows::new(rt.alloc());
    set_row_by_row(&rt, &mut rows);
}

fn reserve_at_once(rt: &impl Abort, rows: &mut LineRows) {
    rows.reserve_lines(MARKED_LINES - 2).expect(rt, "memory");
    let lines = rows.count();
    assert!(rt; lines == 1);
    rows.carry(&[LineEdit::Come {
        line: 1,
        count: MARKED_LINES - 2,
    }]);
    rows.reserve_level(MARKED_LINES - 3).expect(rt, "memory");
    rows.reserve_state(MARKED_LINES - 3).expect(rt, "memory");
    rows.reserve_markers(MARKED_LINES).expect(rt, "memory");
    assert!(rt; rows.count() == MARKED_LINES - 1);
}

fn set_and_join_all(rt: &impl Abort, rows: &mut LineRows) {
    for line in 0..MARKED_LINES - 2 {
        row_is_set(rt, rows, line);
    }
    assert!(rt; rows.count() == MARKED_LINES - 1);
    assert!(rt; rows.next(50_000, 1 << 3) == Some(50_000) && rows.mask(99_998) == 0);
    // States that the rows fit in, which is enough to join lines.
    rows.fits_in();
    rows.carry(&[LineEdit::Join {
        line: 0,
        count: 99_998,
    }]);
    assert_eq!(rt; rows.line_of_handle(99_998), Some(0));
}

#[test]
fn rows_at_once(rt: HostRuntime) {
    let mut rows = LineRows::new(rt.alloc());
    reserve_at_once(&rt, &mut rows);
    set_and_join_all(&rt, &mut rows);
}
