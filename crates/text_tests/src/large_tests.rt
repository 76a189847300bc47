//! Each call that allocates, at a large size. `tools/ci/heap.sh` runs each of these tests again with a heap limited to
//! what the sizes justify, as its table says. A growth that nothing needs fails there, and with it the test.

use cell_buffer::Cells;
use decorations::Decorations;
use partitioning::{Partitioning, Place, Probes};
use split_vector::SplitVector;
use std::alloc::Global;
use std::process::Abort;
use test_support::{LARGE, LINE, LINES, MARKED_LINES, large_text};
use undo_history::{StepKind, UndoHistory};

// In each long test one function owns the value under test and lends it to others, which do the rest: owning it over
// many calls makes a proof slow.

fn insert_whole(rt: &impl Abort, whole: &mut SplitVector<u8>, text: &[u8]) {
    assert!(rt; whole.is_empty());
    whole.reserve(text.len()).expect(rt, "memory");
    whole.insert_slice_reserved(0, text);
    assert!(rt; whole.lend(0, whole.len()) == text);
}

fn put_in_one_by_one(rt: &impl Abort, single: &mut SplitVector<u8>, text: &[u8]) {
    for byte in text {
        let end = single.len();
        single.reserve(1).expect(rt, "memory");
        single.insert_reserved(end, *byte);
    }
    assert_eq!(rt; single.len(), LARGE);
    assert_eq!(rt; single.moved(), 1_048_576);
}

fn put_in_one_item_often(rt: &impl Abort, filled: &mut SplitVector<u32>) {
    filled.reserve(LINES).expect(rt, "memory");
    filled.insert_fill_reserved(0, LINES, 7);
    assert_eq!(rt; filled.len(), LINES);
    assert!(rt; filled.len() > 65_535);
    assert_eq!(rt; filled.get(65_535), 7);
}

#[test]
fn items_at_once_and_one_by_one(rt: HostRuntime) {
    let text = large_text(rt.alloc()).expect(&rt, "memory");
    let mut whole: SplitVector<u8> = SplitVector::new(rt.alloc());
    insert_whole(&rt, &mut whole, text.as_slice());
    let mut single: SplitVector<u8> = SplitVector::new(rt.alloc());
    put_in_one_by_one(&rt, &mut single, text.as_slice());
    let mut filled: SplitVector<u32> = SplitVector::new(rt.alloc());
    put_in_one_item_often(&rt, &mut filled);
}

fn insert_cells(rt: &impl Abort, cells: &mut Cells, text: &[u8]) {
    cells.reserve(text.len()).expect(rt, "memory");
    cells.insert_reserved(0, text);
    cells.keep_styles().expect(rt, "memory");
    assert_eq!(rt; cells.len(), LARGE);
    assert!(rt; cells.lend(0, cells.len()) == text);
}

fn copy_cells_out(rt: &impl Abort, cells: &Cells, copy: &mut Vec<u8>) {
    cells
        .append_text_to(0, cells.len(), copy)
        .expect(rt, "memory");
}

#[test]
fn cells_of_a_large_text(rt: HostRuntime) {
    let text = large_text(rt.alloc()).expect(&rt, "memory");
    let mut cells = Cells::new(rt.alloc());
    insert_cells(&rt, &mut cells, text.as_slice());
    let mut copy = Vec::with_capacity(rt.alloc(), LARGE).expect(&rt, "memory");
    copy_cells_out(&rt, &cells, &mut copy);
    assert!(rt; copy == text);
}

fn style_all(rt: &impl Abort, cells: &mut Cells) {
    assert!(rt; cells.keeps_styles());
    let len = cells.len();
    assert_eq!(rt; cells.set_style_run(0, len, 1), Some((0, LARGE)));
}

// Each change moves both gaps over the whole text, which pays for growth by a 64th.
fn change_at_both_ends(rt: &impl Abort, cells: &mut Cells) {
    for i in 0..256 {
        cells.reserve(128).expect(rt, "memory");
        let place = if i % 2 == 0 {
            0
        } else {
            cells.len().saturating_sub(1)
        };
        cells.insert_reserved(place, [b'x'; 128].as_slice());
    }
    assert_eq!(rt; cells.len(), LARGE + 32_768);
}

// Only the limited heap shows that the blocks grow by a 64th.
#[test]
fn a_large_text_that_is_changed(rt: HostRuntime) {
    let text = large_text(rt.alloc()).expect(&rt, "memory");
    let mut cells = Cells::new(rt.alloc());
    insert_cells(&rt, &mut cells, text.as_slice());
    style_all(&rt, &mut cells);
    change_at_both_ends(&rt, &mut cells);
}

fn put_cells_in_line_by_line(rt: &impl Abort, cells: &mut Cells) {
    cells.keep_styles().expect(rt, "memory");
    for _ in 0..LINES {
        let end = cells.len();
        let line = b"a line of bytes\n".as_slice();
        cells.reserve(line.len()).expect(rt, "memory");
        cells.insert_reserved(end, line);
    }
    assert_eq!(rt; cells.len(), LARGE);
}

#[test]
fn cells_of_a_large_text_line_by_line(rt: HostRuntime) {
    let mut cells = Cells::new(rt.alloc());
    put_cells_in_line_by_line(&rt, &mut cells);
}

fn cut_one_by_one<P: Place>(rt: &impl Abort, table: &mut Partitioning<P>) {
    assert!(rt; table.count() == 1 && LARGE <= P::GREATEST && table.length() == 0);
    table.insert_text(0, LARGE);
    for index in 1..LINES {
        let start = LINE * index;
        assert!(rt; table.count() == index && start <= table.length());
        assert!(rt; table.start_of(index - 1) < start);
        table.reserve(1).expect(rt, "memory");
        table.insert_reserved(index, start);
    }
    assert_eq!(rt; table.count(), LINES);
}

// So many look-ups that each may read a few starts, but not all of them.
fn look_all_places_up<P: Place>(rt: &impl Abort, table: &Partitioning<P>) {
    for place in 0..LARGE {
        let mut probes = Probes::new();
        assert_eq!(rt; table.partition_of(place, &mut probes), place / LINE);
        assert!(rt; 16 <= probes.count() && probes.count() <= 18);
    }
}

fn partitions_one_by_one<P: Place>(rt: &impl Abort, alloc: Global) {
    let mut table: Partitioning<P> = Partitioning::new(alloc).expect(rt, "memory");
    cut_one_by_one(rt, &mut table);
    look_all_places_up(rt, &table);
}

#[test]
fn many_small_partitions(rt: HostRuntime) {
    partitions_one_by_one::<u32>(&rt, rt.alloc());
}

#[test]
fn many_large_partitions(rt: HostRuntime) {
    partitions_one_by_one::<u64>(&rt, rt.alloc());
}

// The greatest number of starts that are looked up without a jump, and a number above it.
const FEW_STARTS: usize = 131_072;

const MANY_STARTS: usize = 140_000;

// Inserts starts at the end, each two behind the one before, until there are `count`.
fn cut_in_twos(rt: &impl Abort, table: &mut Partitioning<u32>, count: usize) {
    assert!(rt; count <= MANY_STARTS);
    for index in table.count()..count {
        let start = 2 * index;
        assert!(rt; table.count() == index && 0 < index && start <= table.length());
        assert!(rt; table.start_of(index - 1) < start);
        table.reserve(1).expect(rt, "memory");
        table.insert_reserved(index, start);
    }
    assert_eq!(rt; table.count(), count);
}

// Looks up even and odd places far apart, up to behind the end.
fn look_twos_up(rt: &impl Abort, table: &Partitioning<u32>) {
    let last = table.count() - 1;
    for turn in 0..300 {
        let place = 997 * turn;
        let mut probes = Probes::new();
        assert_eq!(rt; table.partition_of(place, &mut probes), last.min(place / 2));
    }
}

fn move_step(rt: &impl Abort, table: &mut Partitioning<u32>, index: usize) {
    assert!(rt; index < table.count() && table.length() <= u32::MAX as usize);
    table.insert_text(index, 0);
    assert_eq!(rt; table.step_at(), index);
}

// Looks up while all starts are stored as they are, while most are stored as distances to the end, and while there are
// many.
fn look_up_three_times(rt: &impl Abort, table: &mut Partitioning<u32>) {
    table.reserve(MANY_STARTS).expect(rt, "memory");
    assert_eq!(rt; table.length(), 0);
    table.insert_text(0, 2 * MANY_STARTS);
    cut_in_twos(rt, table, FEW_STARTS);
    look_twos_up(rt, table);
    move_step(rt, table, 40_000);
    look_twos_up(rt, table);
    cut_in_twos(rt, table, MANY_STARTS);
    look_twos_up(rt, table);
}

#[test]
fn looks_up_among_many(rt: HostRuntime) {
    let mut table: Partitioning<u32> = Partitioning::new(rt.alloc()).expect(&rt, "memory");
    look_up_three_times(&rt, &mut table);
}

fn append_one_step(rt: &impl Abort, history: &mut UndoHistory, text: &[u8]) {
    history.reserve(1, text.len()).expect(rt, "memory");
    history.append_reserved(false, StepKind::Insert, 0, text);
    assert_eq!(rt; history.undo_len(), 1);
    assert!(rt; history.change_to_undo(0).bytes == text);
}

#[test]
fn a_step_of_a_large_text(rt: HostRuntime) {
    let text = large_text(rt.alloc()).expect(&rt, "memory");
    let mut history = UndoHistory::new(rt.alloc());
    append_one_step(&rt, &mut history, text.as_slice());
}

fn append_many_steps(rt: &impl Abort, history: &mut UndoHistory) {
    for index in 0..LINES {
        let line = b"a line of bytes\n".as_slice();
        history.reserve(1, line.len()).expect(rt, "memory");
        history.append_reserved(false, StepKind::Insert, LINE * index, line);
    }
    assert_eq!(rt; history.undo_len(), LINES);
    history.undo();
    assert_eq!(rt; history.redo_len(), LINES);
}

#[test]
fn many_steps(rt: HostRuntime) {
    let mut history = UndoHistory::new(rt.alloc());
    append_many_steps(&rt, &mut history);
}

/// The length in bytes of a line on which an indicator is set.
const MARKED_LINE: usize = 10;

// Sets an indicator on the first half of each marked line in a text of `LARGE` bytes.
fn fill_line_by_line<P: Place>(rt: &impl Abort, indicators: &mut Decorations<P>) {
    indicators.reserve(1).expect(rt, "memory");
    assert!(rt; indicators.length() == 0 && LARGE <= P::GREATEST);
    indicators.insert(0, LARGE);
    for line in 0..MARKED_LINES {
        let start = MARKED_LINE * line;
        assert!(rt; indicators.length() == LARGE && start + 5 <= LARGE);
        indicators.reserve_fill(7).expect(rt, "memory");
        assert!(rt; indicators.fill(7, start, 5, 1) == Some((start, 5)));
    }
}

fn assert_filled_line_by_line<P: Place>(rt: &impl Abort, indicators: &Decorations<P>) {
    for line in 0..MARKED_LINES {
        let start = MARKED_LINE * line;
        assert!(rt; indicators.length() == LARGE && start + 5 <= LARGE);
        assert!(rt; indicators.run(7, start + 4) == (start, start + 5));
        assert!(rt; indicators.value(7, start + 5) == 0);
    }
}

fn indicators_line_by_line<P: Place>(rt: &impl Abort, alloc: Global) {
    let mut indicators: Decorations<P> = Decorations::new(alloc);
    fill_line_by_line(rt, &mut indicators);
    assert_filled_line_by_line(rt, &indicators);
}

#[test]
fn indicators_of_small_places(rt: HostRuntime) {
    indicators_line_by_line::<u32>(&rt, rt.alloc());
}

#[test]
fn indicators_of_large_places(rt: HostRuntime) {
    indicators_line_by_line::<u64>(&rt, rt.alloc());
}

fn fill_all(rt: &impl Abort, indicators: &mut Decorations<u32>) {
    indicators.reserve(1).expect(rt, "memory");
    assert!(rt; indicators.length() == 0);
    indicators.insert(0, LARGE);
    indicators.reserve_fill(31).expect(rt, "memory");
    assert!(rt; indicators.length() == LARGE);
    assert_eq!(rt; indicators.fill(31, 0, LARGE, 7), Some((0, LARGE)));
}

// Inserts bytes in the middle of a range, which get its value, with room reserved for all at once.
fn insert_in_the_midst(rt: &impl Abort, indicators: &mut Decorations<u32>) {
    for line in 0..MARKED_LINES {
        indicators.reserve(MARKED_LINES - line).expect(rt, "memory");
        indicators.reserve(1).expect(rt, "memory");
        let length = indicators.length();
        assert!(rt; length == LARGE + line);
        indicators.insert(MARKED_LINE * line + 1, 1);
    }
    assert_eq!(rt; indicators.length(), LARGE + MARKED_LINES);
    assert!(rt; indicators.run(31, 500_000) == (0, LARGE + MARKED_LINES));
}

#[test]
fn insertions_about_an_indicator(rt: HostRuntime) {
    let mut indicators: Decorations<u32> = Decorations::new(rt.alloc());
    fill_all(&rt, &mut indicators);
    insert_in_the_midst(&rt, &mut indicators);
}
