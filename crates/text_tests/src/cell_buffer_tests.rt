//! `cell_buffer`: each call that allocates once with success, a refused one, and the count of moved cells.
use cell_buffer::Cells;
use std::alloc::Global;
use std::process::Abort;

// In each long test one function owns the cells and lends them to others, which do the rest: owning cells over many
// calls makes a proof slow.

// Inserts bytes, which may fit in already.
fn put(rt: &impl Abort, cells: &mut Cells, place: usize, bytes: &[u8]) {
    assert!(rt; place <= cells.len());
    cells.reserve(bytes.len()).expect(rt, "memory");
    cells.insert_reserved(place, bytes);
}

fn put_text_in(rt: &impl Abort, cells: &mut Cells) {
    cells.reserve(6).expect(rt, "memory");
    put(rt, cells, 0, b"held");
    put(rt, cells, 3, b"lo");
    assert_eq!(rt; cells.len(), 6);
    assert_eq!(rt; cells.lend(0, 6), b"hellod".as_slice());
}

fn keep_styles_of_six(rt: &impl Abort, cells: &mut Cells) {
    cells.keep_styles().expect(rt, "memory");
    assert!(rt; cells.len() == 6 && cells.keeps_styles());
    assert!(rt; cells.set_style_run(1, 3, 7) == Some((1, 3)));
    assert_eq!(rt; cells.style(3), 7);
}

fn assert_text_is_copied(rt: &impl Abort, cells: &Cells, alloc: Global) {
    assert_eq!(rt; cells.len(), 6);
    let mut text = Vec::new(alloc);
    cells.append_text_to(1, 4, &mut text).expect(rt, "memory");
    assert_eq!(rt; text.as_slice(), b"ello".as_slice());
    let copy = cells.text_to_vec(alloc, 1, 5, 2).expect(rt, "memory");
    assert_eq!(rt; copy.as_slice(), b"ellod".as_slice());
    assert!(rt; copy.capacity() >= 7);
}

#[test]
fn text_and_styles(rt: HostRuntime) {
    let mut cells = Cells::new(rt.alloc());
    put_text_in(&rt, &mut cells);
    keep_styles_of_six(&rt, &mut cells);
    assert_text_is_copied(&rt, &cells, rt.alloc());
}

fn assert_refused(rt: &impl Abort, cells: &mut Cells) {
    cells.reserve(3).expect(rt, "memory");
    put(rt, cells, 0, b"ab");
    assert!(rt; cells.reserve(usize::MAX).is_err());
    assert_eq!(rt; cells.len(), 2);
    assert_eq!(rt; cells.lend(0, 2), b"ab".as_slice());
    assert!(rt; cells.reserve(1).is_ok());
}

#[test]
fn a_refused_growth_changes_nothing(rt: HostRuntime) {
    let mut cells = Cells::new(rt.alloc());
    assert_refused(&rt, &mut cells);
}

// Appends one byte, and sets its style.
fn append_styled(rt: &impl Abort, cells: &mut Cells) {
    let len = cells.len();
    assert!(rt; cells.keeps_styles());
    cells.reserve(1).expect(rt, "memory");
    cells.insert_reserved(len, b".");
    cells.set_styles(len, &[1]);
}

fn assert_moves(rt: &impl Abort, cells: &mut Cells) {
    cells.keep_styles().expect(rt, "memory");
    cells.reserve(1001).expect(rt, "memory");
    let (bytes_before, styles_before) = cells.moved();
    for _ in 0..1000 {
        append_styled(rt, cells);
    }
    put(rt, cells, 0, b"^");
    let (bytes, styles) = cells.moved();
    assert!(rt; bytes >= bytes_before && bytes - bytes_before >= 2000);
    assert!(rt; styles >= styles_before && styles - styles_before >= 2000);
    assert_eq!(rt; cells.gaps(), (1, 1));
}

// A thousand bytes appended one by one, of which the last always has a style, and then one byte inserted at the start.
#[test]
fn moves_are_counted(rt: HostRuntime) {
    let mut cells = Cells::new(rt.alloc());
    assert_moves(&rt, &mut cells);
}

fn assert_moves_before_the_last(rt: &impl Abort, cells: &mut Cells) {
    cells.keep_styles().expect(rt, "memory");
    cells.reserve(1003).expect(rt, "memory");
    put(rt, cells, 0, b"ab");
    assert!(rt; cells.len() == 2 && cells.keeps_styles());
    cells.set_styles(0, &[1, 2]);
    let (bytes_before, styles_before) = cells.moved();
    for _ in 0..1000 {
        let len = cells.len();
        assert!(rt; len > 0);
        put(rt, cells, len - 1, b".");
    }
    put(rt, cells, 0, b"^");
    let (bytes, styles) = cells.moved();
    assert!(rt; bytes >= bytes_before && bytes - bytes_before >= 2000);
    assert!(rt; styles >= styles_before && styles - styles_before >= 2000);
    assert_eq!(rt; cells.gaps(), (1, 1));
}

// The same before a cell whose style is stored, so that the styles of the new cells are stored, too.
#[test]
fn moves_before_a_styled_cell_are_counted(rt: HostRuntime) {
    let mut cells = Cells::new(rt.alloc());
    assert_moves_before_the_last(&rt, &mut cells);
}
