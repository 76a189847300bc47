//! Markers on as many lines as there can be, and on lines far apart.
ghost use Rattle.std.specs.Prelude.{◌≡◌};

use marker_store::{GREATEST_LINES, MarkerStore};
use std::process::Abort;

fn add(rt: &impl Abort, store: &mut MarkerStore, line: usize, number: u32) -> u32 {
    store.reserve(1, 0).expect(rt, "memory");
    assert!(rt; line < store.lines());
    assert!(rt; number < 32);
    assert!(rt; store.next_handle() < u32::MAX);
    store.add_reserved(line, number)
}

fn line_comes(rt: &impl Abort, store: &mut MarkerStore, line: usize) {
    store.reserve(0, 1).expect(rt, "memory");
    assert!(rt; line <= store.lines());
    assert!(rt; store.lines() < GREATEST_LINES);
    store.shift(line, 1);
}

// One function owns the store and lends it to another, which does the rest: owning one over many calls makes a proof
// slow. Lines take no memory before the first marker.
fn have_as_many_lines_as_can_be(rt: &impl Abort, store: &mut MarkerStore)
    requires { store.old.capacity ≡ 0 }
{
    let last = GREATEST_LINES - 1;
    assert_eq!(rt; store.lines(), 1);
    store.shift(0, last);
    assert_eq!(rt; store.lines(), GREATEST_LINES);
    assert!(rt; store.reserve(1, 0).is_err());
    assert_eq!(rt; store.next(8, u32::MAX), None);
}

#[test]
fn as_many_lines_as_can_be(rt: HostRuntime) {
    let mut store = MarkerStore::new(rt.alloc());
    have_as_many_lines_as_can_be(&rt, &mut store);
}

fn mark_lines_far_apart(rt: &impl Abort, store: &mut MarkerStore)
    requires { store.old.capacity ≡ 0 }
{
    assert_eq!(rt; store.lines(), 1);
    store.shift(0, 99_999);
    assert_eq!(rt; add(rt, store, 99_999, 31), 1);
    assert_eq!(rt; add(rt, store, 7, 0), 2);
    assert_eq!(rt; add(rt, store, 7, 3), 3);
    line_comes(rt, store, 0);
    assert_eq!(rt; store.next(0, u32::MAX), Some(8));
    assert_eq!(rt; store.next(9, u32::MAX), Some(100_000));
    assert_eq!(rt; store.previous(99_999, u32::MAX), Some(8));
    assert_eq!(rt; store.line_of_handle(3), Some(8));
}

fn unmark_lines_far_apart(rt: &impl Abort, store: &mut MarkerStore) {
    assert!(rt; 100_000 < store.lines());
    assert_eq!(rt; store.mask(8), 9);
    assert!(rt; store.delete(8, Some(0)));
    assert!(rt; !store.delete(8, Some(0)));
    assert!(rt; 100_000 < store.lines());
    store.merge(8, 99_992);
    assert_eq!(rt; store.lines(), 9);
    assert!(rt; 8 < store.lines());
    assert_eq!(rt; store.mask(8), (1 << 31) + 8);
    assert_eq!(rt; store.delete_handle(3), Some(8));
    assert_eq!(rt; store.markers(), 1);
    assert!(rt; store.delete_all(Some(31)));
    assert_eq!(rt; store.markers(), 0);
}

#[test]
fn markers_far_apart(rt: HostRuntime) {
    let mut store = MarkerStore::new(rt.alloc());
    mark_lines_far_apart(&rt, &mut store);
    unmark_lines_far_apart(&rt, &mut store);
}
