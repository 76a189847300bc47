//! `undo_history`: a refused growth. `large_tests` has those that succeed.

use std::process::Abort;
use undo_history::{StepKind, UndoHistory};

// One function owns the history and lends it to another, which does the rest: owning it over many calls makes a proof
// slow.
fn reserve_too_much(rt: &impl Abort, history: &mut UndoHistory) {
    history.reserve(1, 1).expect(rt, "memory");
    history.append_reserved(false, StepKind::Insert, 0, b"a");
    assert!(rt; history.reserve(1, usize::MAX).is_err());
    assert_eq!(rt; history.undo_len(), 1);
    // While no steps are collected, none need room.
    history.set_collecting(false);
    assert!(rt; history.reserve(usize::MAX, usize::MAX).is_ok());
}

#[test]
fn a_refused_growth_changes_nothing(rt: HostRuntime) {
    let mut history = UndoHistory::new(rt.alloc());
    reserve_too_much(&rt, &mut history);
}
