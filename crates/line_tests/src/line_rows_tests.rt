//! Room for many lines and all of their state at once.
use line_index::LineEdit;
use line_rows::LineRows;
use std::process::Abort;

fn reserve_for_many(rt: &impl Abort, rows: &mut LineRows) {
    rows.reserve_level(99_999).expect(rt, "memory");
    rows.reserve_state(99_999).expect(rt, "memory");
    rows.reserve_markers(100_000).expect(rt, "memory");
    rows.reserve_lines(99_999).expect(rt, "memory");
    let lines = rows.count();
    assert!(rt; lines == 1);
    rows.carry(&[LineEdit::Come {
        line: 1,
        count: 99_999,
    }]);
    assert!(rt; rows.count() == 100_000);
    let _ = rows.set_level(99_999, 0x401);
    assert!(rt; rows.level(99_999) == 0x401);
}

// Room for many lines, and for all of their state, is reserved at once.
#[test]
fn rows_of_many_lines(rt: HostRuntime) {
    let mut rows = LineRows::new(rt.alloc());
    reserve_for_many(&rt, &mut rows);
}
