//! Room for folds in a view, and a view that goes to a document of another width.

use contraction::Levels;
use ed_model::ViewChange;
use ed_view::View;
use std::process::Abort;

// Asserts that there are as many lines as in `wanted`, and which of them are visible.
fn assert_visible(rt: &impl Abort, view: &View, wanted: &[bool]) {
    assert!(rt; view.lines().count() == wanted.len());
    for line in 0..wanted.len() {
        assert!(rt; view.lines().visible(line) == wanted[line]);
    }
}

// One function owns the view with a single way out, and lends it to another one, which does the rest: owning a view with
// many ways out makes a proof slow.

fn hide_behind_the_first(rt: &impl Abort, view: &mut View, lines: usize) {
    let levels = Levels::new(&[], &[], lines);
    let rest = ViewChange::HideLines {
        first: 1,
        past: lines,
    };
    assert!(rt; view.lines().count() == lines);
    view.reserve_folding(view.fold_need(rest))
        .expect(rt, "memory");
    view.change(&levels, rest);
}

fn assert_widths(rt: &impl Abort, view: &mut View) {
    hide_behind_the_first(rt, view, 2);
    assert_visible(rt, view, &[true, false]);
    assert!(rt; view.lines().count() == 2);
    view.attach_to(8, 3, true);
    assert_visible(rt, view, &[true, true, true]);
    hide_behind_the_first(rt, view, 3);
    assert_visible(rt, view, &[true, false, false]);
    assert!(rt; view.lines().count() == 3);
    view.attach_to(7, 2, false);
    assert_visible(rt, view, &[true, true]);
}

// A document for large texts has line numbers of 64 bits.
#[test]
fn view_goes_to_a_document_of_another_width_and_back(rt: HostRuntime) {
    let mut view = View::new(rt.alloc(), 3, 7, 2, false);
    assert_widths(&rt, &mut view);
}
