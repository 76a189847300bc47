//! Room for hidden and contracted lines: each call that allocates once with success, at each width of places.

use contraction::{Contraction, Levels};
use partitioning::Place;
use std::alloc::Global;
use std::process::Abort;

// One function owns the view and lends it to another, which does the rest: owning one over many calls makes a proof
// slow.
fn contract_the_second<P: Place>(rt: &impl Abort, view: &mut Contraction<P>) {
    let stored = [0x400, 0x2400, 0x401, 0x400];
    let levels = Levels::new(&stored, &[], 4);
    view.reserve(4, view.contracted_count() + 1)
        .expect(rt, "memory");
    assert!(rt; levels.count() == view.count() && view.count() == 4);
    view.contract(&levels, 1);
    assert!(rt; view.count() == 4);
    assert!(rt; view.visible(1) && !view.visible(2) && view.visible(3));
    assert!(rt; !view.expanded(1));
}

fn contracted_lines<P: Place>(rt: &impl Abort, alloc: Global) {
    assert!(rt; 4 <= P::GREATEST);
    let mut view: Contraction<P> = Contraction::new(alloc, 4);
    contract_the_second(rt, &mut view);
}

#[test]
fn lines_are_contracted(rt: HostRuntime) {
    contracted_lines::<u32>(&rt, rt.alloc());
    contracted_lines::<u64>(&rt, rt.alloc());
}
