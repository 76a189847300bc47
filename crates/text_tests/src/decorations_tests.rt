//! Room for insertions and for a fill, at each width of places, and for many insertions at once.
use decorations::Decorations;
use partitioning::Place;
use std::alloc::Global;
use std::process::Abort;

fn put<P: Place>(rt: &impl Abort, indicators: &mut Decorations<P>, place: usize, count: usize) {
    let length = indicators.length();
    assert!(rt; place <= length && count <= P::GREATEST - length);
    indicators.reserve(1).expect(rt, "memory");
    indicators.insert(place, count);
}

// Returns the run around a place of the text.
fn run_about<P: Place>(
    rt: &impl Abort,
    indicators: &Decorations<P>,
    indicator: usize,
    place: usize,
) -> (usize, usize) {
    let length = indicators.length();
    assert!(rt; indicator < 32 && place < length);
    indicators.run(indicator, place)
}

// In each test one function owns the lists and lends them to others, which do the rest: owning them over many calls
// makes a proof slow.

// Inserts `count` bytes at once, and asserts that the last place is 0 in each list.
fn insert_once<P: Place>(rt: &impl Abort, indicators: &mut Decorations<P>, count: usize) {
    assert!(rt; 0 < count && count <= P::GREATEST);
    indicators.reserve(1).expect(rt, "memory");
    assert!(rt; indicators.length() == 0);
    indicators.insert(0, count);
    assert!(rt; indicators.length() == count);
    assert!(rt; indicators.mask_at(count - 1) == 0);
    for indicator in 0..32 {
        assert!(rt; indicators.value(indicator, count - 1) == 0);
        assert!(rt; !indicators.is_used(indicator));
        assert!(rt; run_about(rt, indicators, indicator, count - 1) == (0, count));
    }
}

// An empty list with room for one insertion.
fn one_insertion<P: Place>(rt: &impl Abort, alloc: Global, count: usize) {
    let mut indicators = Decorations::<P>::new(alloc);
    insert_once(rt, &mut indicators, count);
}

#[test]
fn insertion_of_a_great_length(rt: HostRuntime) {
    one_insertion::<u32>(&rt, rt.alloc(), (1 << 31) - 1);
    one_insertion::<u64>(&rt, rt.alloc(), 1 << 40);
}

fn reserve_for_many(rt: &impl Abort, indicators: &mut Decorations<u32>) {
    indicators.reserve(100_000).expect(rt, "memory");
    put(rt, indicators, 0, 100_000);
    indicators.reserve_fill(31).expect(rt, "memory");
    assert!(rt; indicators.length() == 100_000);
    assert_eq!(rt; indicators.fill(31, 50_000, 10, 7), Some((50_000, 10)));
    indicators.reserve(100_000).expect(rt, "memory");
    assert!(rt; indicators.value(31, 50_009) == 7);
}

// Room for many insertions is reserved at once.
#[test]
fn many_insertions(rt: HostRuntime) {
    let mut indicators: Decorations<u32> = Decorations::new(rt.alloc());
    reserve_for_many(&rt, &mut indicators);
}
