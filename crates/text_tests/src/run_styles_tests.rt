//! Runs of four values, and of more values than could be stored one by one, at each width of places.
ghost use Rattle.run_styles.specs.Expansion.{IsExact};

use partitioning::Place;
use run_styles::RunStyles;
use std::alloc::Global;
use std::process::Abort;

fn set<P: Place, V: Copy + Eq>(
    rt: &impl Abort,
    styles: &mut RunStyles<P, V>,
    place: usize,
    count: usize,
    value: V,
) -> Option<(usize, usize)> {
    styles.reserve(2).expect(rt, "memory");
    let length = styles.length();
    assert!(rt; place <= length && count <= length - place);
    styles.fill(place, count, value)
}

fn row_of_fills<P: Place, V: Copy + Eq>(rt: &impl Abort, alloc: Global, default: V, other: V)
    requires { IsExact V.eq }
{
    let mut styles: RunStyles<P, V> = RunStyles::new(alloc, default).expect(rt, "memory");
    styles.reserve(1).expect(rt, "memory");
    assert!(rt; 4 <= P::GREATEST && styles.length() == 0);
    styles.insert_space(0, 4);
    assert_eq!(rt; set(rt, &mut styles, 1, 2, other), Some((1, 2)));
    assert_eq!(rt; set(rt, &mut styles, 0, 3, other), Some((0, 1)));
    assert_eq!(rt; set(rt, &mut styles, 0, 3, other), None);
}

// Too long for an implementation that stores a plain list of values.
fn long_list<P: Place, V: Copy + Eq>(
    rt: &impl Abort,
    alloc: Global,
    size: usize,
    default: V,
    other: V,
)
    requires { IsExact V.eq }
{
    let mut styles: RunStyles<P, V> = RunStyles::new(alloc, default).expect(rt, "memory");
    styles.reserve(4).expect(rt, "memory");
    assert!(rt; size <= P::GREATEST && 4 <= size);
    assert_eq!(rt; styles.length(), 0);
    styles.insert_space(0, size);
    let half = size / 2;
    assert!(rt; 1 + half <= styles.length());
    assert_eq!(rt; styles.fill(1, half, other), Some((1, half)));
    assert!(rt; half < styles.length());
    assert_eq!(rt; styles.start_run(half), 1);
    assert_eq!(rt; styles.end_run(half), half + 1);
    assert!(rt; styles.run(half) == (1, half + 1));
}

#[test]
fn fills(rt: HostRuntime) {
    let alloc = rt.alloc();
    row_of_fills::<u32, u8>(&rt, alloc, 0, 8);
    row_of_fills::<u64, bool>(&rt, alloc, true, false);
}

#[test]
fn long_lists(rt: HostRuntime) {
    let alloc = rt.alloc();
    long_list::<u64, u8>(&rt, alloc, 1 << 40, 0, 8);
    long_list::<u32, bool>(&rt, alloc, 1 << 31, true, false);
}
