//! `reserve` and `reserve_narrow`, with memory and without, and the count of moved items.
use split_vector::SplitVector;
use std::alloc::AllocError;
use std::process::Abort;

/// Returns the two halves as one list.
fn joined(v: &SplitVector<u8>, rt: &HostRuntime) -> Result<Vec<u8>, AllocError> {
    let (left, right) = v.halves();
    let mut all = left.to_vec(rt.alloc())?;
    all.extend_from_slice(right)?;
    Ok(all)
}

#[test]
fn bytes_go_in_and_out(rt: HostRuntime) {
    let mut v: SplitVector<u8> = SplitVector::new(rt.alloc());
    assert_eq!(rt; v.spare(), 0);
    assert!(rt; v.is_empty());
    v.reserve(3).expect(&rt, "memory");
    v.insert_slice_reserved(0, b"abc");
    v.reserve(2).expect(&rt, "memory");
    assert_eq!(rt;
        joined(&v, &rt).expect(&rt, "memory").as_slice(),
        b"abc".as_slice()
    );
    assert!(rt; v.spare() >= 2);
    v.insert_reserved(1, b'x');
    assert_eq!(rt; v.gap(), 2);
    assert_eq!(rt;
        joined(&v, &rt).expect(&rt, "memory").as_slice(),
        b"axbc".as_slice()
    );
    assert_eq!(rt; v.lend(0, 4), b"axbc".as_slice());
    v.delete(0, 4);
    assert!(rt; v.capacity() >= 5);
    assert!(rt; v.is_empty());
}

#[test]
fn a_deletion_across_the_gap(rt: HostRuntime) {
    let mut v: SplitVector<u8> = SplitVector::new(rt.alloc());
    v.reserve(4).expect(&rt, "memory");
    v.insert_slice_reserved(0, b"abc");
    v.insert_reserved(1, b'x');
    assert_eq!(rt; v.moved(), 6);
    v.delete(0, 2);
    assert_eq!(rt; v.moved(), 6);
    assert_eq!(rt; v.gap(), 0);
    assert_eq!(rt;
        joined(&v, &rt).expect(&rt, "memory").as_slice(),
        b"bc".as_slice()
    );
    assert_eq!(rt; v.lend(0, 2), b"bc".as_slice());
}

#[test]
fn a_refused_growth_changes_nothing(rt: HostRuntime) {
    let mut v: SplitVector<u8> = SplitVector::new(rt.alloc());
    v.reserve(5).expect(&rt, "memory");
    v.insert_slice_reserved(0, b"abc");
    let spare = v.spare();
    assert!(rt; v.reserve(usize::MAX).is_err());
    assert!(rt; v.reserve(usize::MAX / 2).is_err());
    assert_eq!(rt; v.spare(), spare);
    assert_eq!(rt;
        joined(&v, &rt).expect(&rt, "memory").as_slice(),
        b"abc".as_slice()
    );
}

#[test]
fn a_narrow_growth_is_a_sixty_fourth_part(rt: HostRuntime) {
    let mut v: SplitVector<u8> = SplitVector::new(rt.alloc());
    v.reserve_narrow(128).expect(&rt, "memory");
    v.insert_fill_reserved(0, 128, b'x');
    assert_eq!(rt; v.spare(), 0);
    v.reserve_narrow(1).expect(&rt, "memory");
    assert_eq!(rt; v.spare(), 2);
    v.reserve_narrow(2).expect(&rt, "memory");
    assert_eq!(rt; v.spare(), 2);
    v.reserve_narrow(3).expect(&rt, "memory");
    assert_eq!(rt; v.spare(), 4);
    v.reserve_narrow(10).expect(&rt, "memory");
    assert_eq!(rt; v.spare(), 10);
    assert!(rt; v.reserve_narrow(usize::MAX).is_err());
    assert!(rt; v.reserve_narrow(usize::MAX / 2).is_err());
    assert_eq!(rt; v.spare(), 10);
    assert_eq!(rt; v.len(), 128);
    assert_eq!(rt; v.moved(), 128);
}

#[test]
fn moves_are_counted(rt: HostRuntime) {
    let mut v: SplitVector<u8> = SplitVector::new(rt.alloc());
    v.reserve(1001).expect(&rt, "memory");
    for _ in 0..1000 {
        let len = v.len();
        assert!(rt; v.spare() > 0);
        v.insert_reserved(len, b'.');
    }
    assert_eq!(rt; v.moved(), 1000);
    assert!(rt; v.spare() > 0);
    v.insert_reserved(0, b'^');
    assert_eq!(rt; v.moved(), 2001);
    assert_eq!(rt; v.len(), 1001);
}
