//! Series of calls, at both widths of places. Each helper asserts the postcondition of its call.
use partitioning::{Partitioning, Place, Probes};
use std::alloc::Global;
use std::process::Abort;

fn put_in<P: Place>(rt: &impl Abort, table: &mut Partitioning<P>, index: usize, count: usize) {
    assert!(rt; index < table.count());
    assert!(rt; count <= P::GREATEST - table.length());
    table.insert_text(index, count);
}

fn take_out<P: Place>(rt: &impl Abort, table: &mut Partitioning<P>, index: usize, count: usize) {
    let partitions = table.count();
    assert!(rt; index < partitions);
    let start = table.start_of(index);
    assert!(rt; count <= table.length() - start);
    assert!(rt; index + 1 == partitions || start + count < table.start_of(index + 1));
    table.delete_text(index, count);
}

fn split<P: Place>(rt: &impl Abort, table: &mut Partitioning<P>, index: usize, start: usize) {
    table.reserve(1).expect(rt, "memory");
    let partitions = table.count();
    assert!(rt; 0 < index && index <= partitions);
    assert!(rt; table.start_of(index - 1) < start && start <= table.length());
    assert!(rt; index == partitions || start < table.start_of(index));
    table.insert_reserved(index, start);
}

fn join<P: Place>(rt: &impl Abort, table: &mut Partitioning<P>, index: usize) {
    assert!(rt; 0 < index && index < table.count());
    table.remove(index);
}

// Asserts that the partitions have these starts, and that the last ends at the length.
fn assert_starts<P: Place>(
    rt: &impl Abort,
    table: &Partitioning<P>,
    starts: &[usize],
    length: usize,
) {
    let count = table.count();
    assert_eq!(rt; count, starts.len());
    for index in 0..count {
        assert_eq!(rt; table.start_of(index), starts[index]);
    }
    assert_eq!(rt; table.length(), length);
}

// In each test one function owns the table and lends it to others, which do the rest: owning one over many calls makes
// a proof slow.

fn cut_in_three<P: Place>(rt: &impl Abort, table: &mut Partitioning<P>) {
    assert_starts(rt, table, &[0], 0);
    put_in(rt, table, 0, 5);
    table.reserve(2).expect(rt, "memory");
    split(rt, table, 1, 2);
    split(rt, table, 2, 4);
    assert_starts(rt, table, &[0, 2, 4], 5);
    put_in(rt, table, 0, 3);
    assert_starts(rt, table, &[0, 5, 7], 8);
}

fn look_up_in_three<P: Place>(rt: &impl Abort, table: &Partitioning<P>) {
    let mut probes = Probes::new();
    assert_eq!(rt; table.partition_of(5, &mut probes), 1);
    assert_eq!(rt; table.partition_of(8, &mut probes), 2);
    assert_eq!(rt; table.partition_of(usize::MAX, &mut probes), 2);
}

fn leave_two<P: Place>(rt: &impl Abort, table: &mut Partitioning<P>) {
    take_out(rt, table, 0, 1);
    assert_starts(rt, table, &[0, 4, 6], 7);
    join(rt, table, 1);
    assert_starts(rt, table, &[0, 6], 7);
    put_in(rt, table, 1, 2);
    assert_starts(rt, table, &[0, 6], 9);
    put_in(rt, table, 0, 1);
    assert_starts(rt, table, &[0, 7], 10);
    let mut probes = Probes::new();
    assert_eq!(rt; table.partition_of(6, &mut probes), 0);
    assert_eq!(rt; table.partition_of(7, &mut probes), 1);
}

fn row_of_edits<P: Place>(rt: &impl Abort, alloc: Global) {
    let mut table: Partitioning<P> = Partitioning::new(alloc).expect(rt, "memory");
    cut_in_three(rt, &mut table);
    look_up_in_three(rt, &table);
    leave_two(rt, &mut table);
}

#[test]
fn edits_at_both_places(rt: HostRuntime) {
    row_of_edits::<u32>(&rt, rt.alloc());
    row_of_edits::<u64>(&rt, rt.alloc());
}

// Returns one partition of `count` bytes, cut into partitions of one byte.
fn single_bytes<P: Place>(rt: &impl Abort, alloc: Global, count: usize) -> Partitioning<P> {
    let mut table = Partitioning::new(alloc).expect(rt, "memory");
    put_in(rt, &mut table, 0, count);
    for index in 1..count {
        split(rt, &mut table, index, index);
    }
    table
}

// Asserts that each look-up reads at least and at most this many starts.
fn assert_reads<P: Place>(rt: &impl Abort, table: &Partitioning<P>, least: u64, most: u64) {
    let partitions = table.count();
    assert!(rt; 0 < partitions && partitions <= 1000);
    for place in 0..partitions + 2 {
        let mut probes = Probes::new();
        let found = table.partition_of(place, &mut probes);
        assert_eq!(rt; found, place.min(partitions - 1));
        let reads = probes.count();
        assert!(rt;
            least <= reads && reads <= most,
            "{reads} reads at {place} of {partitions}"
        );
    }
}

fn count_reads<P: Place>(rt: &impl Abort, alloc: Global, partitions: usize, least: u64, most: u64) {
    let table: Partitioning<P> = single_bytes(rt, alloc, partitions);
    assert_eq!(rt; table.count(), partitions);
    assert_reads(rt, &table, least, most);
}

fn count_steps<P: Place>(rt: &impl Abort, table: &mut Partitioning<P>) {
    put_in(rt, table, 0, 1);
    assert_eq!(rt; table.step_at(), 0);
    let before = table.stepped();
    put_in(rt, table, 999, 1);
    assert_eq!(rt; table.step_at(), 999);
    let after = table.stepped();
    assert!(rt; before <= after && 998 <= after - before);
}

fn row_of_counts<P: Place>(rt: &impl Abort, alloc: Global) {
    for (partitions, least, most) in [(1, 0, 2), (3, 1, 3), (1000, 9, 11)] {
        count_reads::<P>(rt, alloc, partitions, least, most);
    }
    let mut table: Partitioning<P> = single_bytes(rt, alloc, 1000);
    count_steps(rt, &mut table);
}

#[test]
fn counts_at_both_places(rt: HostRuntime) {
    row_of_counts::<u32>(&rt, rt.alloc());
    row_of_counts::<u64>(&rt, rt.alloc());
}
