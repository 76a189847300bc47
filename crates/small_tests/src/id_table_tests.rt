//! Values inserted under rising ids: `reserve` succeeds where there is memory.

use id_table::IdTable;
use std::process::Abort;

// One function owns the table and lends it to another, which does the rest: owning it over many calls makes a proof
// slow.
fn insert_many(rt: &impl Abort, table: &mut IdTable<u64>) {
    for value in 1..=1024 {
        assert!(rt; table.next() < u32::MAX);
        table.reserve(1).expect(rt, "memory");
        let id = table.insert_reserved(1000 + value);
        assert_eq!(rt; u64::from(id), value);
    }
    assert_eq!(rt; table.len(), 1024);
    assert_eq!(rt; table.get(1024).copied(), Some(2024));
}

#[test]
fn many_values_get_rising_ids(rt: HostRuntime) {
    let mut table = IdTable::new(rt.alloc());
    insert_many(&rt, &mut table);
}
