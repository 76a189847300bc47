//! The buffer of a reply's text: a small one is kept for the next text, a large one is freed.

use ed_types::{Bytes, Reply};
use std::alloc::Global;
use std::process::Abort;

// Returns the capacity that a reply keeps of a text's buffer with this capacity, once it has no text.
fn kept_of(rt: &impl Abort, alloc: Global, capacity: usize) -> usize {
    let mut text = Vec::with_capacity(alloc, capacity).expect(rt, "memory");
    text.push(b'x').expect(rt, "memory");
    let mut reply = Reply::quiet(alloc, 1, Bytes::new(text));
    reply.answer(2);
    assert_eq!(rt; reply.value(), 2);
    assert!(rt; reply.text().is_empty());
    let kept = reply.replace_text(Bytes::empty(alloc)).into_vec();
    assert!(rt; kept.is_empty());
    kept.capacity()
}

#[test]
fn a_small_buffer_is_kept(rt: HostRuntime) {
    assert!(rt; kept_of(&rt, rt.alloc(), 4096) >= 4096);
    assert_eq!(rt; kept_of(&rt, rt.alloc(), 4097), 0);
}
