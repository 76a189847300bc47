//! Messages at the limits of a session, with their replies.

use crate::exchanges::{Exchange, closed, first_unmet_within, not_opened, opened, refused, sent};
use ed_types::{Kind, Limits, Refusal};
use editor_session::Session;
use std::alloc::Global;
use std::process::Abort;

/// Asserts that all exchanges go as expected in a new session with these limits.
fn assert_met(rt: &impl Abort, alloc: Global, limits: Limits, rows: &[Exchange]) {
    assert_eq!(rt; first_unmet_within(alloc, limits, rows), None);
}

#[test]
fn handles_are_used_up(rt: HostRuntime) {
    let limits = Limits {
        handles: 2,
        ..Limits::GREATEST
    };
    let rows = [
        opened(1),
        sent(Kind::MarkerAdd, 0, 0, 1),
        sent(Kind::MarkerAdd, 0, 0, 2),
        refused(Kind::MarkerAdd, 0, 0, Refusal::TooMany),
        // Each document has handles of its own.
        sent(Kind::SetDocPointer, 0, 0, 0),
        refused(Kind::MarkerAddSet, 0, 7, Refusal::TooMany),
        sent(Kind::MarkerAddSet, 0, 3, 0),
        refused(Kind::MarkerAdd, 0, 0, Refusal::TooMany),
        // Deleting a marker does not free its handle.
        sent(Kind::MarkerDeleteAll, -1, 0, 0),
        refused(Kind::MarkerAdd, 0, 0, Refusal::TooMany),
    ];
    assert_met(&rt, rt.alloc(), limits, rows.as_slice());
}

#[test]
fn a_large_document_has_its_own_limit(rt: HostRuntime) {
    let limits = Limits {
        doc_bytes: 4,
        large_bytes: 6,
        ..Limits::GREATEST
    };
    let rows = [
        opened(1),
        refused(Kind::SetText, 0, 0, Refusal::TooLong).with(b"abcde"),
        sent(Kind::SetText, 0, 0, 0).with(b"abcd"),
        refused(Kind::AppendText, 1, 0, Refusal::TooLong).with(b"e"),
        refused(Kind::CreateDocument, 0, 2, Refusal::BadArgument),
        sent(Kind::CreateDocument, 0, 256, 2),
        sent(Kind::SetDocPointer, 0, 2, 0),
        sent(Kind::GetDocumentOptions, 0, 0, 256),
        sent(Kind::SetText, 0, 0, 0).with(b"abcdef"),
        refused(Kind::AppendText, 1, 0, Refusal::TooLong).with(b"g"),
        sent(Kind::GetText, 0, 0, 6).handing_out(b"abcdef"),
    ];
    assert_met(&rt, rt.alloc(), limits, rows.as_slice());
}

#[test]
fn a_conversion_is_too_long_after_some_step(rt: HostRuntime) {
    let limits = Limits {
        doc_bytes: 4,
        ..Limits::GREATEST
    };
    let rows = [
        opened(1),
        sent(Kind::SetText, 0, 0, 0).with(b"ab\n\n"),
        refused(Kind::ConvertEols, 0, 0, Refusal::TooLong),
        // It is too long although the LFs deleted afterwards would make room again.
        refused(Kind::ConvertEols, 1, 0, Refusal::TooLong),
        sent(Kind::ConvertEols, 2, 0, 0),
        sent(Kind::GetText, 0, 0, 4).handing_out(b"ab\n\n"),
    ];
    assert_met(&rt, rt.alloc(), limits, rows.as_slice());
}

#[test]
fn references_are_limited(rt: HostRuntime) {
    let limits = Limits {
        refs: 2,
        ..Limits::GREATEST
    };
    let rows = [
        opened(1),
        opened(2),
        sent(Kind::AddRefDocument, 0, 1, 0),
        refused(Kind::AddRefDocument, 0, 1, Refusal::TooMany),
        refused(Kind::SetDocPointer, 0, 1, Refusal::TooMany).of_view(2),
        // Also for the view's own document, although that would lose one reference.
        refused(Kind::SetDocPointer, 0, 1, Refusal::TooMany),
        sent(Kind::ReleaseDocument, 0, 1, 0),
        sent(Kind::SetDocPointer, 0, 1, 0).of_view(2),
    ];
    assert_met(&rt, rt.alloc(), limits, rows.as_slice());
}

#[test]
fn groups_are_as_deep_as_the_limit(rt: HostRuntime) {
    let limits = Limits {
        depth: 1,
        ..Limits::GREATEST
    };
    let rows = [
        opened(1),
        sent(Kind::BeginUndoAction, 0, 0, 0),
        refused(Kind::BeginUndoAction, 0, 0, Refusal::TooMany),
        sent(Kind::EndUndoAction, 0, 0, 0),
        sent(Kind::BeginUndoAction, 0, 0, 0),
    ];
    assert_met(&rt, rt.alloc(), limits, rows.as_slice());
}

#[test]
fn ids_are_limited(rt: HostRuntime) {
    let limits = Limits {
        ids: 2,
        ..Limits::GREATEST
    };
    let rows = [
        opened(1),
        sent(Kind::CreateDocument, 0, 0, 2),
        refused(Kind::CreateDocument, 0, 0, Refusal::TooMany),
        refused(Kind::SetDocPointer, 0, 0, Refusal::TooMany),
        not_opened(Refusal::TooMany),
        closed(),
        // No id is given twice.
        not_opened(Refusal::TooMany),
    ];
    assert_met(&rt, rt.alloc(), limits, rows.as_slice());
}

/// Returns why a session may not have these limits, or `None`.
fn refusal_of(alloc: Global, limits: Limits) -> Option<Refusal> {
    Session::with_limits(alloc, limits).err()
}

#[test]
fn limits_are_above_0(rt: HostRuntime) {
    assert_eq!(rt; refusal_of(rt.alloc(), Limits::GREATEST), None);
    let limits = Limits {
        views: 0,
        ..Limits::GREATEST
    };
    assert_eq!(rt; refusal_of(rt.alloc(), limits), Some(Refusal::BadArgument));
}
