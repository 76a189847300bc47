//! Opening and freeing a session.

ghost use Rattle.std.specs.Prelude.{◌≡◌, ◌≢◌, true, is_some, Some};
ghost use Rattle.ed_types.specs.declared.refusal.Refusal.TheVariants.{OutOfMemory};
ghost use Rattle.ed_model.specs.Session.{new_session, greatest_limits};
ghost use Rattle.ed_model.specs.Table.{limited};
ghost use Rattle.ed_model.specs.Printed.{refusal_number};
ghost use Rattle.hongpilas_c.specs.Answers.{refused_with};
ghost use Rattle.hongpilas_c.specs.Opened.{fresh, limits_of, IsFresh};

use crate::answers::{DONE, number_of};
use crate::handle::Handle;
use crate::held::Held;
use ed_types::{Bytes, Limits, Refusal, Reply};
use editor_session::Session;
use std::alloc::Global;

/// The limits of a session, as C passes them. Each is at least 1, and at most the number that its comment states.
#[repr(C)]
#[derive(Drop)]
pub struct LimitsInC {
    /// The greatest length of a document in bytes: at most 0x7FFFFFFF.
    pub doc_bytes: u64,
    /// The greatest length in bytes of a document for large texts: at most 0x10000000000.
    pub large_bytes: u64,
    /// The number of marker handles that one document ever gives out: at most 0x7FFFFFFF.
    pub handles: u64,
    /// The number of document ids ever given out, and that of view ids: at most 0x7FFFFFFF.
    pub ids: u64,
    /// The number of references to one document: at most 0x7FFFFFFF.
    pub refs: u64,
    /// The number of open views: at most 1024.
    pub views: u64,
    /// The depth of undo groups: at most 255.
    pub depth: u64,
}

/// Stores the session, with an empty reply, behind the handle. Returns 0 or the number of the refusal.
fn hold(alloc: Global, session: Session, handle: &mut Handle) -> u32
    ensures done { result ≡ 0 → handle.new.held ≡ Some (fresh session) }
    ensures refused { result ≢ 0 → result ≡ refusal_number OutOfMemory }
    ensures kept { result ≢ 0 → handle.new.held ≡ handle.old.held }
{
    let reply = Reply::quiet(alloc, 0, Bytes::empty(alloc));
    let asked = Reply::quiet(alloc, 0, Bytes::empty(alloc));
    let held = Held {
        session,
        reply,
        asked,
    };
    match Handle::new(alloc, held) {
        Ok(opened) => {
            *handle = opened;
            DONE
        }
        Err(_) => number_of(Refusal::OutOfMemory),
    }
}

/// Opens a session with the greatest limits. Returns 0, or `OutOfMemory` as a number if an allocation fails.
#[unsafe(no_mangle)]
pub extern "C" fn hongpilas_new_unchecked(alloc: Global, handle: &mut Handle) -> u32
    ensures done { result ≡ 0 → handle.new.held ≡ Some (fresh (new_session greatest_limits)) }
    ensures refused { result ≢ 0 → result ≡ refusal_number OutOfMemory }
    ensures kept { result ≢ 0 → handle.new.held ≡ handle.old.held }
{
    hold(alloc, Session::new(alloc), handle)
}

/// Opens a session with lower limits. Returns 0, or the number of `BadArgument` if a limit is out of its range, or of
/// `OutOfMemory` if an allocation fails.
#[unsafe(no_mangle)]
pub extern "C" fn hongpilas_new_with_limits_unchecked(
    alloc: Global,
    handle: &mut Handle,
    limits: &LimitsInC,
) -> u32
    ensures done { result ≡ 0 → IsFresh (limited (limits_of limits.now)) handle.new.held }
    ensures refused { result ≢ 0 → result ≡ refused_with (limited (limits_of limits.now)) }
    ensures kept { result ≢ 0 → handle.new.held ≡ handle.old.held }
{
    let limits = Limits {
        doc_bytes: limits.doc_bytes,
        large_bytes: limits.large_bytes,
        handles: limits.handles,
        ids: limits.ids,
        refs: limits.refs,
        views: limits.views,
        depth: limits.depth,
    };
    match Session::with_limits(alloc, limits) {
        Ok(session) => hold(alloc, session, handle),
        Err(refusal) => number_of(refusal),
    }
}

/// Frees a session with all that it owns.
#[unsafe(no_mangle)]
pub extern "C" fn hongpilas_free_unchecked(handle: Handle)
    requires { is_some handle.held ≡ true }
{
    drop(handle.into_box());
}
