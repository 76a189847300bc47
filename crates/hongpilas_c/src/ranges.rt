//! Bytes of a document.

ghost use Rattle.std.specs.Prelude.{◌≡◌, ◌≢◌, true, length, is_some, Ok};
ghost use Rattle.editor_session.specs.Lent.{lent_range};
ghost use Rattle.hongpilas_c.specs.Answers.{answered};
ghost use Rattle.hongpilas_c.specs.Calls.{session_of};

use crate::answers::{DONE, number_of};
use crate::handle::Handle;
use crate::starts::start_of;

/// Lends the `count` bytes of a view's document from `start` on: sets `bytes` to the address of the first. They are
/// valid until the session's next call, except calls that only read the last reply. Returns 0 or the number of the
/// refusal.
#[unsafe(no_mangle)]
pub extern "C" fn hongpilas_lend_range_unchecked(
    handle: &mut Handle,
    view: u32,
    start: usize,
    count: usize,
    bytes: &mut *const u8,
) -> u32
    requires { is_some handle.old.held ≡ true }
    ensures answer { result ≡ answered (lent_range (session_of handle.old.held) view start count) }
    ensures same { handle.new.held ≡ handle.old.held }
    ensures bytes_kept { result ≢ 0 → bytes.new ≡ bytes.old }
{
    let held = handle.held();
    match held.session.lend_range(view, start, count) {
        Ok(lent) => {
            *bytes = start_of(lent);
            DONE
        }
        Err(refusal) => number_of(refusal),
    }
}

/// Copies as many bytes of a view's document as the buffer has, from `start` on. Returns 0 or the number of the
/// refusal.
#[unsafe(no_mangle)]
pub extern "C" fn hongpilas_copy_range_unchecked(
    handle: &mut Handle,
    view: u32,
    start: usize,
    into: &mut [u8],
) -> u32
    requires { is_some handle.old.held ≡ true }
    ensures answer { result ≡ answered (lent_range (session_of handle.old.held) view start (length into.old)) }
    ensures done { result ≡ 0 → lent_range (session_of handle.old.held) view start (length into.old) ≡ Ok into.new }
    ensures same { handle.new.held ≡ handle.old.held }
    ensures into_kept { result ≢ 0 → into.new ≡ into.old }
{
    let held = handle.held();
    match held.session.lend_range(view, start, into.len()) {
        Ok(lent) => {
            into.copy_from_slice(lent);
            DONE
        }
        Err(refusal) => number_of(refusal),
    }
}
