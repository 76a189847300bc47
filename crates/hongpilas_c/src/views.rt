//! Opening and closing views.

ghost use Rattle.std.specs.Prelude.{◌≡◌, ◌≢◌, true, is_some};
ghost use Rattle.ed_model.specs.Table.{opened, closed};
ghost use Rattle.hongpilas_c.specs.Answers.{answered, refused_with};
ghost use Rattle.hongpilas_c.specs.Calls.{session_of, IsViewOpened, IsViewClosed};

use crate::answers::{DONE, number_of};
use crate::handle::Handle;

/// Opens a view on a new document, and writes its id to `view`. Returns 0 or the number of the refusal.
#[unsafe(no_mangle)]
pub extern "C" fn hongpilas_new_view_unchecked(handle: &mut Handle, view: &mut u32) -> u32
    requires { is_some handle.old.held ≡ true }
    ensures done { result ≡ 0 → IsViewOpened view.new handle.old.held handle.new.held }
    ensures refused { result ≢ 0 → result ≡ refused_with (opened (session_of handle.old.held)) }
    ensures kept { result ≢ 0 → handle.new.held ≡ handle.old.held }
    ensures view_kept { result ≢ 0 → view.new ≡ view.old }
{
    let held = handle.held();
    match held.session.new_view() {
        Ok(opened) => {
            *view = opened;
            DONE
        }
        Err(refusal) => number_of(refusal),
    }
}

/// Closes a view. Returns 0 or the number of the refusal.
#[unsafe(no_mangle)]
pub extern "C" fn hongpilas_close_view_unchecked(handle: &mut Handle, view: u32) -> u32
    requires { is_some handle.old.held ≡ true }
    ensures answer { result ≡ answered (closed (session_of handle.old.held) view) }
    ensures done { result ≡ 0 → IsViewClosed view handle.old.held handle.new.held }
    ensures kept { result ≢ 0 → handle.new.held ≡ handle.old.held }
{
    let held = handle.held();
    match held.session.close_view(view) {
        Ok(()) => DONE,
        Err(refusal) => number_of(refusal),
    }
}
