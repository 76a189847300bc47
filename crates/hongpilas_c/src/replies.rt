//! The reply to the last message.

ghost use Rattle.std.specs.Prelude.{◌≡◌, true, length, is_some};
ghost use Rattle.hongpilas_c.specs.Calls.{reply_of};
ghost use Rattle.hongpilas_c.specs.Copies.{count_copied, copied};

use crate::copies::copy_from;
use crate::handle::Handle;
use crate::starts::tell_start;

/// Returns the value of the last reply.
#[unsafe(no_mangle)]
pub extern "C" fn hongpilas_value_unchecked(handle: &mut Handle) -> i64
    requires { is_some handle.old.held ≡ true }
    ensures value { result ≡ (reply_of handle.old.held).value }
    ensures same { handle.new.held ≡ handle.old.held }
{
    let held = handle.held();
    held.reply.value()
}

/// Lends the text of the last reply: sets `text` to the address of its first byte, and returns its length in bytes.
#[unsafe(no_mangle)]
pub extern "C" fn hongpilas_text_unchecked(handle: &mut Handle, text: &mut *const u8) -> usize
    requires { is_some handle.old.held ≡ true }
    ensures length { result ≡ length (reply_of handle.old.held).text }
    ensures same { handle.new.held ≡ handle.old.held }
{
    let held = handle.held();
    tell_start(held.reply.text(), text)
}

/// Copies the text of the last reply from `start` on, as many bytes as there are and as fit, and returns how many that
/// is.
#[unsafe(no_mangle)]
pub extern "C" fn hongpilas_copy_text_unchecked(
    handle: &mut Handle,
    start: usize,
    into: &mut [u8],
) -> usize
    requires { is_some handle.old.held ≡ true }
    ensures count { result ≡ count_copied (reply_of handle.old.held).text start into.old }
    ensures copied { into.new ≡ copied (reply_of handle.old.held).text start into.old }
    ensures same { handle.new.held ≡ handle.old.held }
{
    let held = handle.held();
    copy_from(held.reply.text(), start, into)
}

/// Returns how many notes the last reply has.
#[unsafe(no_mangle)]
pub extern "C" fn hongpilas_note_count_unchecked(handle: &mut Handle) -> usize
    requires { is_some handle.old.held ≡ true }
    ensures count { result ≡ length (reply_of handle.old.held).notes }
    ensures same { handle.new.held ≡ handle.old.held }
{
    let held = handle.held();
    held.reply.note_count()
}
