//! Sending a message.

ghost use Rattle.std.specs.Prelude.{◌≡◌, ◌≢◌, true, is_some};
ghost use Rattle.ed_types.specs.declared.refusal.Refusal.TheVariants.{OutOfMemory};
ghost use Rattle.ed_model.specs.Printed.{refusal_number};
ghost use Rattle.ed_model.specs.Table.{table};
ghost use Rattle.editor_session.specs.Answers.{message_with};
ghost use Rattle.editor_session.specs.Plans.{is_free};
ghost use Rattle.hongpilas_c.specs.Answers.{refused_with};
ghost use Rattle.hongpilas_c.specs.Calls.{session_of, IsSent};

use crate::answers::{DONE, number_of};
use crate::handle::Handle;

/// Sends a message with its text, and writes the value of its reply to `value`. Returns 0 or the number of the refusal.
#[tactic(auto, using(crate::proofs::Refusing::refused_as_said, crate::proofs::Refusing::memory_alone))]
#[unsafe(no_mangle)]
pub extern "C" fn hongpilas_send_unchecked(
    handle: &mut Handle,
    view: u32,
    number: u32,
    w: i64,
    l: i64,
    text: &[u8],
    value: &mut i64,
) -> u32
    requires { is_some handle.old.held ≡ true }
    ensures done { result ≡ 0 → IsSent view (message_with number w l text.now) value.new handle.old.held handle.new.held }
    ensures refused { result ≢ 0 → result ≡ refused_with (table (session_of handle.old.held) view (message_with number w l text.now)) }
    ensures kept { result ≢ 0 → handle.new.held ≡ handle.old.held }
    ensures value_kept { result ≢ 0 → value.new ≡ value.old }
    ensures free { is_free (session_of handle.old.held) view (message_with number w l text.now) ≡ true → result ≢ refusal_number OutOfMemory }
{
    let held = handle.held();
    match held
        .session
        .send_into(view, number, w, l, text, &mut held.reply)
    {
        Ok(answer) => {
            *value = answer;
            DONE
        }
        Err(refusal) => number_of(refusal),
    }
}
