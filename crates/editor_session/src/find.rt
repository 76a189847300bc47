//! From a message to its view, its kind and its document.

ghost use Rattle.std.specs.Prelude.{◌≡◌, ◌≢◌, Err, IfOk, IfErr};
ghost use Rattle.ed_types.specs.declared.refusal.Refusal.TheVariants.{OutOfMemory};
ghost use Rattle.ed_types.specs.Messages.{kind_of};
ghost use Rattle.ed_model.specs.Table.{table};
ghost use Rattle.editor_session.specs.Performing.{request_of};
ghost use Rattle.editor_session.specs.Planned.{IsFound};

use crate::attached::{look_up, request_to};
use crate::session::Session;
use ed_types::{Kind, Refusal};
use message_requests::{Request, SentMessage};

/// Looks up the view of a message and its document. `kind` is what the profile has under the message's number. Inlined: as a call, a message
/// takes some 50 instructions more.
///
/// # Errors
///
/// `NoSuchView`, otherwise `UnknownMessage`.
#[inline(always)]
pub(crate) fn find<'a, 'm: 'a>(
    session: &'a Session,
    view: u32,
    kind: Option<Kind>,
    message: &SentMessage<'m>,
) -> Result<(Kind, Request<'a>), Refusal>
    requires kind { kind ≡ kind_of message.now.number }
    ensures found { IfOk result (λ found. IsFound session.now view message.now found.0) }
    ensures request { IfOk result (λ found. found.1 ≡ request_of session.now view message.now) }
    ensures refused { IfErr result (λ refusal. table session.now view message.now ≡ Err refusal) }
    ensures memory { IfErr result (λ refusal. refusal ≢ OutOfMemory) }
{
    let Some(found) = look_up(&session.state, view) else {
        return Err(Refusal::NoSuchView);
    };
    let Some(kind) = kind else {
        return Err(Refusal::UnknownMessage);
    };
    Ok((kind, request_to(&session.state, found, message)))
}
