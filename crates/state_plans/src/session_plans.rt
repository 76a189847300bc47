//! Plans of the messages on documents, masks and recording.

ghost use Rattle.std.specs.Prelude.{◌≡◌, IfOk, IfErr};
ghost use Rattle.ed_model.specs.declared.plan.ViewChange.TheVariants.{SetRecording};
ghost use Rattle.ed_model.specs.Requests.{answer, change_view, with_argument};
ghost use Rattle.ed_model.specs.SessionPlans.{add_ref_document, create_document, document_options, get_doc_pointer, get_document_options, get_line_end_types, get_mod_event_mask, has_document_ids, release_document, set_doc_pointer, set_line_end_types_allowed, set_mod_event_mask, types_number};
ghost use Rattle.message_requests.specs.Changing.{changed};
ghost use Rattle.state_plans.specs.Referring.{IsReferredTo, IsRefusedReference};

use ed_model::{DocumentChange, LineEndTypes, Plan, Planned, SessionChange, ViewChange};
use ed_types::{Refusal, document_option, modification};
use message_requests::Request;
use message_requests::answers::{
    ChangePlan, answer, change_document, change_nothing, change_session,
};
use message_requests::arguments::within;

// All options that a document may have.
const OPTIONS: u32 = document_option::STYLES_NONE | document_option::TEXT_LARGE;

/// GETDOCPOINTER: returns the id of the view's document.
pub fn get_doc_pointer(r: &Request) -> i64
    ensures { answer result ≡ get_doc_pointer r.now }
{
    i64::from(r.view.document())
}

/// Returns whether one more document can be made.
fn has_document_ids(r: &Request) -> bool
    ensures { result ≡ has_document_ids r.now.session }
{
    u64::from(r.session.documents.next()) <= r.session.limits.ids
}

/// Returns the id of the document that `l` names, which is about to get one more reference.
///
/// # Errors
///
/// `NoSuchDocument` if there is none, and `TooMany` if it has the greatest number of references.
fn to_be_referred_to(r: &Request) -> Result<u32, Refusal>
    ensures id { IfOk result (IsReferredTo r.now) }
    ensures refused { IfErr result (IsRefusedReference r.now) }
{
    let Some(document) = r.document_named(r.message.l) else {
        return Err(Refusal::NoSuchDocument);
    };
    let references = document.views().len() as u64 + u64::from(document.held_by_callers());
    if references < r.session.limits.refs {
        Ok(document.id())
    } else {
        Err(Refusal::TooMany)
    }
}

/// SETDOCPOINTER: attaches the view to the document with id `l`, or to a new one if `l` is 0.
pub fn set_doc_pointer(r: &Request) -> Planned
    ensures { result ≡ set_doc_pointer r.now }
{
    if r.message.l != 0 {
        let document = to_be_referred_to(r)?;
        return change_session(SessionChange::Attach { document });
    }
    if has_document_ids(r) {
        change_session(SessionChange::AttachNew)
    } else {
        Err(Refusal::TooMany)
    }
}

/// Returns the argument as options of a document: to store no styles (0x1), and to be for large texts (0x100). Returns
/// `None` if it has other bits.
fn document_options(argument: i64) -> Option<u32>
    ensures { result ≡ document_options argument }
{
    let options = within(0, OPTIONS as usize, argument)? as u32;
    if options == 0
        || options == document_option::STYLES_NONE
        || options == document_option::TEXT_LARGE
        || options == OPTIONS
    {
        Some(options)
    } else {
        None
    }
}

/// CREATEDOCUMENT: makes a document with options `l`, to which the caller holds a reference. `w` is ignored, but must
/// not be negative. The value is the id of the document.
pub fn create_document(r: &Request) -> Planned
    ensures { result ≡ create_document r.now }
{
    if r.message.w < 0 {
        return Err(Refusal::BadArgument);
    }
    let Some(options) = document_options(r.message.l) else {
        return Err(Refusal::BadArgument);
    };
    if !has_document_ids(r) {
        return Err(Refusal::TooMany);
    }
    Ok(Plan::ChangeSession {
        change: SessionChange::Create { options },
        value: i64::from(r.session.documents.next()),
    })
}

/// ADDREFDOCUMENT: gives the caller one more reference to the document with id `l`.
pub fn add_ref_document(r: &Request) -> Planned
    ensures { result ≡ add_ref_document r.now }
{
    let document = to_be_referred_to(r)?;
    change_session(SessionChange::AddReference { document })
}

/// RELEASEDOCUMENT: takes a reference of the caller to the document with id `l` back.
pub fn release_document(r: &Request) -> Planned
    ensures { result ≡ release_document r.now }
{
    let Some(document) = r.document_named(r.message.l) else {
        return Err(Refusal::NoSuchDocument);
    };
    if document.held_by_callers() > 0 {
        change_session(SessionChange::Release {
            document: document.id(),
        })
    } else {
        Err(Refusal::NoSuchDocument)
    }
}

/// GETDOCUMENTOPTIONS: returns the options with which the document was made.
pub fn get_document_options(r: &Request) -> i64
    ensures { answer result ≡ get_document_options r.now }
{
    i64::from(r.document.options())
}

/// Returns the number for which line ends count.
fn types_number(types: LineEndTypes) -> usize
    ensures { result ≡ types_number types }
{
    match types {
        LineEndTypes::Default => 0,
        LineEndTypes::Unicode => 1,
    }
}

/// SETLINEENDTYPESALLOWED: sets which line ends count in the document.
pub fn set_line_end_types_allowed(r: &Request) -> Result<ChangePlan, Refusal>
    ensures { changed result ≡ set_line_end_types_allowed r.now }
{
    let Some(types) = within(0, 1, r.message.w) else {
        return Err(Refusal::BadArgument);
    };
    if types == types_number(r.document.line_end_types()) {
        return change_nothing(0);
    }
    let to = if types == 0 {
        LineEndTypes::Default
    } else {
        LineEndTypes::Unicode
    };
    change_document(DocumentChange::SetLineEndTypes { to })
}

/// GETLINEENDTYPESALLOWED and GETLINEENDTYPESACTIVE: returns which line ends count in the document.
pub fn get_line_end_types(r: &Request) -> i64
    ensures { answer result ≡ get_line_end_types r.now }
{
    types_number(r.document.line_end_types()) as i64
}

/// SETMODEVENTMASK: sets which kinds of change the view hears.
pub fn set_mod_event_mask(r: &Request) -> Option<ViewChange>
    ensures { with_argument result change_view ≡ set_mod_event_mask r.now }
{
    match within(0, modification::ALL as usize, r.message.w) {
        Some(mask) => Some(ViewChange::SetMask { mask: mask as u32 }),
        None => None,
    }
}

/// GETMODEVENTMASK: returns which kinds of change the view hears.
pub fn get_mod_event_mask(r: &Request) -> i64
    ensures { answer result ≡ get_mod_event_mask r.now }
{
    i64::from(r.view.mask())
}

/// STARTRECORD and STOPRECORD: sets whether the view records the messages that it is sent.
pub fn set_recording(on: bool) -> ViewChange
    ensures { result ≡ SetRecording on }
{
    ViewChange::SetRecording { on }
}
