//! The law that documents are isolated.

ghost use Rattle.run_laws.specs.IsolationLaws.{DocumentsAreApart};

/// Messages to views of other documents do not concern a document: without them its views get the same answers, and the
/// document and its views end in the same state. No message may create, attach, hold or release a document, and none to
/// a view of another document may take bytes to the clipboard.
pub fn documents_are_apart()
    ensures { DocumentsAreApart }
{
    ed_model::soundness_is_kept();
}
