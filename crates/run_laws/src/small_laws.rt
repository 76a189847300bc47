//! Laws of refusals, of references and of styles.

ghost use Rattle.run_laws.specs.HeldLaws.{DocumentsWithoutViewsAreHeld};
ghost use Rattle.run_laws.specs.StyleLaws.{DocumentsWithoutStylesHaveNone};
ghost use Rattle.run_laws.specs.RefusalLaws.{ClosingNeverWantsMemory, MessagesNeverWantMemory, OpeningNeverWantsMemory};

/// The table never refuses with OutOfMemory: neither a message, nor opening or closing a view.
pub fn the_table_never_wants_memory()
    ensures messages { MessagesNeverWantMemory }
    ensures opening { OpeningNeverWantsMemory }
    ensures closing { ClosingNeverWantsMemory }
{}

/// In every state that a run reaches, a session without views has only documents that callers hold.
pub fn documents_without_views_are_held()
    ensures { DocumentsWithoutViewsAreHeld }
{
    ed_model::session_is_sound();
}

/// In every state that a run reaches, every cell of a document that keeps no styles has style 0.
pub fn documents_without_styles_have_none()
    ensures { DocumentsWithoutStylesHaveNone }
{
    ed_model::plans_are_fit();
    ed_model::soundness_is_kept();
    ed_model::session_is_sound();
}
