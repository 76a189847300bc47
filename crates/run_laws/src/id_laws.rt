//! Laws of ids.

ghost use Rattle.run_laws.specs.HandleRunLaws.{HandlesNeverComeBack};
ghost use Rattle.run_laws.specs.IdLaws.{DocumentIdsNeverComeBack, NextIdsNeverFall, OpenedIdsRise, ViewIdsNeverComeBack};

/// The id of a document that was dropped never names a document again, and the id of a view that was closed never names
/// a view again, whatever commands follow.
pub fn ids_never_come_back()
    ensures documents { DocumentIdsNeverComeBack }
    ensures views { ViewIdsNeverComeBack }
    ensures next { NextIdsNeverFall }
{
    ed_model::plans_are_fit();
    ed_model::soundness_is_kept();
}

/// The views that a run opens have rising ids, so no two have the same.
pub fn opened_views_have_rising_ids()
    ensures { OpenedIdsRise }
{}

/// If no marker of a document has a handle any more, none ever has it again.
pub fn handles_never_come_back()
    ensures { HandlesNeverComeBack }
{
    ed_model::plans_are_fit();
    ed_model::soundness_is_kept();
    ed_model::no_handle_is_given_anew();
}
