//! Which changes join the last transaction: successive typing, and successive deletions of single characters.

ghost use Rattle.std.specs.Prelude.{◌≡◌};
ghost use Rattle.undo_history.specs.Joining.{IsLatestAfter, steps_go_on, belongs_after};

use crate::records::{ChangeKind, StepKind, StepOutline};

/// Returns whether `step` continues the typing, or the deletion of single characters, of `earlier`.
pub(crate) fn goes_on(step: StepOutline, earlier: StepOutline) -> bool
    ensures { result ≡ steps_go_on step earlier }
{
    match (step.kind, earlier.kind) {
        (StepKind::Insert, StepKind::Insert) => {
            step.place >= earlier.place && step.place - earlier.place == earlier.count
        }
        (StepKind::Delete, StepKind::Delete) => {
            step.count <= 2
                && (step.place == earlier.place
                    || earlier.place >= step.place && earlier.place - step.place == step.count)
        }
        _ => false,
    }
}

/// Returns whether a change with `count` bytes belongs to a transaction by its kind, if `latest` is the latest step of
/// the text there.
pub(crate) fn belongs(kind: ChangeKind, count: usize, latest: Option<StepOutline>) -> bool
    ensures { result ≡ belongs_after kind count latest }
{
    let Some(earlier) = latest else {
        return true;
    };
    match kind {
        ChangeKind::Text { kind, place } => goes_on(StepOutline { kind, place, count }, earlier),
        ChangeKind::Container { token: _, coalesce } => coalesce,
    }
}

/// Returns the latest step of the text in the last transaction once a change with `count` bytes was appended, if `latest`
/// was that step before. The change joins the last transaction, or begins one. No record is read, so an append takes the
/// same time however long the transaction is.
pub(crate) fn latest_after(
    latest: Option<StepOutline>,
    joined: bool,
    kind: ChangeKind,
    count: usize,
) -> Option<StepOutline>
    ensures { IsLatestAfter latest joined kind count result }
{
    match kind {
        ChangeKind::Text { kind, place } => Some(StepOutline { kind, place, count }),
        ChangeKind::Container {
            token: _,
            coalesce: _,
        } => { if joined { latest } else { None } }
    }
}
