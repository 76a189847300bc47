//! The lengths of the transactions on either side of a place.

ghost use Rattle.std.specs.Prelude.{◌≡◌, ◌≤◌, ◌<◌, ◌+◌, ℕ, List, length, reverse, take, drop};
ghost use Rattle.undo_history.specs.Records.{entries_in, last_count, next_count, begins_or_none};

use crate::records::StepRecord;

/// Returns how many steps the last transaction of the first `past` steps has: 0 if there is none.
#[inline]
pub(crate) fn count_before(steps: &[StepRecord], past: usize) -> usize
    requires { past ≤ length steps.now }
    ensures { (bytes : List ℕ) → result ≡ last_count (reverse (take past (entries_in steps.now bytes))) }
{
    for i in (0..past).rev() {
        if steps[i].starts {
            return past - i;
        }
    }
    past
}

/// Returns how many steps the first transaction behind the first `past` steps has: 0 if there is none.
#[inline]
pub(crate) fn count_behind(steps: &[StepRecord], past: usize) -> usize
    requires { past ≤ length steps.now }
    ensures { (bytes : List ℕ) → result ≡ next_count (drop past (entries_in steps.now bytes)) }
{
    if past == steps.len() {
        return 0;
    }
    for i in past + 1..steps.len() {
        if steps[i].starts {
            return i - past;
        }
    }
    steps.len() - past
}

/// Returns whether the step at `place` is the last of its transaction.
pub(crate) fn is_last_of_next(steps: &[StepRecord], place: usize) -> bool
    requires { place < length steps.now }
    ensures { (bytes : List ℕ) → result ≡ begins_or_none (drop (place + 1) (entries_in steps.now bytes)) }
{
    let next = place + 1;
    if next == steps.len() {
        return true;
    }
    steps[next].starts
}
