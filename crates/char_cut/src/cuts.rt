//! The cuts around a place.

ghost use Rattle.std.specs.Prelude.{◌≡◌, ◌++◌, ◌+◌, ◌<◌, ◌≤◌, length};
ghost use Rattle.ed_model.specs.Characters.{cut_before, cut_after};
ghost use Rattle.char_cut.specs.Places.{reaches, start_of};

use crate::sequences::character_length;

// Returns whether a character begins `back` bytes before `place` and reaches past it.
fn is_inside(first: &[u8], second: &[u8], place: usize, back: usize) -> bool
    ensures { result ≡ reaches (first.now ++ second.now) place back }
{
    back <= place && back < character_length(first, second, place - back)
}

// Returns where the character begins that the byte at `place` belongs to.
fn character_start(first: &[u8], second: &[u8], place: usize) -> usize
    ensures start { result ≡ start_of (first.now ++ second.now) place }
    ensures within { result ≤ place }
{
    if is_inside(first, second, place, 1) {
        return place - 1;
    }
    if is_inside(first, second, place, 2) {
        return place - 2;
    }
    if is_inside(first, second, place, 3) {
        return place - 3;
    }
    place
}

/// Returns the last cut before `place`, in bytes from 0, or 0 for the start of the text. `first` and `second` are the
/// halves of the text. At most seven of their bytes are read.
#[tactic(auto, using(crate::proofs::Reading::before_in_halves, crate::proofs::Reading::before_start))]
pub fn before(first: &[u8], second: &[u8], place: usize) -> usize
    requires { place ≤ length first.now + length second.now }
    ensures cut { result ≡ cut_before (first.now ++ second.now) place }
    ensures within { result ≤ place }
    ensures back { 0 < place → result < place }
{
    if place == 0 {
        return 0;
    }
    character_start(first, second, place - 1)
}

/// Returns the first cut behind `place`, in bytes from 0, or the length of the text for its end. `first` and `second`
/// are the halves of the text. At most seven of their bytes are read.
#[tactic(auto, using(crate::proofs::Reading::after_in_halves, crate::proofs::Reading::after_end))]
pub fn after(first: &[u8], second: &[u8], place: usize) -> usize
    requires { place ≤ length first.now + length second.now }
    ensures cut { result ≡ cut_after (first.now ++ second.now) place }
    ensures within { result ≤ length first.now + length second.now }
    ensures on { place < length first.now + length second.now → place < result }
{
    if place == first.len() + second.len() {
        return place;
    }
    let start = character_start(first, second, place);
    start + character_length(first, second, start)
}
