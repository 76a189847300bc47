//! Results as numbers.

ghost use Rattle.std.specs.Prelude.{◌≡◌};
ghost use Rattle.ed_model.specs.Printed.{refusal_number};

use ed_types::Refusal;

/// The result of a call that was done: HONGPILAS_DONE.
pub(crate) const DONE: u32 = 0;

/// Returns the number of a refusal, which its call returns.
pub(crate) fn number_of(refusal: Refusal) -> u32
    ensures { result ≡ refusal_number refusal }
{
    refusal as u32
}
