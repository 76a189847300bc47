//! The bits of a word of marks, each of which stands for one of 64 places: the lowest and the highest that is set, and
//! the word without one of them.
#![tactic(auto)]

ghost use Rattle.std.specs.Prelude.{◌≡◌, ◌≢◌, ◌<◌};
ghost use Rattle.std.specs.Int.{bit_at};
ghost use Rattle.bit_marks.specs.Bits.{NoneAbove, NoneBelow, SameBitsBut};

/// Returns the lowest bit that is set.
#[inline(always)]
pub fn lowest(marks: u64) -> usize
    requires { marks ≢ 0 }
    ensures within { result < 64 }
    ensures set { bit_at marks result ≡ 1 }
    ensures below { NoneBelow marks result }
{
    marks.trailing_zeros() as usize
}

/// Returns the highest bit that is set.
#[inline(always)]
pub fn highest(marks: u64) -> usize
    requires { marks ≢ 0 }
    ensures within { result < 64 }
    ensures set { bit_at marks result ≡ 1 }
    ensures above { NoneAbove marks result }
{
    marks.ilog2() as usize
}

/// Returns the marks without one of their bits.
#[inline(always)]
pub fn without(marks: u64, bit: usize) -> u64
    requires within { bit < 64 }
    requires set { bit_at marks bit ≡ 1 }
    ensures smaller { result < marks }
    ensures gone { bit_at result bit ≡ 0 }
    ensures kept { SameBitsBut bit marks result }
{
    marks & !(1 << bit)
}
