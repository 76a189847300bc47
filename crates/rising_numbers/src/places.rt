//! The types in which places of a text are stored.
ghost use Rattle.std.specs.Prelude.{◌≡◌, ◌+◌, ◌-◌, ◌^◌, ◌≤◌, ◌<◌, ◌↔◌, ℕ, IsTrue};
ghost use Rattle.std.proofs.Common.{lit<};

/// A place in a text, as a number. Its order, sum and difference are those of the numbers up to `GREATEST`.
pub trait Place: Copy + Drop {
    /// The number that a place stands for.
    ghost number: { Self → ℕ };

    ghost GREATEST: { ℕ };

    /// The greatest number that a place can stand for.
    const GREATEST: usize;

    /// Returns the place 0.
    fn zero() -> Self
        ensures { number result ≡ 0 };

    /// Returns the place that stands for the number.
    fn from_usize(place: usize) -> Self
        requires { place ≤ GREATEST }
        ensures { number result ≡ place };

    /// Returns the number that this place stands for.
    fn to_usize(self) -> usize
        ensures { result ≡ number self };

    /// Returns whether this place is `other` or before it.
    fn is_at_most(self, other: Self) -> bool
        ensures { IsTrue result ↔ (number self ≤ number other) };

    /// Returns the sum, which must be at most `GREATEST`.
    fn plus(self, other: Self) -> Self
        requires { number self + number other ≤ GREATEST }
        ensures { number result ≡ number self + number other };

    /// Returns how far this place lies behind `other`, which must not lie behind it.
    fn minus(self, other: Self) -> Self
        requires { number other ≤ number self }
        ensures { number result ≡ number self - number other };

    /// Two places that stand for the same number are equal.
    ghost exact: { (a b : Self) → number a ≡ number b → a ≡ b };

    /// Every place fits into a `usize`.
    ghost fits: { GREATEST < 2 ^ 64 };
}

impl Place for u32 {
    ghost number = { λ n. n };

    ghost GREATEST = { 2 ^ 32 - 1 };

    const GREATEST: usize = u32::MAX as usize;

    #[inline]
    fn zero() -> u32 {
        0
    }

    #[inline]
    fn from_usize(place: usize) -> u32 {
        place as u32
    }

    #[inline]
    fn to_usize(self) -> usize {
        self as usize
    }

    #[inline]
    fn is_at_most(self, other: u32) -> bool {
        self <= other
    }

    #[inline]
    fn plus(self, other: u32) -> u32 {
        self + other
    }

    #[inline]
    fn minus(self, other: u32) -> u32 {
        self - other
    }

    ghost exact = { λ a b same. same };

    ghost fits = { lit< tt };
}

impl Place for u64 {
    ghost number = { λ n. n };

    ghost GREATEST = { 2 ^ 64 - 1 };

    const GREATEST: usize = usize::MAX;

    #[inline]
    fn zero() -> u64 {
        0
    }

    #[inline]
    fn from_usize(place: usize) -> u64 {
        place as u64
    }

    #[inline]
    fn to_usize(self) -> usize {
        self as usize
    }

    #[inline]
    fn is_at_most(self, other: u64) -> bool {
        self <= other
    }

    #[inline]
    fn plus(self, other: u64) -> u64 {
        self + other
    }

    #[inline]
    fn minus(self, other: u64) -> u64 {
        self - other
    }

    ghost exact = { λ a b same. same };

    ghost fits = { lit< tt };
}
