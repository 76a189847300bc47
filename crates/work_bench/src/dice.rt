//! Pseudo-random numbers, which are the same for the same seed.

/// A generator of numbers, by the method known as SplitMix64.
#[derive(Drop)]
pub struct Dice {
    state: u64,
}

impl Dice {
    /// Returns the generator for a seed.
    pub fn new(seed: u64) -> Self {
        Dice { state: seed }
    }

    /// Returns the next number.
    pub fn number(&mut self) -> u64 {
        self.state = self.state.wrapping_add(0x9E37_79B9_7F4A_7C15);
        let mixed = (self.state ^ (self.state >> 30)).wrapping_mul(0xBF58_476D_1CE4_E5B9);
        let mixed = (mixed ^ (mixed >> 27)).wrapping_mul(0x94D0_49BB_1331_11EB);
        mixed ^ (mixed >> 31)
    }

    /// Returns the next number, reduced to one below `count`, which is less than 2^32; 0 if `count` is 0.
    pub fn below(&mut self, count: usize) -> usize {
        let wide = (self.number() >> 32).wrapping_mul(count as u64);
        (wide >> 32) as usize
    }

    /// Returns the next number, reduced to one of the `width` numbers from `low` on.
    pub fn within(&mut self, low: usize, width: usize) -> usize {
        self.below(width).wrapping_add(low)
    }

    /// Returns true in `percent` of 100 cases.
    pub fn happens(&mut self, percent: usize) -> bool {
        self.below(100) < percent
    }
}
