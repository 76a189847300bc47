//! A digest of all replies of a session: a number that differs if any reply differs.

use ed_types::Note;

/// The digest so far.
#[derive(Drop)]
pub struct Digest {
    state: u64,
}

/// An odd number without a pattern in its bits.
const FACTOR: u64 = 0x9E37_79B9_7F4A_7C15;

/// Returns the bits of a number with a sign.
fn stored(number: i64) -> u64 {
    u64::from_le_bytes(number.to_le_bytes())
}

/// Returns the digest of `others` and then a number.
fn joined(others: u64, number: i64) -> u64 {
    others.wrapping_mul(31).wrapping_add(stored(number))
}

impl Digest {
    /// Returns the digest of no replies.
    pub fn new() -> Self {
        Digest { state: FACTOR }
    }

    /// Returns the digest of all replies so far.
    pub fn value(&self) -> u64 {
        self.state
    }

    /// Adds a number.
    pub fn natural(&mut self, number: u64) {
        self.state = (self.state ^ number).wrapping_mul(FACTOR).rotate_left(29);
    }

    /// Adds a number with a sign.
    pub fn integer(&mut self, number: i64) {
        self.natural(stored(number));
    }

    // Adds bytes, four words at a time, each to a number of its own, so that none waits for the one before.
    fn four_words(&mut self, bytes: &[[u8; 32]]) {
        let mut lanes = [self.state, 1, 2, 3];
        for four in bytes {
            let (words, _) = four.as_chunks::<8>();
            for (lane, word) in lanes.iter_mut().zip(words) {
                *lane = (*lane ^ u64::from_le_bytes(*word))
                    .wrapping_mul(FACTOR)
                    .rotate_left(29);
            }
        }
        for lane in lanes {
            self.natural(lane);
        }
    }

    /// Adds bytes and their number.
    pub fn bytes(&mut self, bytes: &[u8]) {
        self.natural(bytes.len() as u64);
        let (fours, bytes) = bytes.as_chunks::<32>();
        if !fours.is_empty() {
            self.four_words(fours);
        }
        let (words, rest) = bytes.as_chunks::<8>();
        for word in words {
            self.natural(u64::from_le_bytes(*word));
        }
        let mut last = 0u64;
        for byte in rest {
            last = (last << 8) | u64::from(*byte);
        }
        self.natural(last);
    }

    /// Adds a note and its text.
    pub fn note(&mut self, note: &Note, text: &[u8]) {
        let whom = (u64::from(note.view) << 32) | u64::from(note.code);
        let what = (u64::from(note.kind) << 32) | u64::from(note.message);
        let place = joined(joined(stored(note.position), note.length), note.lines);
        let level = joined(joined(stored(note.line), note.now), note.prev);
        let recorded = joined(joined(stored(note.token), note.w), note.l);
        self.natural(whom ^ what.wrapping_mul(FACTOR));
        self.natural(place.wrapping_mul(FACTOR) ^ level.wrapping_mul(37) ^ recorded);
        self.bytes(text);
    }
}
