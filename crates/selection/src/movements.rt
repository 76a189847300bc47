//! How a step moves a position.

ghost use Rattle.std.specs.Prelude.{◌≡◌, ◌+◌, ◌^◌, ◌<◌};
ghost use Rattle.selection.specs.Positions.{moved_by, count_of};

/// The effect of a step on positions.
#[derive(Clone, Copy, Debug, PartialEq, Eq)]
pub enum Movement {
    /// `count` bytes are inserted at `place`.
    Inserted { place: usize, count: usize },
    /// `count` bytes are deleted from `place` on.
    Deleted { place: usize, count: usize },
}

impl Movement {
    /// Returns where the step moves `position`, in bytes from 0. A position at the place of an insertion stays.
    pub fn moved(self, position: usize) -> usize
        requires { position + count_of self < 2 ^ 64 }
        ensures { result ≡ moved_by self position }
    {
        match self {
            Movement::Inserted { place, count } => {
                if position <= place {
                    position
                } else {
                    position + count
                }
            }
            Movement::Deleted { place, count } => {
                if position < place {
                    position
                } else if position - place < count {
                    place
                } else {
                    position - count
                }
            }
        }
    }
}
