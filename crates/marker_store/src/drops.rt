//! Which markers a call removes.
ghost use Rattle.std.specs.Prelude.{◌≡◌};
ghost use Rattle.marker_store.specs.Dropping.{is_dropped, of_number};

use crate::markers::Marker;

/// No markers, all markers, those with a number, or the one with a handle.
#[derive(Clone, Copy, Drop)]
pub enum Drops {
    Nothing,
    Each,
    Number(u32),
    Handle(u32),
}

impl Drops {
    /// Returns those with the number, or all of them.
    pub(crate) fn of_number(number: Option<u32>) -> Self
        ensures { result ≡ of_number number }
    {
        match number {
            None => Drops::Each,
            Some(number) => Drops::Number(number),
        }
    }

    /// Returns whether `marker` is one of them.
    pub(crate) fn takes(&self, marker: &Marker) -> bool
        ensures { result ≡ is_dropped self.now marker.now }
    {
        match *self {
            Drops::Nothing => false,
            Drops::Each => true,
            Drops::Number(number) => marker.number() == number,
            Drops::Handle(handle) => marker.handle() == handle,
        }
    }
}
