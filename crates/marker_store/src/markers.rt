//! One marker.
ghost use Rattle.std.specs.Prelude.{◌≡◌, ◌<◌, ◌^◌};
ghost use Rattle.marker_store.specs.Lines.{marker};

use std::marker::Model;

/// A marker: its handle, and its number, from 0 to 31.
#[derive(Clone, Copy, Drop)]
pub struct Marker {
    handle: u32,
    number: u32,
}

impl Model for Marker {
    ghost use Rattle.std.specs.Prelude.{◌<◌};
    ghost use Rattle.ed_model.specs.Rows.{Marker as TheMarker};

    ghost Value = { TheMarker };

    ghost view = { λ m. record { handle = m.handle; number = m.number } };

    ghost invariant = { λ m. m.number < 32 };

    ghost inverse = { λ m. record { handle = m.handle; number = m.number } };
}

impl Marker {
    /// Returns a marker.
    pub fn new(handle: u32, number: u32) -> Self
        requires { number < 32 }
        ensures { result ≡ marker handle number }
    {
        Marker { handle, number }
    }

    /// Returns its handle.
    pub fn handle(&self) -> u32
        ensures { result ≡ self.now.handle }
    {
        self.handle
    }

    /// Returns its number.
    pub fn number(&self) -> u32
        ensures number { result ≡ self.now.number }
        ensures within { result < 32 }
    {
        self.number
    }

    /// Returns the mask with the bit of its number alone.
    pub fn bit(&self) -> u32
        ensures { result ≡ 2 ^ self.now.number }
    {
        1 << self.number
    }
}
