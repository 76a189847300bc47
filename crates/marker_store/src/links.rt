//! A link of a chain.
ghost use Rattle.std.specs.Prelude.{◌≡◌};
ghost use Rattle.marker_store.specs.Chains.{link};

use crate::markers::Marker;
use std::marker::Model;

/// A marker with the number of the next link of its chain, or 0 if it is the last one.
#[derive(Clone, Copy, Drop)]
pub struct Link {
    marker: Marker,
    next: u32,
}

impl Model for Link {
    ghost use Rattle.marker_store.specs.Chains.{Link as TheLink, link, link_code};

    ghost Value = { TheLink };

    ghost coded = { link_code };

    ghost view = { λ l. link l.marker l.next };

    ghost inverse = { λ l. record { marker = l.marker; next = l.next } };
}

impl Link {
    /// Returns the marker with the number of its next link.
    pub(crate) fn new(marker: Marker, next: u32) -> Self
        ensures { result ≡ link marker next }
    {
        Link { marker, next }
    }

    /// Returns the marker.
    pub(crate) fn marker(&self) -> Marker
        ensures { result ≡ self.now.marker }
    {
        self.marker
    }

    /// Returns the number of the next link, or 0.
    pub(crate) fn next(&self) -> u32
        ensures { result ≡ self.now.next }
    {
        self.next
    }
}
