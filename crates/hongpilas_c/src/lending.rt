//! Lending what a handle points to.

ghost use Rattle.std.specs.Prelude.{◌≡◌, Some, true, is_some};
ghost use Rattle.std.specs.Borrow.{sem};
ghost use Rattle.hongpilas_c.specs.Lends.{held_follows};

use crate::handle::Handle;
use crate::held::Held;

impl Handle {
    /// Lends the session and reply behind an open handle.
    pub(crate) fn held(&mut self) -> &mut Held
        requires { is_some self.old.held ≡ true }
        ensures* back { sem 𝓛 (held_follows self.entry result) }
        ensures value { self.old.held ≡ Some result.now }
    {
        unsafe { &mut *(self.at as *mut Held) }
    }
}
