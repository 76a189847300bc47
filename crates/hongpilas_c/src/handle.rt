//! A session as C holds it: one pointer.

ghost use Rattle.std.specs.Prelude.{◌≡◌, Some, None, Option, true, is_some, IfOk};
ghost use Rattle.hongpilas_c.specs.declared.held.Held.{Held};
ghost use Rattle.hongpilas_c.specs.Owned.{handle_owns, held_coded};

use crate::held::Held;
use crate::parts::Parts;
use std::alloc::{AllocError, Global};
use std::marker::Model;

/// The handle that C holds: a pointer to the session, and anything before it is opened. Dropping a handle frees
/// nothing, so that a call may overwrite one that C has not set. `into_box` takes the session back, to be freed.
#[repr(C)]
#[derive(Drop)]
pub struct Handle {
    pub(crate) at: *mut u8,
    alloc: Global,
    pub ghost held: { Option Held } by { held_coded },
}

impl Model for Handle {
    ghost also_owns = { λ h. handle_owns h.alloc h.at h.held };
}

impl Handle {
    /// Returns an open handle.
    ///
    /// # Errors
    ///
    /// `AllocError` if the allocation fails.
    pub(crate) fn new(alloc: Global, held: Held) -> Result<Handle, AllocError>
        ensures { IfOk result (λ handle. handle.held ≡ Some held) }
    {
        Ok(Handle::of_parts(Parts::of(Box::new(alloc, held)?)))
    }

    fn of_parts(parts: Parts<Held, Global>) -> Handle
        ensures { result.held ≡ Some parts.value }
    {
        let Parts { ptr, alloc } = parts;
        Handle {
            at: ptr as *mut u8,
            alloc,
        }
    }

    fn into_parts(self) -> Parts<Held, Global>
        requires { is_some self.held ≡ true }
        ensures { self.held ≡ Some result.value }
    {
        let Handle { at, alloc } = self;
        Parts {
            ptr: at as *mut Held,
            alloc,
        }
    }

    /// Returns the box behind an open handle, so that it can be freed.
    pub(crate) fn into_box(self) -> Box<Held>
        requires { is_some self.held ≡ true }
        ensures { self.held ≡ Some result.value }
    {
        self.into_parts().into_box()
    }
}
