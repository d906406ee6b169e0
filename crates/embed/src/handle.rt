//! A handle by which C keeps an engine.

ghost use Rattle.embedded.specs.Classes.{Classes};

use embedded::Engine;
use std::alloc::Global;
use std::marker::Model;

/// The handle of an engine in C: the pointer to the engine, valid if the handle is open. All zeros are a handle that isn't open.
#[repr(C)]
#[derive(Drop)]
pub struct Handle {
    at: *mut (),
    is_open: bool,
    pub ghost engine: { Classes },
}

impl Model for Handle {
    ghost use Rattle.embed.specs.Held.{held};

    ghost also_owns = { λ h. held h.is_open h.at h.engine };
}

impl Handle {
    ghost use Rattle.std.specs.Prelude.{◌≡◌, true, false, Some, None, IfSome, IfNone};
    ghost use Rattle.embed.specs.Exports.{engine_of};

    /// Returns whether the handle is open.
    pub(crate) fn is_open(&mut self) -> bool
        ensures told { result ≡ self.old.is_open }
        ensures same { self.new ≡ self.old }
    {
        self.is_open
    }

    /// Stores an engine in a handle that has none.
    pub(crate) fn put(&mut self, engine: Box<Engine>)
        requires { engine_of self.old ≡ None }
        ensures { engine_of self.new ≡ Some engine.value }
    {
        let at = Box::into_raw(engine);
        self.at = at as *mut ();
        self.is_open = true;
    }

    /// Returns the engine of an open handle, and closes the handle.
    pub(crate) fn take(&mut self, alloc: Global) -> Box<Engine>
        requires { self.old.is_open ≡ true }
        ensures engine { engine_of self.old ≡ Some result.value }
        ensures is_closed { engine_of self.new ≡ None }
    {
        self.is_open = false;
        let at = self.at as *mut Engine;
        unsafe { Box::from_raw(alloc, at) }
    }

    /// Returns the engine if there is one. The handle is closed afterwards.
    pub(crate) fn out(&mut self, alloc: Global) -> Option<Box<Engine>>
        ensures some { IfSome result (λ b. engine_of self.old ≡ Some b.value) }
        ensures none { IfNone result (engine_of self.old ≡ None) }
        ensures is_closed { engine_of self.new ≡ None }
    {
        if self.is_open() {
            Some(self.take(alloc))
        } else {
            None
        }
    }
}
