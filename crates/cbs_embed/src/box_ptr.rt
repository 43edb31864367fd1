//! The pointer of a box, which C may keep.

ghost use Rattle.std.specs.Prelude.{◌≡◌, Option, Some, None, IsSome};
ghost use Rattle.std.specs.Borrow.{sem};
ghost use Rattle.cbs_embed.specs.declared.held.Held.{Held};
ghost use Rattle.cbs_embed.specs.Owned.{pointer_owns, held_coded};

use crate::held::Held;
use crate::parts::Parts;
use std::alloc::Global;
use std::marker::Model;
use std::ptr;

/// The pointer of a `Box<Held>`, or null. It owns what the box owns, but frees nothing when it is dropped.
#[repr(C)]
#[derive(Drop)]
pub struct BoxPtr {
    ptr: *mut (),
    alloc: Global,
    pub ghost held: { Option Held } by { held_coded },
}

impl Model for BoxPtr {
    ghost also_owns = { λ p. pointer_owns p.alloc p.ptr p.held };
}

impl BoxPtr {
    ghost use Rattle.cbs_embed.specs.Lending.{LendsHeld};

    /// Returns the null pointer.
    pub fn null(alloc: Global) -> BoxPtr
        ensures { result.held ≡ None }
    {
        BoxPtr {
            ptr: ptr::null_mut(),
            alloc,
        }
    }

    /// Returns the pointer of a box.
    pub fn of(held: Box<Held>) -> BoxPtr
        ensures { result.held ≡ Some held.value }
    {
        BoxPtr::of_parts(Parts::of(held))
    }

    /// Returns the box of the pointer, which must not be null.
    pub fn into_box(self) -> Box<Held>
        requires { IsSome self.held }
        ensures { Some result.value ≡ self.held }
    {
        self.into_parts().into_box()
    }

    fn of_parts(parts: Parts<Held, Global>) -> BoxPtr
        ensures { result.held ≡ Some parts.value }
    {
        let Parts { ptr, alloc } = parts;
        BoxPtr {
            ptr: ptr as *mut (),
            alloc,
        }
    }

    fn into_parts(self) -> Parts<Held, Global>
        requires { IsSome self.held }
        ensures { Some result.value ≡ self.held }
    {
        let BoxPtr { ptr, alloc } = self;
        Parts {
            ptr: ptr as *mut Held,
            alloc,
        }
    }

    /// Returns what is in the box, in place. The pointer must not be null.
    pub fn as_mut(&mut self) -> &mut Held
        requires { IsSome self.old.held }
        ensures* writes_back { sem 𝓛 (LendsHeld self.entry result) }
        ensures value { self.old.held ≡ Some result.now }
    {
        unsafe { &mut *(self.ptr as *mut Held) }
    }
}

unsafe impl Send for BoxPtr {}
