//! A boxed end behind a pointer that C may keep, and sees nothing behind.
ghost use Rattle.std.specs.Prelude.{◌≡◌, Option, None, Some, IsSome};
ghost use Rattle.sukperin.specs.declared.end.End.{End};
ghost use Rattle.sukperin.specs.Held.{held_coded, held_owns};

use crate::end::End;
use crate::parts::Parts;
use std::alloc::Global;
use std::marker::Model;
use std::ptr;

// What C sees behind the pointer: nothing.
#[repr(C)]
pub struct Opaque {
    nothing: u8,
}

// A boxed end, or none. Dropping it frees nothing: whoever drops one that holds an end leaks that end.
#[repr(C)]
#[derive(Drop)]
pub struct Held {
    ptr: *mut Opaque,
    alloc: Global,
    pub ghost state: { Option End } by { held_coded },
}

impl Model for Held {
    ghost also_owns = { λ h. held_owns h.alloc h.ptr h.state };
}

impl Held {
    // None.
    pub fn empty(alloc: Global) -> Held
        ensures { result.state ≡ None }
    {
        Held {
            ptr: ptr::null_mut(),
            alloc,
        }
    }

    fn of_parts(parts: Parts<End, Global>) -> Held
        ensures { result.state ≡ Some parts.value }
    {
        let Parts { ptr, alloc } = parts;
        Held {
            ptr: ptr as *mut Opaque,
            alloc,
        }
    }

    fn into_parts(self) -> Parts<End, Global>
        requires { IsSome self.state }
        ensures { Some result.value ≡ self.state }
    {
        let Held { ptr, alloc } = self;
        Parts {
            ptr: ptr as *mut End,
            alloc,
        }
    }

    // The boxed end, held.
    pub fn of(end: Box<End>) -> Held
        ensures { result.state ≡ Some end.value }
    {
        Held::of_parts(Parts::of(end))
    }

    // The boxed end again.
    pub fn into_box(self) -> Box<End>
        requires { IsSome self.state }
        ensures { Some result.value ≡ self.state }
    {
        self.into_parts().into_box()
    }
}
