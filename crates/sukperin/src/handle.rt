//! A handle: what C keeps of an end.
ghost use Rattle.std.specs.Prelude.{◌≡◌, None, Some, IsTrue, IsSome, IsNone, ◌↔◌, IfSome, OnOk, IfErr};
ghost use Rattle.sukperin.specs.declared.refusal.Refusal as Refusal;

use crate::end::End;
use crate::held::Held;
use crate::refusal::Refusal;
use std::alloc::Global;
use std::mem;

/// A handle of 16 octets, which leads to an end or to none. All zeros is none.
#[repr(C)]
#[derive(Drop)]
pub struct SukHandle {
    // The end, or none.
    pub held: Held,
    live: bool,
    ghost is_live: { IsTrue live ↔ IsSome held.state },
}

impl SukHandle {
    // A handle that leads to none.
    fn none(alloc: Global) -> SukHandle
        ensures { result.held.state ≡ None }
    {
        SukHandle {
            held: Held::empty(alloc),
            live: false,
        }
    }

    // A handle that leads to this end.
    fn of(boxed: Box<End>) -> SukHandle
        ensures { result.held.state ≡ Some boxed.value }
    {
        SukHandle {
            held: Held::of(boxed),
            live: true,
        }
    }

    // Whether it leads to an end.
    pub fn is_live(&self) -> bool
        ensures { IsTrue result ↔ IsSome self.now.held.state }
    {
        self.live
    }

    // Leads to this end from now on. Asked only where it leads to none: else what it led to would be lost.
    pub fn make(&mut self, alloc: Global, end: End) -> Result<(), Refusal>
        requires { IsNone self.old.held.state }
        ensures made { OnOk result (self.new.held.state ≡ Some end) }
        ensures refused { IfErr result (λ refusal.
            (refusal ≡ Refusal.Memory) × (self.new.held.state ≡ self.old.held.state)) }
    {
        match Box::new(alloc, end) {
            Ok(boxed) => {
                self.put_back(boxed);
                Ok(())
            }
            Err(_) => Err(Refusal::Memory),
        }
    }

    // Takes the end, if it leads to one, and leads to none from now on.
    pub fn take(&mut self, alloc: Global) -> Option<Box<End>>
        ensures taken { IfSome result (λ boxed. self.old.held.state ≡ Some boxed.value) }
        ensures none { IsNone result → IsNone self.old.held.state }
        ensures left { self.new.held.state ≡ None }
    {
        let SukHandle { held, live } = mem::replace(self, SukHandle::none(alloc));
        if live { Some(held.into_box()) } else { None }
    }

    // Leads to this end again, which was taken from it.
    pub fn put_back(&mut self, boxed: Box<End>)
        requires { IsNone self.old.held.state }
        ensures { self.new.held.state ≡ Some boxed.value }
    {
        *self = SukHandle::of(boxed);
    }
}
