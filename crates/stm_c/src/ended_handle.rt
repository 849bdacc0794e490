//! A box as C holds it: its pointer, as one to bytes; or nothing, where that is null.
ghost use Rattle.std.specs.Prelude.{◌≡◌, ◌≢◌, Option, None, Some, MatchBool, MatchOption};
ghost use Rattle.stm_desk.specs.declared.ended.Ended.{Ended};
ghost use Rattle.stm_c.specs.EndedHandle.{value_coded, handle_owns};

use crate::parts::Parts;
use core::mem::replace;
use std::alloc::Global;
use std::marker::Model;
use std::ptr::null_mut;
use stm_desk::Ended;

/// An `Ended` that the host holds, or none.
#[repr(C)]
pub struct EndedHandle {
    ptr: *mut u8,
    alloc: Global,
    pub ghost value: { Option Ended } by { value_coded },
}

impl Model for EndedHandle {
    ghost also_owns = { λ s. handle_owns s.alloc s.ptr s.value };
}

impl EndedHandle {
    ghost use Rattle.std.specs.Borrow.{LendsIf, sem};
    ghost use Rattle.stm_desk.specs.contracts.ended.Ended.{the_row as held_row};
    ghost use Rattle.stm_c.specs.Holding.{ended_in};
    ghost use Rattle.stm_c.specs.contracts.ended_handle.EndedHandle.{the_row};

    fn empty(alloc: Global) -> EndedHandle
        ensures { result.value ≡ None }
    {
        EndedHandle {
            ptr: null_mut(),
            alloc,
        }
    }

    fn of_parts(parts: Parts<Ended, Global>) -> EndedHandle
        ensures { result.value ≡ Some parts.value }
    {
        let Parts { ptr, alloc } = parts;
        EndedHandle {
            ptr: ptr as *mut u8,
            alloc,
        }
    }

    fn into_parts(self) -> Option<Parts<Ended, Global>>
        ensures { MatchOption result (self.value ≡ None) (λ p. self.value ≡ Some p.value) }
    {
        let EndedHandle { ptr, alloc } = self;
        if ptr.is_null() {
            None
        } else {
            Some(Parts {
                ptr: ptr as *mut Ended,
                alloc,
            })
        }
    }

    /// A handle that holds this.
    pub fn of(held: Box<Ended>) -> EndedHandle
        ensures { result.value ≡ Some held.value }
    {
        EndedHandle::of_parts(Parts::of(held))
    }

    /// What it holds, if anything; it is empty afterwards.
    pub fn take(&mut self, alloc: Global) -> Option<Box<Ended>>
        ensures left { self.new.value ≡ None }
        ensures held { MatchOption result (self.old.value ≡ None) (λ b. self.old.value ≡ Some b.value) }
    {
        let parts = replace(self, EndedHandle::empty(alloc)).into_parts()?;
        Some(parts.into_box())
    }

    /// What it holds, if anything, to be changed where it lies.
    pub fn get_mut(&mut self) -> Option<&mut Ended>
        ensures* writes_back { sem 𝓛 (LendsIf the_row held_row self.entry result (ended_in self.old) self.old) }
        ensures held { MatchOption result (self.old.value ≡ None) (λ held. self.old.value ≡ Some held.now) }
    {
        let ptr = self.ptr;
        if ptr.is_null() {
            return None;
        }
        unsafe { Some(&mut *(ptr as *mut Ended)) }
    }

    /// Whether it holds anything, which it keeps.
    pub fn is_full(&mut self) -> bool
        ensures full { MatchBool result (self.old.value ≢ None) (self.old.value ≡ None) }
        ensures stays { self.new.value ≡ self.old.value }
    {
        let Some(_held) = self.get_mut() else {
            return false;
        };
        true
    }
}

impl Drop for EndedHandle {
    fn drop(self) {
        if let Some(parts) = self.into_parts() {
            drop(parts.into_box());
        }
    }
}

// What it holds may go to another thread.
unsafe impl Send for EndedHandle {}
