//! A box as C holds it: its pointer, as one to bytes; or nothing, where that is null.
ghost use Rattle.std.specs.Prelude.{◌≡◌, ◌≢◌, Option, None, Some, MatchBool, MatchOption};
ghost use Rattle.stm_desk.specs.declared.desk.Desk.{Desk};
ghost use Rattle.stm_c.specs.DeskHandle.{value_coded, handle_owns};

use crate::parts::Parts;
use core::mem::replace;
use std::alloc::Global;
use std::marker::Model;
use std::ptr::null_mut;
use std_alloc::room::Vacant;
use stm_desk::Desk;

/// A `Desk` that the host holds, or none.
#[repr(C)]
pub struct DeskHandle {
    ptr: *mut u8,
    alloc: Global,
    pub ghost value: { Option Desk } by { value_coded },
}

impl Model for DeskHandle {
    ghost also_owns = { λ s. handle_owns s.alloc s.ptr s.value };
}

impl DeskHandle {
    ghost use Rattle.std.specs.Borrow.{LendsIf, sem};
    ghost use Rattle.stm_desk.specs.contracts.desk.Desk.{the_row as held_row};
    ghost use Rattle.stm_c.specs.Holding.{desk_in};
    ghost use Rattle.stm_c.specs.contracts.desk_handle.DeskHandle.{the_row};

    fn empty(alloc: Global) -> DeskHandle
        ensures { result.value ≡ None }
    {
        DeskHandle {
            ptr: null_mut(),
            alloc,
        }
    }

    fn of_parts(parts: Parts<Desk, Global>) -> DeskHandle
        ensures { result.value ≡ Some parts.value }
    {
        let Parts { ptr, alloc } = parts;
        DeskHandle {
            ptr: ptr as *mut u8,
            alloc,
        }
    }

    fn into_parts(self) -> Option<Parts<Desk, Global>>
        ensures { MatchOption result (self.value ≡ None) (λ p. self.value ≡ Some p.value) }
    {
        let DeskHandle { ptr, alloc } = self;
        if ptr.is_null() {
            None
        } else {
            Some(Parts {
                ptr: ptr as *mut Desk,
                alloc,
            })
        }
    }

    /// A handle that holds this, in the room that there was for it.
    pub fn in_room(room: Vacant<Desk, Global>, held: Desk) -> DeskHandle
        ensures { result.value ≡ Some held }
    {
        DeskHandle::of_parts(Parts::in_room(room, held))
    }

    /// What it holds, if anything; it is empty afterwards.
    pub fn take(&mut self, alloc: Global) -> Option<Box<Desk>>
        ensures left { self.new.value ≡ None }
        ensures held { MatchOption result (self.old.value ≡ None) (λ b. self.old.value ≡ Some b.value) }
    {
        let parts = replace(self, DeskHandle::empty(alloc)).into_parts()?;
        Some(parts.into_box())
    }

    /// What it holds, if anything, to be changed where it lies.
    pub fn get_mut(&mut self) -> Option<&mut Desk>
        ensures* writes_back { sem 𝓛 (LendsIf the_row held_row self.entry result (desk_in self.old) self.old) }
        ensures held { MatchOption result (self.old.value ≡ None) (λ held. self.old.value ≡ Some held.now) }
    {
        let ptr = self.ptr;
        if ptr.is_null() {
            return None;
        }
        unsafe { Some(&mut *(ptr as *mut Desk)) }
    }

    /// Whether it holds anything, which it keeps.
    pub fn is_full(&mut self) -> bool
        ensures full { MatchBool result (self.old.value ≢ None) (self.old.value ≡ None) }
        ensures stays { self.new.value ≡ self.old.value }
    {
        let Some(_held) = self.get_mut() else {
            return false;
        };
        true
    }
}

impl Drop for DeskHandle {
    fn drop(self) {
        if let Some(parts) = self.into_parts() {
            drop(parts.into_box());
        }
    }
}

// What it holds may go to another thread.
unsafe impl Send for DeskHandle {}
