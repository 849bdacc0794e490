//! A program as C holds it: a pointer to one that stays, as one to bytes; or nothing, where that is null.
ghost use Rattle.std.specs.Prelude.{◌≡◌, ◌≢◌, Option, None, Some, MatchBool, MatchOption};
ghost use Rattle.stm_store.specs.declared.program.Program.{Program};
ghost use Rattle.stm_c.specs.ProgramHandle.{value_coded, handle_owns};

use crate::parts::Parts;
use std::alloc::Global;
use std::marker::Model;
use std::ptr::null_mut;
use stm_store::Program;

/// A `Program` that the host holds, or none.
#[repr(C)]
#[derive(Drop)]
pub struct ProgramHandle {
    ptr: *mut u8,
    pub ghost value: { Option Program } by { value_coded },
}

impl Model for ProgramHandle {
    ghost also_owns = { λ s. handle_owns s.ptr s.value };
}

impl ProgramHandle {
    pub fn empty() -> ProgramHandle
        ensures { result.value ≡ None }
    {
        ProgramHandle { ptr: null_mut() }
    }

    fn of_parts(parts: Parts<Program, Global>) -> ProgramHandle
        ensures { result.value ≡ Some parts.value }
    {
        let Parts { ptr, alloc: _ } = parts;
        ProgramHandle {
            ptr: ptr as *mut u8,
        }
    }

    /// What it holds, if anything, to be read where it lies.
    pub fn get(&self) -> Option<&Program>
        ensures { MatchOption result (self.now.value ≡ None) (λ p. self.now.value ≡ Some p.now) }
    {
        let ptr = self.ptr;
        if ptr.is_null() {
            return None;
        }
        unsafe { Some(&*(ptr as *mut Program)) }
    }

    /// A handle that holds this, which stays until the process ends.
    pub fn of(held: Box<Program>) -> ProgramHandle
        ensures { result.value ≡ Some held.value }
    {
        ProgramHandle::of_parts(Parts::of(held))
    }

    /// Whether it holds anything.
    pub fn is_full(&self) -> bool
        ensures full { MatchBool result (self.now.value ≢ None) (self.now.value ≡ None) }
    {
        self.get().is_some()
    }
}

// A `&` to what it holds may go to another thread, and to several at once.
unsafe impl Send for ProgramHandle {}

unsafe impl Sync for ProgramHandle {}
