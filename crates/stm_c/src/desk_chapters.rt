//! The chapters of a desk: under the host's lock.

ghost use Rattle.std.specs.Prelude.{◌≡◌, None, Ok, Some, IfErr, IfOk, OnErr};
ghost use Rattle.stm_desk.specs.declared.ended.Last.TheVariants as Last;
ghost use Rattle.stm_c.specs.DeskChapters.{BeginsChapter, EndsFor, GivesBack, IsHandedOver, IsNotGiven};
ghost use Rattle.stm_c.specs.Held.{On};

use crate::codes::{EMPTY, FULL, MEMORY, NOT_ENDED, code_of, done};
use crate::desk_handle::DeskHandle;
use crate::ended_handle::EndedHandle;
use std::alloc::Global;
use stm_desk::{Desk, Ended};

/// The present chapter ends, and `out` has its file and its report: 0. -11: the host has one already, and did not say
/// whether it was kept; -6: out of memory; -12, -13: the desk's handle is empty, or `out` is not. Else than with 0,
/// `out` is as it was.
#[unsafe(no_mangle)]
pub extern "C" fn stm_desk_end_chapter(
    alloc: Global,
    desk: &mut DeskHandle,
    out: &mut EndedHandle,
) -> i32
    ensures ended { On desk.old.value desk.new.value EMPTY result
        (λ old answer new. EndsFor old out.old.value answer out.new.value new) }
    ensures kept { desk.old.value ≡ None → out.new.value ≡ out.old.value }
{
    let Some(held) = desk.get_mut() else {
        return EMPTY;
    };
    end_chapter(alloc, held, out)
}

fn end_chapter(alloc: Global, desk: &mut Desk, out: &mut EndedHandle) -> i32
    ensures { EndsFor desk.old out.old.value result out.new.value desk.new }
{
    if out.is_full() {
        return FULL;
    }
    match desk.end_chapter() {
        Ok(ended) => hand_over(alloc, desk, ended, out),
        Err(why) => code_of(why),
    }
}

/// Where there is no memory for it the chapter counts as not kept.
fn hand_over(alloc: Global, desk: &mut Desk, ended: Ended, out: &mut EndedHandle) -> i32
    requires has { desk.old.work.last ≡ Last.Out ended.chapter }
    requires empty { out.old.value ≡ None }
    ensures { IsHandedOver (Ok ended) desk.old.work result out.new.value desk.new.work }
{
    match Box::new(alloc, ended) {
        Ok(made) => {
            *out = EndedHandle::of(made);
            0
        }
        Err(refused) => match desk.not_kept(refused.value) {
            Ok(()) => MEMORY,
            Err(_) => unreachable!(),
        },
    }
}

/// The present chapter ends, of which nobody keeps anything, and the next one begins: 0. -11: the host has the chapter
/// before, or did not keep it; -12: the handle is empty.
#[unsafe(no_mangle)]
pub extern "C" fn stm_desk_begin_chapter(desk: &mut DeskHandle) -> i32
    ensures { On desk.old.value desk.new.value EMPTY result BeginsChapter }
{
    let Some(held) = desk.get_mut() else {
        return EMPTY;
    };
    begin_chapter(held)
}

fn begin_chapter(desk: &mut Desk) -> i32
    ensures { BeginsChapter desk.old result desk.new }
{
    done(desk.begin_chapter())
}

/// The host kept the chapter: 0, and its handle is empty. -11, and no change: it is not the one that the host has of
/// this desk; -12: one of the handles is empty.
#[unsafe(no_mangle)]
pub extern "C" fn stm_desk_kept(
    alloc: Global,
    desk: &mut DeskHandle,
    ended: &mut EndedHandle,
) -> i32
    ensures kept { On desk.old.value desk.new.value EMPTY result
        (λ old answer new. GivesBack old ended.old.value (λ _. Last.Kept) answer ended.new.value new) }
    ensures stays { desk.old.value ≡ None → ended.new.value ≡ ended.old.value }
{
    let Some(held) = desk.get_mut() else {
        return EMPTY;
    };
    kept(alloc, held, ended)
}

fn kept(alloc: Global, desk: &mut Desk, ended: &mut EndedHandle) -> i32
    ensures { GivesBack desk.old ended.old.value (λ _. Last.Kept) result ended.new.value desk.new }
{
    match given_back(alloc, desk, ended) {
        Ok(ended) => match desk.kept(ended) {
            Ok(()) => 0,
            Err(_) => unreachable!(),
        },
        Err(why) => why,
    }
}

/// The host did not keep the chapter, which is given again: 0, and its handle is empty. -11, and no change: it is not
/// the one that the host has of this desk; -12: one of the handles is empty.
#[unsafe(no_mangle)]
pub extern "C" fn stm_desk_not_kept(
    alloc: Global,
    desk: &mut DeskHandle,
    ended: &mut EndedHandle,
) -> i32
    ensures kept { On desk.old.value desk.new.value EMPTY result
        (λ old answer new. GivesBack old ended.old.value (λ e. Last.NotKept e) answer ended.new.value new) }
    ensures stays { desk.old.value ≡ None → ended.new.value ≡ ended.old.value }
{
    let Some(held) = desk.get_mut() else {
        return EMPTY;
    };
    not_kept(alloc, held, ended)
}

fn not_kept(alloc: Global, desk: &mut Desk, ended: &mut EndedHandle) -> i32
    ensures { GivesBack desk.old ended.old.value (λ e. Last.NotKept e) result ended.new.value desk.new }
{
    match given_back(alloc, desk, ended) {
        Ok(ended) => match desk.not_kept(ended) {
            Ok(()) => 0,
            Err(_) => unreachable!(),
        },
        Err(why) => why,
    }
}

/// The chapter out of its handle, where it is the one that the host has of this desk; else why not.
fn given_back(alloc: Global, desk: &Desk, ended: &mut EndedHandle) -> Result<Ended, i32>
    ensures given { IfOk result (λ e. (ended.old.value ≡ Some e) × (ended.new.value ≡ None)
        × (desk.now.work.last ≡ Last.Out e.chapter)) }
    ensures not { IfErr result (λ why. IsNotGiven desk.now ended.old.value why) }
    ensures kept { OnErr result (ended.new.value ≡ ended.old.value) }
{
    let Some(held) = ended.get_mut() else {
        return Err(EMPTY);
    };
    if !desk.has_out(held.chapter) {
        return Err(NOT_ENDED);
    }
    match ended.take(alloc) {
        Some(held) => Ok(Box::into_inner(held)),
        None => unreachable!(),
    }
}
