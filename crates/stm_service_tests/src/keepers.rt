//! Threads that keep the chapters of a service.

use crate::answered::{Answered, one_more};
use checker::{Verdict, check};
use std::alloc::Global;
use std::sync::Wait;
use std::time::{Clock, Duration};
use stm_service::{Chapter, Front, Kept, Naming, Refused, Service};
use txn::TxId;

/// Whether its file and its report are a pair.
fn is_good<N: Naming>(alloc: Global, chapter: &Chapter<N>) -> bool {
    let Ok(file) = &chapter.ended.file else {
        return false;
    };
    let report = &chapter.ended.report;
    matches!(
        check(alloc, file.as_bytes(), report.as_bytes()),
        Ok(Verdict::Good)
    )
}

/// The chapter is kept: whether it follows the one that was kept before is noted.
fn keep_one<R: Wait, N: Naming>(
    rt: &R,
    alloc: Global,
    service: &Service<N>,
    chapter: Chapter<N>,
    before: &Option<Kept<N>>,
    answered: &mut Answered,
) -> Option<Kept<N>> {
    if let Some(earlier) = before {
        if chapter.follows(earlier) {
            one_more(&mut answered.following);
        }
    }
    if is_good(alloc, &chapter) {
        one_more(&mut answered.good);
    }
    match service.chapter_kept(rt, chapter) {
        Ok(kept) => {
            one_more(&mut answered.kept);
            Some(kept)
        }
        Err(_) => None,
    }
}

/// Takes so many chapters, one after another, and keeps them.
pub(crate) fn keep<R: Wait, N: Naming>(
    rt: &R,
    alloc: Global,
    service: &Service<N>,
    times: u32,
    answered: &mut Answered,
) {
    let mut before = None;
    for _ in 0..times {
        match service.told_chapter(rt) {
            Ok(chapter) => before = keep_one(rt, alloc, service, chapter, &before, answered),
            Err(why) => answered.untold = Some(why),
        }
    }
}

/// Takes and keeps chapters until there is none more.
pub(crate) fn keep_all<R: Wait, N: Naming>(
    rt: &R,
    alloc: Global,
    service: &Service<N>,
    answered: &mut Answered,
) {
    let mut before = None;
    for _ in rt.forever() {
        match service.told_chapter(rt) {
            Ok(chapter) => before = keep_one(rt, alloc, service, chapter, &before, answered),
            Err(why) => {
                answered.untold = Some(why);
                return;
            }
        }
    }
}

/// Takes chapters and keeps none, until the service is closed: then it keeps the last. With each it calls once, for a
/// millisecond at most.
pub(crate) fn decline<R: Wait + Clock, N: Naming>(
    rt: &R,
    alloc: Global,
    service: &Service<N>,
    tx: TxId,
    argument: i64,
    front: &mut Front<N>,
    answered: &mut Answered,
) {
    for _ in rt.forever() {
        match service.told_chapter_within(rt, Duration::from_millis(10_000)) {
            Ok(chapter) => {
                let time = Duration::from_millis(1);
                let answer = service.atomically_within(rt, time, tx, &[argument], front);
                if matches!(answer, Err(Refused::Closed)) {
                    let _kept = keep_one(rt, alloc, service, chapter, &None, answered);
                } else {
                    answered.note(answer);
                    one_more(&mut answered.declined);
                    let _back = service.chapter_not_kept(rt, chapter);
                }
            }
            Err(why) => {
                answered.untold = Some(why);
                return;
            }
        }
    }
}
