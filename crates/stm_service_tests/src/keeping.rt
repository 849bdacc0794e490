//! Chapters that a host keeps.

use crate::answered::Step;
use crate::played::{Opening, played};
use crate::texts::{BUFFER, GIVE};
use stm_service::Refused;

/// Each chapter has room for eight tasks.
const OPENING: Opening = Opening {
    file: BUFFER,
    room: 8,
    workers: 0,
    keeps: true,
};

/// A service whose chapters nobody keeps.
const UNKEPT: Opening = Opening {
    keeps: false,
    ..OPENING
};

const CLOSES: &[Step] = &[Step::GivesOften(GIVE, 7, 10), Step::Closes, Step::KeepsAll];

#[test]
fn each_chapter_is_kept_and_follows_the_one_before(rt: HostRuntime) {
    let all = played(
        &rt,
        rt.alloc(),
        OPENING,
        &[&[Step::GivesOften(GIVE, 7, 33)], &[Step::Keeps(4)]],
    );
    // Four chapters of eight entries each, and one that has not ended.
    assert_eq!(rt; all.of(0).returned, 33);
    assert_eq!(rt; all.of(1).kept, 4);
    assert_eq!(rt; all.of(1).good, 4);
    assert_eq!(rt; all.of(1).following, 3);
}

#[test]
fn a_chapter_that_is_not_kept_is_told_again(rt: HostRuntime) {
    let all = played(
        &rt,
        rt.alloc(),
        OPENING,
        &[
            &[Step::GivesUntilRefused(GIVE, 7)],
            &[Step::Declines(GIVE, 9)],
        ],
    );
    let two = all.of(1);
    // There is room for the chapter that was not kept, and for one more.
    assert_eq!(rt; all.all().returned, 16);
    assert_eq!(rt; all.of(0).no_room, 1);
    assert!(rt; two.declined >= 1);
    assert_eq!(rt; two.kept, 1);
    assert_eq!(rt; two.untold, Some(Refused::Closed));
}

#[test]
fn what_ended_is_told_once_the_service_is_closed(rt: HostRuntime) {
    let all = played(&rt, rt.alloc(), OPENING, &[CLOSES]);
    let one = all.of(0);
    assert_eq!(rt; one.returned, 10);
    assert_eq!(rt; one.kept, 1);
    assert_eq!(rt; one.untold, Some(Refused::Closed));
}

#[test]
fn nothing_is_told_where_nobody_keeps_chapters(rt: HostRuntime) {
    let all = played(&rt, rt.alloc(), UNKEPT, &[CLOSES]);
    let one = all.of(0);
    assert_eq!(rt; one.returned, 10);
    assert_eq!(rt; one.kept, 0);
    assert_eq!(rt; one.untold, Some(Refused::NotEnded));
}
