//! Long calls, which their threads evaluate beside what others commit.

use crate::answered::{Answered, NOTHING, Step};
use crate::played::{Opening, played};
use crate::rows::{Row, Wanted, wrong};
use crate::texts::{ADD, ADD_SLOWLY, GO, SLOW, SLOW_GET};

const ALONE: Opening = Opening {
    file: SLOW,
    room: 64,
    workers: 0,
    keeps: false,
};

const ONE_WORKER: Opening = Opening {
    workers: 1,
    ..ALONE
};

const TWO_WORKERS: Opening = Opening {
    workers: 2,
    ..ALONE
};

const OFTEN: &[Step] = &[Step::Calls(ADD_SLOWLY, 10)];

const LONG: &[Step] = &[Step::Calls(ADD_SLOWLY, 15)];

const MANY_SHORT: &[Step] = &[Step::Calls(ADD, 300)];

const WAITS: &[Step] = &[Step::Calls(SLOW_GET, 1)];

/// One wakes them both in vain, and two give something.
const WAKES: &[Step] = &[
    Step::UntilWaiting(2),
    Step::Calls(ADD, 1),
    Step::UntilWaiting(2),
    Step::Calls(GO, 1),
    Step::UntilWaiting(1),
    Step::Calls(GO, 1),
];

const TRIES: &[Step] = &[
    Step::Tries(SLOW_GET, 2),
    Step::Calls(GO, 1),
    Step::Tries(SLOW_GET, 2),
];

const TRIED: Answered = Answered {
    returned: 2,
    sum: 2,
    retried: 3,
    ..NOTHING
};

const IN_TIME: &[Step] = &[
    Step::Gives(SLOW_GET, 0),
    Step::Within(30_000_000, ADD_SLOWLY, 2),
    Step::Within(2000, SLOW_GET, 2),
];

const TIMED: Answered = Answered {
    returned: 1,
    sum: 1,
    unknown: 1,
    timed_out: 3,
    ..NOTHING
};

const CLOSES: &[Step] = &[Step::Calls(ADD_SLOWLY, 5), Step::Closes];

const ASKS: &[Step] = &[Step::Calls(ADD_SLOWLY, 1), Step::ClosesAndAsks];

const HURRIES: &[Step] = &[Step::Within(1, ADD_SLOWLY, 100)];

const ROWS: &[Row] = &[
    Row {
        name: "none is evaluated beside",
        opening: ALONE,
        threads: &[OFTEN, OFTEN, OFTEN],
        wanted: Wanted::Numbered(30),
    },
    Row {
        name: "there are more threads than workers",
        opening: TWO_WORKERS,
        threads: &[OFTEN, OFTEN, OFTEN],
        wanted: Wanted::Numbered(30),
    },
    Row {
        name: "what they read is changed again and again",
        opening: TWO_WORKERS,
        threads: &[LONG, MANY_SHORT, LONG, MANY_SHORT],
        wanted: Wanted::Numbered(630),
    },
    Row {
        name: "long ones wait with no worker",
        opening: ALONE,
        threads: &[WAITS, WAITS, WAKES],
        wanted: Wanted::Returns(5, 6),
    },
    Row {
        name: "long ones wait",
        opening: TWO_WORKERS,
        threads: &[WAITS, WAITS, WAKES],
        wanted: Wanted::Returns(5, 6),
    },
    Row {
        name: "a long one is tried",
        opening: ONE_WORKER,
        threads: &[TRIES],
        wanted: Wanted::Exactly(TRIED, 2),
    },
    Row {
        name: "one has time enough, and one waits until it is up",
        opening: TWO_WORKERS,
        threads: &[IN_TIME],
        wanted: Wanted::Exactly(TIMED, 1),
    },
    Row {
        name: "time is up while they run",
        opening: TWO_WORKERS,
        threads: &[HURRIES, MANY_SHORT, HURRIES],
        wanted: Wanted::Numbered(500),
    },
    Row {
        name: "closed while they run",
        opening: TWO_WORKERS,
        threads: &[LONG, LONG, CLOSES],
        wanted: Wanted::Numbered(35),
    },
    Row {
        name: "nothing is entered once it is closed",
        opening: TWO_WORKERS,
        threads: &[LONG, LONG, ASKS],
        wanted: Wanted::Numbered(31),
    },
    Row {
        name: "chapters end while they run",
        opening: Opening {
            file: SLOW,
            room: 3,
            workers: 2,
            keeps: false,
        },
        threads: &[LONG, MANY_SHORT, LONG],
        wanted: Wanted::Numbered(330),
    },
];

#[test]
fn each_is_answered_its_outcome(rt: HostRuntime) {
    assert_eq!(rt; wrong(&rt, rt.alloc(), ROWS), None);
}

/// Each file and report is a pair that a check finds good.
#[test]
fn chapters_are_kept_while_they_run(rt: HostRuntime) {
    let opening = Opening {
        file: SLOW,
        room: 3,
        workers: 2,
        keeps: true,
    };
    let all = played(
        &rt,
        rt.alloc(),
        opening,
        &[OFTEN, &[Step::Keeps(9)], OFTEN, OFTEN],
    );
    assert_eq!(rt; all.entered, 30);
    let keeper = all.of(1);
    assert_eq!(rt; keeper.kept, 9);
    assert_eq!(rt; keeper.good, 9);
    assert_eq!(rt; keeper.following, 8);
}
