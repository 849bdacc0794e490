//! Calls that end at once, wait, or are refused.

use crate::answered::{Answered, NOTHING, Step};
use crate::played::{Opening, played};
use crate::rows::{Row, Wanted, sum_to, wrong};
use crate::texts::{BUFFER, GET, GIVE, HELD, MANY, NONE, OWN, PUT, THROWS};
use txn::TxId;

const WAITS: &[Step] = &[Step::Calls(GET, 1)];

/// Waits until all of the room waits, finds that there is none left, closes the service, and goes on when none waits
/// any more.
const CLOSES: &[Step] = &[
    Step::UntilWaiting(4),
    Step::Calls(PUT, 1),
    Step::Closes,
    Step::UntilWaiting(0),
];

const ASKS: &[Step] = &[Step::Calls(TxId(0), 1)];

const ROWS: &[Row] = &[
    Row {
        name: "an argument is given",
        opening: Opening {
            file: BUFFER,
            room: 3,
            workers: 0,
            keeps: false,
        },
        threads: &[&[Step::GivesEach(GIVE, 7)]],
        wanted: Wanted::Returns(3, 21),
    },
    Row {
        name: "a call stands behind what its thread was shown",
        opening: Opening {
            file: BUFFER,
            room: 3,
            workers: 0,
            keeps: false,
        },
        threads: &[&[Step::Both(PUT, GET)]],
        wanted: Wanted::Returns(2, 2),
    },
    Row {
        name: "a try that retries takes no room",
        opening: Opening {
            file: BUFFER,
            room: 2,
            workers: 0,
            keeps: false,
        },
        threads: &[&[
            Step::Tries(GET, 10),
            Step::Calls(PUT, 1),
            Step::Tries(GET, 2),
        ]],
        wanted: Wanted::Reports(
            Answered {
                returned: 2,
                sum: 2,
                retried: 11,
                ..NOTHING
            },
            "base 0\nout 0 0\ngiven 0 0\nentry 1 0 put returned 1\nentry 2 1 get returned 1\n\
            now 2\nout 0 2\ngiven 1 2\nend\n",
        ),
    },
    Row {
        name: "the tasks of the file are served first",
        opening: Opening {
            file: THROWS,
            room: 3,
            workers: 0,
            keeps: false,
        },
        threads: &[],
        wanted: Wanted::Reports(
            NOTHING,
            "base 0\nx 0 0\nentry 1 1 wake returned 1\nentry 2 0 woken returned 9\nnow 2\nx 9 2\nend\n",
        ),
    },
    Row {
        name: "what is thrown is an answer",
        opening: Opening {
            file: THROWS,
            room: 3,
            workers: 0,
            keeps: false,
        },
        threads: &[&[Step::Calls(TxId(0), 1), Step::Calls(TxId(1), 1)]],
        wanted: Wanted::Exactly(
            Answered {
                returned: 1,
                sum: 9,
                thrown: 1,
                sum_thrown: 7,
                ..NOTHING
            },
            4,
        ),
    },
    Row {
        name: "ten threads are answered once each",
        opening: Opening {
            file: OWN,
            room: 12,
            workers: 0,
            keeps: false,
        },
        threads: &[
            ASKS,
            ASKS,
            ASKS,
            ASKS,
            ASKS,
            ASKS,
            ASKS,
            ASKS,
            ASKS,
            ASKS,
            &[Step::UntilWaiting(10), Step::Calls(TxId(1), 10)],
        ],
        wanted: Wanted::Returns(20, 110),
    },
    Row {
        name: "a transaction that is not there",
        opening: Opening {
            file: BUFFER,
            room: 1,
            workers: 0,
            keeps: false,
        },
        threads: &[&[
            Step::Calls(TxId(3), 1),
            Step::Tries(TxId(u32::MAX), 1),
            Step::Within(0, TxId(3), 1),
            Step::Calls(PUT, 1),
        ]],
        wanted: Wanted::Exactly(
            Answered {
                returned: 1,
                sum: 1,
                unknown: 3,
                ..NOTHING
            },
            1,
        ),
    },
    Row {
        name: "an argument too many",
        opening: Opening {
            file: BUFFER,
            room: 1,
            workers: 0,
            keeps: false,
        },
        threads: &[&[
            Step::GivesEach(PUT, i64::MIN),
            Step::Calls(PUT, 1),
            Step::Closes,
            Step::Gives(PUT, 1),
        ]],
        wanted: Wanted::Exactly(
            Answered {
                returned: 1,
                sum: 1,
                unknown: 4,
                ..NOTHING
            },
            1,
        ),
    },
    Row {
        name: "a program without transactions",
        opening: Opening {
            file: NONE,
            room: 1,
            workers: 0,
            keeps: false,
        },
        threads: &[&[Step::Calls(TxId(0), 1), Step::Tries(TxId(0), 1)]],
        wanted: Wanted::Reports(
            Answered {
                unknown: 2,
                ..NOTHING
            },
            "base 0\nx 3 0\nnow 0\nx 3 0\nend\n",
        ),
    },
    Row {
        name: "a service with no room",
        opening: Opening {
            file: BUFFER,
            room: 0,
            workers: 0,
            keeps: false,
        },
        threads: &[&[
            Step::Calls(PUT, 1),
            Step::Tries(PUT, 1),
            Step::Tries(GET, 1),
        ]],
        wanted: Wanted::Chapters(
            Answered {
                no_room: 2,
                retried: 1,
                ..NOTHING
            },
            0,
        ),
    },
    // The first call takes the room, the second one begins a chapter, the third one waits in another; where it is
    // withdrawn there is room again.
    Row {
        name: "room for one",
        opening: Opening {
            file: BUFFER,
            room: 1,
            workers: 0,
            keeps: false,
        },
        threads: &[&[
            Step::Calls(PUT, 2),
            Step::Within(0, PUT, 1),
            Step::Calls(GET, 1),
        ]],
        wanted: Wanted::Chapters(
            Answered {
                returned: 3,
                sum: 4,
                timed_out: 1,
                ..NOTHING
            },
            3,
        ),
    },
    Row {
        name: "as many tasks as a file may declare",
        opening: Opening {
            file: MANY,
            room: 1,
            workers: 0,
            keeps: false,
        },
        threads: &[&[
            Step::Calls(TxId(1), 2),
            Step::Tries(TxId(0), 1),
            Step::Within(0, TxId(0), 1),
        ]],
        wanted: Wanted::Chapters(
            Answered {
                returned: 2,
                sum: 8,
                retried: 1,
                timed_out: 1,
                ..NOTHING
            },
            2,
        ),
    },
    Row {
        name: "all that wait are told that it is closed",
        opening: Opening {
            file: BUFFER,
            room: 4,
            workers: 0,
            keeps: false,
        },
        threads: &[WAITS, WAITS, WAITS, WAITS, CLOSES],
        wanted: Wanted::Exactly(
            Answered {
                closed: 4,
                no_room: 1,
                ..NOTHING
            },
            0,
        ),
    },
    Row {
        name: "what is closed calls nothing",
        opening: Opening {
            file: BUFFER,
            room: 10,
            workers: 0,
            keeps: false,
        },
        threads: &[&[
            Step::Calls(PUT, 1),
            Step::Closes,
            Step::Calls(PUT, 1),
            Step::Tries(GET, 1),
            Step::Within(10, GET, 1),
            Step::Calls(TxId(9), 1),
            Step::Closes,
        ]],
        wanted: Wanted::Reports(
            Answered {
                returned: 1,
                sum: 1,
                closed: 3,
                unknown: 1,
                ..NOTHING
            },
            "base 0\nout 0 0\ngiven 0 0\nentry 1 0 put returned 1\nnow 1\nout 1 1\ngiven 0 0\nend\n",
        ),
    },
    Row {
        name: "a call whose time is up is never entered",
        opening: Opening {
            file: BUFFER,
            room: 16,
            workers: 0,
            keeps: false,
        },
        threads: &[&[Step::Within(3000, GET, 2), Step::Calls(PUT, 1)]],
        wanted: Wanted::Reports(
            Answered {
                returned: 1,
                sum: 1,
                timed_out: 2,
                ..NOTHING
            },
            "base 0\nout 0 0\ngiven 0 0\nentry 1 2 put returned 1\nnow 1\nout 1 1\ngiven 0 0\n\
            memory 0 get\nmemory 1 get\nend\n",
        ),
    },
    Row {
        name: "no time is enough for what does not wait",
        opening: Opening {
            file: BUFFER,
            room: 16,
            workers: 0,
            keeps: false,
        },
        threads: &[&[Step::Within(0, PUT, 2)]],
        wanted: Wanted::Returns(2, 3),
    },
    Row {
        name: "one waits through a hundred chapters",
        opening: Opening {
            file: HELD,
            room: 10,
            workers: 0,
            keeps: false,
        },
        threads: &[&[Step::Calls(TxId(0), 1)], &[Step::Calls(TxId(1), 1000)]],
        wanted: Wanted::Returns(1001, 501_500),
    },
];

#[test]
fn each_call_is_answered(rt: HostRuntime) {
    assert_eq!(rt; wrong(&rt, rt.alloc(), ROWS), None);
}

#[test]
fn each_thing_is_given_once(rt: HostRuntime) {
    let all = played(
        &rt,
        rt.alloc(),
        Opening {
            file: BUFFER,
            room: 3,
            workers: 0,
            keeps: false,
        },
        &[
            &[Step::Calls(GET, 150)],
            &[Step::Calls(GET, 150)],
            &[Step::Calls(PUT, 200)],
            &[Step::Calls(PUT, 100)],
        ],
    );
    let sum = all.of(0).sum.wrapping_add(all.of(1).sum);
    assert_eq!(rt; sum, sum_to(300));
    assert_eq!(rt; all.all().returned, 600);
    // Each answer stands behind the one before.
    assert_eq!(rt; all.all().before, 0);
    assert!(rt; all.chapter > 100);
}

#[test]
fn time_is_up_while_it_is_woken(rt: HostRuntime) {
    let waits: &[Step] = &[Step::Within(1, GET, 200), Step::Within(1, GET, 200)];
    let all = played(
        &rt,
        rt.alloc(),
        Opening {
            file: BUFFER,
            room: 16,
            workers: 0,
            keeps: false,
        },
        &[waits, waits, &[Step::Tries(PUT, 1000)]],
    );
    let count = all.of(0).returned.wrapping_add(all.of(1).returned);
    let sum = all.of(0).sum.wrapping_add(all.of(1).sum);
    assert_eq!(rt; count.wrapping_add(all.all().timed_out), 800);
    // What is given is numbered from 1 on: no number is missing, and none was given to a call whose time was up.
    assert_eq!(rt; sum, sum_to(count));
}
