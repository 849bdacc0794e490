//! Books at the sizes that there may be, with ample memory: all 256 variables written by one task,
//! and all 65,536 tasks, in one chapter after another.

use crate::chapters::{FAR_ONES, ROOM_AGAIN};
use crate::looks::{Look, Said};
use crate::rows::{Row, Step, What, first_wrong_in, first_wrong_row};
use crate::texts::{ALL_TASKS, FAR_APART, FAR_APART_WIDE, ONE};
use book::{Finish, Serial};
use std::alloc::AllocError;
use std::fmt::Write;
use txn::{TaskId, TxId, VarId};

/// 256 variables, all 0, and a transaction that adds 1 to each of them and runs twice.
fn put_all(text: &mut String) -> Result<(), AllocError> {
    for i in 0..256u32 {
        write!(text, "(var v{i} 0)")?;
    }
    write!(text, "(tx all (seq")?;
    for i in 0..256u32 {
        write!(text, " (set v{i} (add v{i} 1))")?;
    }
    write!(text, ") v0)(run all 2)")
}

/// Both tasks commit, one by a turn and one by an attempt that read all variables.
const COMMITS_ALL: &What = &What::Steps(&[
    Step::Takes(Some(TaskId(0))),
    Step::Takes(Some(TaskId(1))),
    Step::Turns(TaskId(0), Serial::Committed(1)),
    Step::Ends(TaskId(1), &[1; 256], (256, 256), Finish::Committed(2)),
    Step::Shows(Look::Present(VarId(255), Some((2, 2)))),
    Step::Shows(Look::Present(VarId(256), None)),
    Step::Says(Said::Last(256, (2, 2))),
]);

#[test]
fn all_variables_are_written_and_committed(rt: HostRuntime) {
    let mut text = String::new(rt.alloc());
    let is_put = put_all(&mut text).is_ok();
    let wrong = first_wrong_in(rt.alloc(), text.as_str(), None, COMMITS_ALL);
    assert!(rt; is_put && wrong.is_none());
}

/// Each of the tasks commits, and the report has an entry for each.
const RUNS_ALL: &[Step] = &[
    Step::Drains(0),
    Step::Shows(Look::Journal(65536)),
    Step::Says(Said::X((0, 5, 0), 65536, (65536, 65541, 65536))),
    Step::Says(Said::Parked(&[])),
    Step::Says(Said::Memory(&[])),
];

/// There is room for all tasks that there may be.
const MANY_MORE: &[Step] = &[
    Step::Fills(TxId(0), 65536),
    Step::Submits(TxId(0), None),
    Step::Shows(Look::Tasks(65536)),
];

const OF_ONE_CHAPTER: &[Row] = &[
    (
        "all tasks run and are reported",
        ALL_TASKS,
        None,
        What::Steps(RUNS_ALL),
    ),
    (
        "tasks are submitted up to the limit",
        ONE,
        Some(65535),
        What::Steps(MANY_MORE),
    ),
];

#[test]
fn all_tasks_have_room(rt: HostRuntime) {
    assert_eq!(rt; first_wrong_row(rt.alloc(), OF_ONE_CHAPTER), None);
}

const OF_CHAPTERS: &[Row] = &[
    (
        "a full book has room in its next chapter",
        ALL_TASKS,
        None,
        What::Steps(ROOM_AGAIN),
    ),
    (
        "those far apart come over",
        FAR_APART,
        None,
        What::Steps(FAR_ONES),
    ),
];

#[test]
fn full_books_begin_chapters(rt: HostRuntime) {
    assert_eq!(rt; first_wrong_row(rt.alloc(), OF_CHAPTERS), None);
}

const OF_CELLS: &[Row] = &[(
    "those far apart come over where there are cells",
    FAR_APART_WIDE,
    None,
    What::Steps(FAR_ONES),
)];

#[test]
fn full_books_of_cells_begin_chapters(rt: HostRuntime) {
    assert_eq!(rt; first_wrong_row(rt.alloc(), OF_CELLS), None);
}
