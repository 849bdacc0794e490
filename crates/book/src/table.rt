//! How each task stands, with the sets by which the lowest ready task and those to wake are found.
//!
//! A task stands in eight bytes, and a task that is never parked has nothing beside. What a parked task
//! read lies in a row of bytes: the numbers of the variables, in the order of reading. With more variables
//! than sets it lies in the log itself, which is moved here. The values are not looked at: while it is parked
//! they are the present ones, since a commit that changes one wakes it.

ghost use Rattle.std.specs.Prelude.{◌≡◌, ◌≢◌, ◌<◌, ◌≤◌, ◌^◌, ℕ, length, map, replicate, IfOk, IfSome, IfNone};
ghost use Rattle.std.specs.Prelude.{MatchBool, MatchOption, Some, All, true, false, slice_get, slice_set};
ghost use Rattle.std.specs.Prelude.{slice_index_or, cond, drop, take, ◌-◌, ◌+◌, ◌++◌, ◌∷◌, [], vec_len, vec_capacity};
ghost use Rattle.txn_programs.specs.declared.limits.TheConstants.{MAX_TASKS, MAX_VALUES};
ghost use Rattle.book.specs.declared.sleepers.TheConstants.{MAX_SETS};
ghost use Rattle.attempt.specs.Order.{AllKnown, Apart};
ghost use Rattle.cells.specs.Publishing.{AreWrites, changes_of};
ghost use Rattle.book.specs.Tasks as Task;
ghost use Rattle.book.specs.Standings.{bare, unlogged};
ghost use Rattle.book.specs.Turns.{readied_one};
ghost use Rattle.book.specs.Carrying.{stays, carried, carried_on, settled};
ghost use Rattle.book.specs.Recorded.{told_as};
ghost use Rattle.book.specs.Counting.{IsTally};
ghost use Rattle.book.specs.Table.{AreWaiting, IsParked, IsWaiting, IsTaken, placed, with_tasks, with_one_more};
ghost use Rattle.book.specs.Table.{IsFirstFrom, IsTakenFrom};
ghost use Rattle.book.specs.Table.{waits_for, woken_for, woken_by, unvalued};

use crate::bits::lowest_bit;
use crate::counting::Tally;
use crate::names::{
    forget, has_name, keep_log, keep_names, move_log, move_row, room_for_logs, room_for_rows,
    row_of,
};
use crate::sleepers::{MAX_SETS, enter, enter_row, leave, leave_log, none_asleep};
use crate::standing::{Standing, told};
use crate::task::{Slot, ended, stand, stays, trade};
use attempt::Log;
use book_storage::TaskSet;
use std::alloc::{AllocError, Global};
use std::marker::Model;
use txn::{TaskId, VarId};

/// How each task stands. A clause sees the tasks, and for how many variables they can wait; the log
/// of a parked task names its variables, and tells 0 of each.
pub struct TaskTable {
    standings: Vec<Slot>,
    /// How many of them stand how.
    tally: Tally,
    /// How many tasks more there is room for.
    spare: usize,
    /// The ready tasks.
    ready: TaskSet,
    /// How many variables a task can wait for.
    variables: usize,
    /// For the low eight bits of a variable's number the parked tasks whose log names such a variable.
    sleepers: Vec<TaskSet>,
    /// A row for each task, as far up as tasks have been parked: a byte for each variable. None with more
    /// variables than sets.
    names: Vec<u8>,
    /// With more variables than sets what each parked task read, as far up as tasks have been parked: an empty
    /// log for each other one. Else there are none.
    logs: Vec<Log>,
}

/// Written by hand, so that its end is one call wherever a table is owned.
impl Drop for TaskTable {
    fn drop(self) {
        let TaskTable {
            standings: _standings,
            tally: _,
            spare: _,
            ready: _ready,
            variables: _,
            sleepers: _sleepers,
            names: _names,
            logs: _logs,
        } = self;
    }
}

impl Model for TaskTable {
    ghost use Rattle.std.specs.Coded.{codes};
    ghost use Rattle.book.specs.Table.{TableView};

    ghost Value = { TableView };

    ghost coded = { Prim.hlevel (codes) };

    ghost use Rattle.book.specs.TableInside.{table_of, IsSorted};

    ghost view = { table_of };

    ghost invariant = { IsSorted };
}

impl TaskTable {
    /// All tasks ready, and none waits for a variable; room for so many tasks more. It is the one call
    /// that takes memory.
    pub fn open(
        alloc: Global,
        count: usize,
        spare: usize,
        variables: usize,
    ) -> Result<TaskTable, AllocError>
        requires few { count + spare ≤ MAX_TASKS }
        requires few_variables { variables ≤ MAX_VALUES }
        ensures tasks { IfOk result (λ b. b.tasks ≡ replicate count Task.Ready) }
        ensures variables { IfOk result (λ b. b.variables ≡ variables) }
        ensures spare { IfOk result (λ b. b.spare ≡ spare) }
    {
        let room = count + spare;
        Ok(TaskTable {
            standings: all_ready(alloc, count, room)?,
            tally: Tally {
                running: 0,
                parked: 0,
                given_up: 0,
            },
            spare,
            ready: TaskSet::of_first(alloc, count, room)?,
            variables,
            sleepers: none_asleep(alloc, variables, room)?,
            names: room_for_rows(alloc, variables, room)?,
            logs: room_for_logs(alloc, variables, room)?,
        })
    }

    /// How many tasks run, are parked and are given up.
    pub fn tally(&self) -> Tally
        ensures { IsTally self.now.tasks result }
    {
        self.tally
    }

    /// How each task stands.
    pub fn standings(&self) -> &[Slot]
        ensures { map bare result.now ≡ map unlogged self.now.tasks }
    {
        &self.standings
    }

    /// How many tasks there are.
    pub fn len(&self) -> usize
        ensures { result ≡ length self.now.tasks }
    {
        self.standings.len()
    }

    pub fn is_running(&self, task: TaskId) -> bool
        requires { task.0 < length self.now.tasks }
        ensures { MatchBool result (slice_get self.now.tasks task.0 ≡ Some Task.Running)
            (slice_get self.now.tasks task.0 ≢ Some Task.Running) }
    {
        matches!(&self.standings[task.0 as usize], Slot::Running)
    }

    /// What is told of how a task stands.
    pub fn standing(&self, task: TaskId) -> Standing
        requires { task.0 < length self.now.tasks }
        ensures { slice_get (map told_as self.now.tasks) task.0 ≡ Some result }
    {
        told(&self.standings[task.0 as usize])
    }

    /// The lowest ready task, which is then running.
    pub fn take(&mut self) -> Option<TaskId>
        ensures { IsTaken self.old result self.new }
    {
        let found = self.ready.lowest()?;
        self.ready.remove(found);
        let task = TaskId(found as u32);
        stand(
            &mut self.standings,
            &mut self.tally,
            task,
            &Slot::Ready,
            Slot::Running,
        );
        Some(task)
    }

    /// The first ready task at or behind a number, or else the lowest, which is then running.
    pub fn take_from(&mut self, number: usize) -> Option<TaskId>
        ensures { IsTakenFrom number self.old result self.new }
    {
        let task = self.first_ready(number)?;
        self.claim(task);
        Some(task)
    }

    /// The first ready task at or behind a number, or else the lowest.
    fn first_ready(&self, number: usize) -> Option<TaskId>
        ensures { MatchOption result ((k : ℕ) → slice_get self.now.tasks k ≢ Some Task.Ready)
            (λ task. IsFirstFrom number self.now.tasks task.0) }
    {
        if let Some(found) = self.ready.first_from(number) {
            return Some(TaskId(found as u32));
        }
        let lowest = self.ready.lowest()?;
        Some(TaskId(lowest as u32))
    }

    /// A ready task is running.
    pub fn claim(&mut self, task: TaskId)
        requires { slice_get self.old.tasks task.0 ≡ Some Task.Ready }
        ensures { self.new ≡ placed self.old task Task.Running }
    {
        self.ready.remove(task.0 as usize);
        stand(
            &mut self.standings,
            &mut self.tally,
            task,
            &Slot::Ready,
            Slot::Running,
        );
    }

    /// A ready task is given up.
    fn drop_ready(&mut self, task: TaskId)
        requires { slice_get self.old.tasks task.0 ≡ Some Task.Ready }
        ensures { self.new ≡ placed self.old task Task.GivenUp }
    {
        self.claim(task);
        self.give_up(task);
    }

    /// A parked task is given up.
    fn drop_parked(&mut self, task: TaskId)
        requires { IsParked (slice_get self.old.tasks task.0) }
        ensures { self.new ≡ placed self.old task Task.GivenUp }
    {
        self.unpark(task);
        self.drop_ready(task);
    }

    /// A parked task is ready.
    fn unpark(&mut self, task: TaskId)
        requires { IsParked (slice_get self.old.tasks task.0) }
        ensures { self.new ≡ placed self.old task Task.Ready }
    {
        if self.is_wide() {
            self.rouse_wide(task);
        } else {
            self.rouse(task);
        }
    }

    /// A ready or a parked task is given up. `false` and no change where it was neither.
    pub fn withdraw(&mut self, task: TaskId) -> bool
        requires { task.0 < length self.old.tasks }
        ensures { MatchBool result
            (IsWaiting (slice_get self.old.tasks task.0) × (self.new ≡ placed self.old task Task.GivenUp))
            (¬ (IsWaiting (slice_get self.old.tasks task.0)) × (self.new ≡ self.old)) }
    {
        match &self.standings[task.0 as usize] {
            Slot::Ready => {
                self.drop_ready(task);
                true
            }
            Slot::Parked(_) => {
                self.drop_parked(task);
                true
            }
            _ => false,
        }
    }

    /// Whether the task can be taken.
    pub fn is_ready(&self, task: TaskId) -> bool
        requires { task.0 < length self.now.tasks }
        ensures { MatchBool result (slice_get self.now.tasks task.0 ≡ Some Task.Ready)
            (slice_get self.now.tasks task.0 ≢ Some Task.Ready) }
    {
        matches!(&self.standings[task.0 as usize], Slot::Ready)
    }

    /// The number of a done task's entry. `None` exactly where it is not done.
    pub fn number_of(&self, task: TaskId) -> Option<u64>
        requires { task.0 < length self.now.tasks }
        ensures some { IfSome result (λ n. slice_get self.now.tasks task.0 ≡ Some (Task.Done n)) }
        ensures none { IfNone result ((n : ℕ) → slice_get self.now.tasks task.0 ≢ Some (Task.Done n)) }
    {
        match &self.standings[task.0 as usize] {
            Slot::Done(number) => Some(u64::from(*number)),
            _ => None,
        }
    }

    /// A ready task more, for which there is room. It takes no memory.
    pub fn add(&mut self) -> TaskId
        requires { 0 < self.old.spare }
        ensures task { result.0 ≡ length self.old.tasks }
        ensures added { self.new ≡ with_one_more self.old }
    {
        let task = TaskId(self.standings.len() as u32);
        self.spare -= 1;
        add_ready(&mut self.standings);
        self.ready.insert(task.0 as usize);
        task
    }

    /// A running task more, for which there is room. It takes no memory.
    #[inline(always)]
    pub fn add_running(&mut self) -> TaskId
        requires { 0 < self.old.spare }
        ensures task { result.0 ≡ length self.old.tasks }
        ensures added { self.new ≡ placed (with_one_more self.old) result Task.Running }
    {
        let task = TaskId(self.standings.len() as u32);
        let spare = self.spare;
        self.spare = spare - 1;
        let standings = &mut self.standings;
        add_ready(standings);
        // So it never comes into the set of the ready tasks.
        stand(
            standings,
            &mut self.tally,
            task,
            &Slot::Ready,
            Slot::Running,
        );
        task
    }

    /// How many tasks more there is room for.
    pub fn spare(&self) -> usize
        ensures { result ≡ self.now.spare }
    {
        self.spare
    }

    /// A running task is done, with the journal entry of this number.
    pub fn finish(&mut self, task: TaskId, number: u64)
        requires running { slice_get self.old.tasks task.0 ≡ Some Task.Running }
        requires few { number < 2 ^ 32 }
        ensures { self.new ≡ placed self.old task (Task.Done number) }
    {
        stand(
            &mut self.standings,
            &mut self.tally,
            task,
            &Slot::Running,
            Slot::Done(number as u32),
        );
    }

    /// A running task is given up.
    pub fn give_up(&mut self, task: TaskId)
        requires { slice_get self.old.tasks task.0 ≡ Some Task.Running }
        ensures { self.new ≡ placed self.old task Task.GivenUp }
    {
        stand(
            &mut self.standings,
            &mut self.tally,
            task,
            &Slot::Running,
            Slot::GivenUp,
        );
    }

    /// Whether variables share sets: then a parked task keeps its log.
    #[inline(always)]
    pub fn is_wide(&self) -> bool
        ensures { MatchBool result (MAX_SETS < self.now.variables) (self.now.variables ≤ MAX_SETS) }
    {
        self.variables > MAX_SETS
    }

    /// A running task waits for a change of a logged variable, where each variable has a set of its own. It
    /// takes no memory.
    pub fn park(&mut self, task: TaskId, log: &[(VarId, i64)])
        requires narrow { self.old.variables ≤ MAX_SETS }
        requires running { slice_get self.old.tasks task.0 ≡ Some Task.Running }
        requires known { AllKnown self.old.variables log.now }
        requires apart { Apart log.now }
        ensures { self.new ≡ placed self.old task (Task.Parked (unvalued log.now)) }
    {
        let at = task.0 as usize;
        let width = self.variables;
        keep_names(&mut self.names, width, at, log);
        enter(&mut self.sleepers, log, at);
        let count = log.len() as u32;
        stand(
            &mut self.standings,
            &mut self.tally,
            task,
            &Slot::Running,
            Slot::Parked(count),
        );
    }

    /// As `park`, where variables share sets. The log stays here.
    #[cold]
    #[inline(never)]
    pub fn park_wide(&mut self, task: TaskId, log: Log)
        requires wide { MAX_SETS < self.old.variables }
        requires running { slice_get self.old.tasks task.0 ≡ Some Task.Running }
        requires known { AllKnown self.old.variables log }
        ensures { self.new ≡ placed self.old task (Task.Parked (unvalued log)) }
    {
        let at = task.0 as usize;
        let pairs = log.as_slice();
        enter(&mut self.sleepers, pairs, at);
        let count = pairs.len() as u32;
        keep_log(&mut self.logs, at, log);
        stand(
            &mut self.standings,
            &mut self.tally,
            task,
            &Slot::Running,
            Slot::Parked(count),
        );
    }

    /// Each running task is ready.
    pub fn ready_all(&mut self)
        ensures { self.new ≡ with_tasks self.old (map readied_one self.old.tasks) }
    {
        for i in 0..self.standings.len() {
            let task = TaskId(i as u32);
            if self.is_running(task) {
                self.make_ready(task);
            }
        }
    }

    /// What has ended goes, and every other task has the next number in the order of these: a running one
    /// is ready, and a parked one waits as it did. They are so many, and behind the last of them it looks at
    /// no task. What the others leave is room again. It takes no memory.
    pub fn carry_on(&mut self, count: usize)
        requires { count ≡ length (carried self.old.tasks) }
        ensures { self.new ≡ carried_on self.old }
    {
        // To look at a field is to be told what the type keeps: that there are not too many tasks.
        let _all = self.standings.len();
        let mut kept = 0;
        let mut i = 0;
        'tasks: while kept < count {
            kept = self.settle(i, kept);
            i += 1;
        }
        self.cut(kept);
    }

    /// Where the task `from` stays it has the number `to`, its own or a lower one that no ready or parked
    /// task has. The number for the next that stays.
    fn settle(&mut self, from: usize, to: usize) -> usize
        requires from { from < length self.old.tasks }
        requires to { to ≤ from }
        requires free { to < from → ¬ (IsWaiting (slice_get self.old.tasks to)) }
        ensures next { result ≡ to + cond (stays (slice_index_or self.old.tasks from Task.Running)) 1 0 }
        ensures settled { self.new
            ≡ with_tasks self.old (settled (slice_index_or self.old.tasks from Task.Running) from to self.old.tasks) }
    {
        if !stays(&self.standings[from]) {
            return to;
        }
        if to < from {
            self.vacate(TaskId(to as u32));
            self.lower(from, to);
            return to + 1;
        }
        self.make_running_ready(TaskId(from as u32));
        to + 1
    }

    /// A running task is ready, and any other stands as it did.
    fn make_running_ready(&mut self, task: TaskId)
        requires { task.0 < length self.old.tasks }
        ensures { self.new ≡ placed self.old task (readied_one (slice_index_or self.old.tasks task.0 Task.Running)) }
    {
        if self.is_running(task) {
            self.make_ready(task);
        }
    }

    /// What has ended leaves its place, where it has not left it yet.
    fn vacate(&mut self, task: TaskId)
        requires within { task.0 < length self.old.tasks }
        requires free { ¬ (IsWaiting (slice_get self.old.tasks task.0)) }
        ensures { self.new ≡ placed self.old task Task.Running }
    {
        if !stays(&self.standings[task.0 as usize]) {
            self.clear(task);
        }
    }

    /// A task that stays has the number `to`, at which nobody stands.
    fn lower(&mut self, from: usize, to: usize)
        requires from { from < length self.old.tasks }
        requires to { to ≤ from }
        requires free { to < from → slice_get self.old.tasks to ≡ Some Task.Running }
        requires stays { stays (slice_index_or self.old.tasks from Task.Running) ≡ true }
        ensures { self.new
            ≡ with_tasks self.old
            (slice_set (slice_set self.old.tasks from Task.Running) to
            (readied_one (slice_index_or self.old.tasks from Task.Running))) }
    {
        match &self.standings[from] {
            Slot::Ready => {
                self.claim(TaskId(from as u32));
                self.make_ready(TaskId(to as u32));
            }
            Slot::Running => self.make_ready(TaskId(to as u32)),
            Slot::Parked(_) => {
                if to < from {
                    self.shift(from, to);
                }
            }
            _ => unreachable!(),
        }
    }

    /// A task that has ended leaves its place.
    fn clear(&mut self, task: TaskId)
        requires within { task.0 < length self.old.tasks }
        requires ended { stays (slice_index_or self.old.tasks task.0 Task.Running) ≡ false }
        ensures { self.new ≡ placed self.old task Task.Running }
    {
        let was = ended(&self.standings[task.0 as usize]);
        stand(
            &mut self.standings,
            &mut self.tally,
            task,
            &was,
            Slot::Running,
        );
    }

    /// A parked task has a lower number, at which nobody stands.
    fn shift(&mut self, from: usize, to: usize)
        requires parked { IsParked (slice_get self.old.tasks from) }
        requires below { to < from }
        requires free { slice_get self.old.tasks to ≡ Some Task.Running }
        ensures { self.new
            ≡ with_tasks self.old
            (slice_set (slice_set self.old.tasks from Task.Running) to
            (slice_index_or self.old.tasks from Task.Running)) }
    {
        if self.is_wide() {
            self.shift_wide(from, to);
        } else {
            self.shift_row(from, to);
        }
    }

    /// As `shift`, where variables share sets.
    fn shift_wide(&mut self, from: usize, to: usize)
        requires wide { MAX_SETS < self.old.variables }
        requires parked { IsParked (slice_get self.old.tasks from) }
        requires below { to < from }
        requires free { slice_get self.old.tasks to ≡ Some Task.Running }
        ensures { self.new
            ≡ with_tasks self.old
            (slice_set (slice_set self.old.tasks from Task.Running) to
            (slice_index_or self.old.tasks from Task.Running)) }
    {
        let Slot::Parked(count) = &self.standings[from] else {
            unreachable!()
        };
        let count = *count;
        leave_log(&mut self.sleepers, self.logs[from].as_slice(), from);
        enter(&mut self.sleepers, self.logs[from].as_slice(), to);
        move_log(&mut self.logs, from, to);
        trade(&mut self.standings, from, to, count);
    }

    /// As `shift`, where each variable has a set of its own.
    fn shift_row(&mut self, from: usize, to: usize)
        requires narrow { self.old.variables ≤ MAX_SETS }
        requires parked { IsParked (slice_get self.old.tasks from) }
        requires below { to < from }
        requires free { slice_get self.old.tasks to ≡ Some Task.Running }
        ensures { self.new
            ≡ with_tasks self.old
            (slice_set (slice_set self.old.tasks from Task.Running) to
            (slice_index_or self.old.tasks from Task.Running)) }
    {
        let Slot::Parked(count) = &self.standings[from] else {
            unreachable!()
        };
        let count = *count;
        let width = self.variables;
        move_row(&mut self.names, width, from, to, count as usize);
        let row = row_of(&self.names, width, to, count as usize);
        leave(&mut self.sleepers, row, from);
        enter_row(&mut self.sleepers, row, to);
        trade(&mut self.standings, from, to, count);
    }

    /// There are so many tasks, all of them ready or parked: what stands behind them is in no set.
    fn cut(&mut self, count: usize)
        requires within { count ≤ length self.old.tasks }
        requires waiting { All (λ t. IsWaiting (Some t)) (take count self.old.tasks) }
        requires free { All (λ t. ¬ (IsWaiting (Some t))) (drop count self.old.tasks) }
        ensures tasks { self.new.tasks ≡ take count self.old.tasks }
        ensures variables { self.new.variables ≡ self.old.variables }
        ensures spare { self.new.spare ≡ self.old.spare + (length self.old.tasks - count) }
    {
        self.spare += self.standings.len() - count;
        self.tally.running = 0;
        self.tally.given_up = 0;
        self.standings.truncate(count);
    }

    /// The parked tasks whose log names a variable that a write changes are ready. Where none is parked, it looks at no
    /// write.
    #[inline(always)]
    pub fn wake(&mut self, writes: &[(VarId, i64)], values: &[i64])
        requires writes { AreWrites values.now writes.now }
        requires valued { length values.now ≡ self.old.variables }
        ensures { self.new ≡ with_tasks self.old (map (woken_by (changes_of values.now writes.now)) self.old.tasks) }
    {
        if self.tally().parked == 0 {
            return;
        }
        self.wake_each(writes, values);
    }

    /// As `wake`. It is a call, so that a commit that wakes nobody stays short.
    #[inline(never)]
    fn wake_each(&mut self, writes: &[(VarId, i64)], values: &[i64])
        requires writes { AreWrites values.now writes.now }
        requires valued { length values.now ≡ self.old.variables }
        ensures { self.new ≡ with_tasks self.old (map (woken_by (changes_of values.now writes.now)) self.old.tasks) }
    {
        if self.variables > MAX_SETS {
            self.wake_each_among(writes, values);
            return;
        }
        for write in writes {
            if values[write.0.0 as usize] != write.1 {
                self.wake_for(write.0.0 as usize);
            }
        }
    }

    /// As `wake`, where variables share sets.
    #[cold]
    #[inline(never)]
    fn wake_each_among(&mut self, writes: &[(VarId, i64)], values: &[i64])
        requires wide { MAX_SETS < self.old.variables }
        requires writes { AreWrites values.now writes.now }
        requires valued { length values.now ≡ self.old.variables }
        ensures { self.new ≡ with_tasks self.old (map (woken_by (changes_of values.now writes.now)) self.old.tasks) }
    {
        for write in writes {
            if values[write.0.0 as usize] != write.1 {
                self.wake_among(write.0.0 as usize);
            }
        }
    }

    /// The parked tasks whose log names the variable are ready. Each variable has a set of its own.
    fn wake_for(&mut self, variable: usize)
        requires known { variable < self.old.variables }
        requires narrow { self.old.variables ≤ MAX_SETS }
        ensures { self.new ≡ with_tasks self.old (map (woken_for variable) self.old.tasks) }
    {
        let mut first = 0;
        let mut left = 0;
        while let Some((at, members)) = self.next_waiting(variable, first, left) {
            let (place, rest) = lowest_bit(members);
            first = at;
            left = rest;
            self.rouse(TaskId((at + place) as u32));
        }
    }

    /// As `wake_for`, where variables share a set: a task of the set is passed by where it waits for others of
    /// them alone.
    fn wake_among(&mut self, variable: usize)
        requires wide { MAX_SETS < self.old.variables }
        requires known { variable < self.old.variables }
        ensures { self.new ≡ with_tasks self.old (map (woken_for variable) self.old.tasks) }
    {
        let mut from = 0;
        while let Some(at) = self.next_among(variable, from) {
            self.rouse_for(TaskId(at as u32), variable);
            from = at + 1;
        }
    }

    /// A parked task is ready where its log names the variable, and else stays as it is.
    fn rouse_for(&mut self, task: TaskId, variable: usize)
        requires wide { MAX_SETS < self.old.variables }
        requires parked { IsParked (slice_get self.old.tasks task.0) }
        ensures { self.new
            ≡ placed self.old task (woken_for variable (slice_index_or self.old.tasks task.0 Task.Running)) }
    {
        if self.is_waiting_for(task, variable) {
            self.rouse_wide(task);
        }
    }

    /// The lowest task, from a number on, that waits for this variable or another one of its set. `None` where
    /// no task from there on waits for the variable.
    fn next_among(&self, variable: usize, from: usize) -> Option<usize>
        requires { variable < self.now.variables }
        ensures parked { IfSome result (λ k. IsParked (slice_get self.now.tasks k)) }
        ensures behind { IfSome result (λ k. from ≤ k) }
        ensures before { IfSome result (λ k. (j : ℕ) → from ≤ j → j < k
            → slice_get (map (waits_for variable) self.now.tasks) j ≢ Some true) }
        ensures none { IfNone result ((j : ℕ) → from ≤ j
            → slice_get (map (waits_for variable) self.now.tasks) j ≢ Some true) }
        ensures few { length self.now.tasks ≤ MAX_TASKS }
    {
        self.sleepers[variable % MAX_SETS].first_from(from)
    }

    /// Whether the log of a parked task names the variable, where variables share sets.
    fn is_waiting_for(&self, task: TaskId, variable: usize) -> bool
        requires wide { MAX_SETS < self.now.variables }
        requires parked { IsParked (slice_get self.now.tasks task.0) }
        ensures { slice_get (map (waits_for variable) self.now.tasks) task.0 ≡ Some result }
    {
        has_name(self.logs[task.0 as usize].as_slice(), variable)
    }

    /// Of the tasks that wait for the variable 64 numbers: those of this word where one is left in it,
    /// else the lowest. `None` where no task waits for it.
    fn next_waiting(&self, variable: usize, first: usize, left: u64) -> Option<(usize, u64)>
        requires known { variable < self.now.variables }
        requires narrow { self.now.variables ≤ MAX_SETS }
        requires left { AreWaiting self.now.tasks variable first left }
        ensures some { IfSome result (λ p. p.1 ≢ 0) }
        ensures waiting { IfSome result (λ p. AreWaiting self.now.tasks variable p.0 p.1) }
        ensures none { IfNone result ((k : ℕ) → slice_get (map (waits_for variable) self.now.tasks) k ≢ Some true) }
        ensures few { length self.now.tasks ≤ MAX_TASKS }
    {
        let asleep = &self.sleepers[variable];
        if left != 0 {
            return Some((first, left));
        }
        asleep.lowest_word()
    }

    /// A parked task is ready, and waits for no variable. Its log is let go.
    #[cold]
    #[inline(never)]
    fn rouse_wide(&mut self, task: TaskId)
        requires wide { MAX_SETS < self.old.variables }
        requires parked { IsParked (slice_get self.old.tasks task.0) }
        ensures { self.new ≡ placed self.old task Task.Ready }
    {
        let at = task.0 as usize;
        let Slot::Parked(count) = &self.standings[at] else {
            unreachable!()
        };
        let count = *count;
        forget(&mut self.logs, &mut self.sleepers, at);
        stand(
            &mut self.standings,
            &mut self.tally,
            task,
            &Slot::Parked(count),
            Slot::Ready,
        );
        self.ready.insert(at);
    }

    /// As `rouse_wide`, where each variable has a set of its own.
    fn rouse(&mut self, task: TaskId)
        requires narrow { self.old.variables ≤ MAX_SETS }
        requires parked { IsParked (slice_get self.old.tasks task.0) }
        ensures { self.new ≡ placed self.old task Task.Ready }
    {
        let at = task.0 as usize;
        let Slot::Parked(count) = &self.standings[at] else {
            unreachable!()
        };
        let count = *count;
        let width = self.variables;
        let row = row_of(&self.names, width, at, count as usize);
        leave(&mut self.sleepers, row, at);
        stand(
            &mut self.standings,
            &mut self.tally,
            task,
            &Slot::Parked(count),
            Slot::Ready,
        );
        self.ready.insert(at);
    }

    /// A running task is ready.
    fn make_ready(&mut self, task: TaskId)
        requires { slice_get self.old.tasks task.0 ≡ Some Task.Running }
        ensures { self.new ≡ placed self.old task Task.Ready }
    {
        stand(
            &mut self.standings,
            &mut self.tally,
            task,
            &Slot::Running,
            Slot::Ready,
        );
        self.ready.insert(task.0 as usize);
    }
}

/// So many ready tasks, and room for tasks up to this many.
fn all_ready(alloc: Global, count: usize, room: usize) -> Result<Vec<Slot>, AllocError>
    ensures tasks { IfOk result (λ v. v.items ≡ replicate count Slot.Ready) }
    ensures room { IfOk result (λ v. room ≤ vec_capacity v) }
{
    let mut standings = Vec::with_capacity(alloc, room)?;
    for _ in 0..count {
        standings.push(Slot::Ready)?;
    }
    Ok(standings)
}

/// Adds a ready task, for which there is room.
#[inline(always)]
fn add_ready(standings: &mut Vec<Slot>)
    requires { vec_len standings.old < vec_capacity standings.old }
    ensures items { standings.new.items ≡ standings.old.items ++ Slot.Ready ∷ [] }
    ensures capacity { vec_capacity standings.old ≤ vec_capacity standings.new }
{
    match standings.push(Slot::Ready) {
        Ok(()) => {}
        Err(_) => unreachable!(),
    }
}
