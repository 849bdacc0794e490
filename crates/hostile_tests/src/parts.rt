//! The files of the tests.

use txn::TaskId;

pub(crate) const A: TaskId = TaskId(0);

pub(crate) const B: TaskId = TaskId(1);

/// How many variables `MANY` has. An attempt has room for the first eight.
pub(crate) const VARIABLES: u32 = 10;

/// How many cells a task of `FAR` reads: more than an index of 16 buckets has room for.
pub(crate) const CELLS: u32 = 18;

/// Two tasks, which add 1 to each variable, the first of them in a branch that takes the place of one
/// that retries.
pub(crate) const MANY: &str =
    "(var a 6)(var b 6)(var c 6)(var d 6)(var e 6)(var f 6)(var g 6)(var h 6)(var i 6)(var j 6)\
    (tx all (seq (orelse (seq (set a 1) (retry)) (set a (add a 1))) (set b (add b 1)) (set c (add c 1)) \
    (set d (add d 1)) (set e (add e 1)) (set f (add f 1)) (set g (add g 1)) (set h (add h 1)) (set i (add i 1)) \
    (set j (add j 1))) a)(run all 2)";

/// Two tasks, which add 1 to each of so many cells, once in a branch that retries, and then for good. An index finds
/// these cells in the log and among the writes.
pub(crate) const FAR: &str =
    "(stm 3)(var i 290)(table t 400 6)(tx all () (seq (orelse (seq (set i 290) (repeat 18 (seq \
    (put t i (add (at t i) 1)) (set i (add i 1)))) (retry)) (set i 290)) \
    (repeat 18 (seq (put t i (add (at t i) 1)) (set i (add i 1))))) (at t 290))(run all 2)";
