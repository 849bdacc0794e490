//! The files of the tests.

/// x is 5, and one task adds 1 to it.
pub(crate) const ONE: &str = "(var x 5)(tx inc (set x (add x 1)) x)(run inc 1)";

/// So do two tasks.
pub(crate) const TWO: &str = "(var x 5)(tx inc (set x (add x 1)) x)(run inc 2)";

/// So do three.
pub(crate) const THREE: &str = "(var x 5)(tx inc (set x (add x 1)) x)(run inc 3)";

/// So do two tasks, and one that is a run of its own.
pub(crate) const TWO_AND_ONE: &str = "(var x 5)(tx inc (set x (add x 1)) x)(run inc 2)(run inc 1)";

/// x is 8, and there is no task.
pub(crate) const NONE_AT_8: &str = "(var x 8)(tx inc (set x (add x 1)) x)";

/// So do all tasks that there may be.
pub(crate) const ALL_TASKS: &str = "(var x 5)(tx inc (set x (add x 1)) x)(run inc 65536)";

/// Task 0 waits until x is not 5, task 1 sets y to 1, task 2 x to 6, task 3 x to 5.
pub(crate) const WAITING: &str =
    "(var x 5)(var y 0)(tx wait (if (eq x 5) (retry) (skip)) x)(tx y_to_1 (set y 1) 0)(tx x_to_6 (set x 6) 0)(tx \
        x_to_5 (set x 5) 0)(run wait 1)(run y_to_1 1)(run x_to_6 1)(run x_to_5 1)";

/// Both tasks wait until x is not 5. The transaction that sets it to 6 has no run.
pub(crate) const WAITING_TWICE: &str =
    "(var x 5)(tx wait (if (eq x 5) (retry) (skip)) x)(tx x_to_6 (set x 6) 0)(run wait 2)";

/// x is 5, and has to stay at 6 or less. Task 0 waits until it is not 5, task 1 sets it to 9, task 2
/// to 6.
pub(crate) const STANDING: &str =
    "(stm 2)(var x 5)(always low (le x 6))(tx wait (if (eq x 5) (retry) (skip)) x)(tx x_to_9 (set x 9) 0)(tx x_to_6 \
        (set x 6) 0)(run wait 1)(run x_to_9 1)(run x_to_6 1)";

/// Two wait: one for n to be another value than 0, one for 100 or more. One adds 7.
pub(crate) const HOLDING: &str =
    "(var n 0)(tx inc (set n (add n 7)) n)(tx more (set n (add n 93)) n)(tx wait (if (eq n 0) (retry) (skip)) n)(tx \
        hold (if (lt n 100) (retry) (skip)) n)(run wait 1)(run hold 1)(run inc 1)";

/// What waits for a, for b and for either stands between what ends.
pub(crate) const MIXED: &str =
    "(var a 0)(var b 0)(tx wait_a (if (eq a 0) (retry) (skip)) a)(tx wait_b (if (eq b 0) (retry) (skip)) b)(tx \
        wait_ab (if (eq a 0) (if (eq b 0) (retry) (skip)) (skip)) (add a b))(tx none (skip) 0)(tx set_a (set a 1) \
        1)(tx set_b (set b 2) 2)(run none 3)(run wait_a 2)(run none 1)(run wait_b 2)(run none 70)(run wait_ab \
        2)(run none 2)(run wait_a 1)";

/// Of all tasks that there may be, the first, the 64th, the 65th and the last wait for n to be 9 or more;
/// each of the others adds 0 to it. One more transaction sets it to 9.
pub(crate) const FAR_APART: &str =
    "(var n 0)(tx wait (if (lt n 9) (retry) (skip)) n)(tx none (set n (add n 0)) n)(tx to_9 (set n 9) 9)(run wait \
        1)(run none 62)(run wait 2)(run none 65470)(run wait 1)";

/// The same, where n is the last of 300 cells.
pub(crate) const FAR_APART_WIDE: &str =
    "(stm 3)(table n 300 0)(tx wait () (if (lt (at n 299) 9) (retry) (skip)) (at n 299))(tx none () (put n 299 (add (at \
        n 299) 0)) (at n 299))(tx to_9 () (put n 299 9) 9)(run wait 1)(run none 62)(run wait 2)(run none 65470)(run wait 1)";

/// `add` gives x so much. `take` waits for x to be so much, takes so much of it, and tells what was left over.
pub(crate) const GIVING: &str =
    "(stm 3)(var x 0)(tx none () (skip) 0)(tx add (n) (set x (add x n)) x)(tx take (n m) (if (lt x n) (retry) (set x \
        (sub x m))) (sub n m))(run add 1 5)(run take 1 9 2)(run none 1)(run take 1 7 3)";

/// Four accounts with 100 each. `pay` moves so much from one to another, `all` tells the sum, and `wait` waits for the
/// first to have so much.
pub(crate) const BANK: &str =
    "(stm 3)(table acct 4 100)(tx pay (from to n) (seq (put acct from (sub (at acct from) n)) (put acct to (add (at \
        acct to) n))) (at acct to)) (tx all () (skip) (sum acct)) (tx wait (n) (if (lt (at acct 0) n) (retry) (seq \
        (put acct 3 1) (put acct 3 2))) n) (run wait 1 105) (run pay 1 3 0 7)(run all 1)(run pay 1 2 2 5)(run pay 1 \
        1 4 9)(run pay 1 2 2 0)";

/// 300 cells, all 0. Task 2 waits for the cell 299 and task 5 for the cell 43, whose number has the same low bits.
pub(crate) const MANY_CELLS: &str =
    "(stm 3)(table t 300 0)(tx wait (i) (if (eq (at t i) 0) (retry) (skip)) (at t i))(tx none () (skip) 0)(tx fill \
        (i) (put t i 7) 0)(run none 2)(run wait 1 299)(run none 2)(run wait 1 43)";
