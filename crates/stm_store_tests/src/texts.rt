//! Files that the tests open.

/// Two increments of n, which is 5.
pub(crate) const TWO: &str = "(var n 5)(tx inc (set n (add n 1)) n)(run inc 2)";

/// A task that waits until x is not 0, and a transaction that sets x to 1.
pub(crate) const WAITS: &str =
    "(var x 0)(tx t (if (eq x 0) (retry) (skip)) x)(tx set (set x 1) x)(run t 1)";

/// One task waits for n to be another value than 0, one for 100 or more, one adds 7. The transactions,
/// from 0 on: add 7, add 93, the first that waits, the second.
pub(crate) const HOLDS: &str =
    "(var n 0)(tx inc (set n (add n 7)) n)(tx more (set n (add n 93)) n)(tx wait (if (eq n 0) (retry) (skip)) n)(tx \
        hold (if (lt n 100) (retry) (skip)) n)(run wait 1)(run hold 1)(run inc 1)";

/// A counter, a gate, and 40 tasks that wait for it. The transactions: count, open the gate, wait.
pub(crate) const MANY: &str =
    "(var n 0)(var gate 0)(var out 0)(tx inc (set n (add n 1)) n)(tx open (set gate 1) 0)(tx wait (if (eq gate 0) \
        (retry) (set out (add out n))) out)(run wait 40)";

/// Tasks that wait for different variables stand between others that end. The transactions: the three that
/// wait, none, set a, set b.
pub(crate) const MIXED: &str =
    "(var a 0)(var b 0)(tx wait_a (if (eq a 0) (retry) (skip)) a)(tx wait_b (if (eq b 0) (retry) (skip)) b)(tx \
        wait_ab (if (eq a 0) (if (eq b 0) (retry) (skip)) (skip)) (add a b))(tx none (skip) 0)(tx set_a (set a 1) \
        1)(tx set_b (set b 2) 2)(run none 3)(run wait_a 2)(run none 1)(run wait_b 2)(run none 70)(run wait_ab \
        2)(run none 2)(run wait_a 1)";

/// What throws, what breaks a condition, and what goes out of range.
pub(crate) const FAULTS: &str =
    "(stm 2)(var n 7)(always low (lt n 10))(tx throws (seq (set n 8) (throw n)) 0)(tx breaks (set n 10) n)(tx over \
        (skip) (add 9223372036854775807 n))(tx fine (set n 9) n)";

/// A program that declares nothing.
pub(crate) const NOTHING: &str = "";

/// A transaction of the same name as the one of `TWO`, which does another thing.
pub(crate) const OTHER: &str = "(var n 5)(tx inc (set n (add n 2)) n)(run inc 2)";

/// The transaction of `TWO` under a condition.
pub(crate) const GUARDED: &str =
    "(stm 2)(var n 5)(always low (lt n 100))(tx inc (set n (add n 1)) n)(run inc 2)";

/// The transaction of `TWO` beside a variable more.
pub(crate) const WIDER: &str = "(var n 5)(var m 0)(tx inc (set n (add n 1)) n)(run inc 2)";

/// The transaction of `TWO`, of other values, and beside others.
pub(crate) const ALIKE: &str =
    "(var k 9)(tx inc (set k (add k 1)) k)(tx dec (set k (sub k 1)) k)(run dec 1)(run inc 1)";

/// Two tables behind a variable. The transactions: one moves 60 out of the last cell of the first table, and makes the
/// first cell of the second one -1; the other waits until that is so, and returns it.
pub(crate) const TABLES: &str =
    "(stm 3)(var spare 9)(table acct 5 100)(table rate 2 5 6)(tx pay () (seq (put acct 4 (sub (at acct 4) 60)) (put \
        rate 0 -1)) (sum acct))(tx wait () (if (lt (at rate 0) 0) (skip) (retry)) (at rate 0))(run wait 1)";

/// A transaction, and no variable and no task.
pub(crate) const NOTHING_READY: &str = "(tx t (skip) 0)";
