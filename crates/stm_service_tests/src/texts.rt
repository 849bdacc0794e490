//! The files that tests open.

use txn::TxId;

/// A buffer of two places: `put` tells how many were out then, `get` the number of the thing.
pub(crate) const BUFFER: &str =
    "(stm 3) (var out 0) (var given 0) (tx put () (if (le 2 out) (retry) (set out (add out 1))) out) \
    (tx get () (if (eq out 0) (retry) (seq (set out (sub out 1)) (set given (add given 1)))) given) \
    (tx give (n) (set given n) given)";

pub(crate) const PUT: TxId = TxId(0);

pub(crate) const GET: TxId = TxId(1);

pub(crate) const GIVE: TxId = TxId(2);

/// `wait` asks for a number of its own, which `give` gives it: so each answer is another one.
pub(crate) const OWN: &str =
    "(var asked 0) (var given 0) (tx wait (if (eq given 0) (retry) (set given 0)) (add asked 0)) \
    (tx give (if (eq given 0) (seq (set given 1) (set asked (add asked 1))) (retry)) asked)";

/// What a call throws is its answer, and `woken` is served by the call that wakes it.
pub(crate) const THROWS: &str =
    "(var x 0) (tx bad (seq (set x 5) (throw 7)) x) (tx woken (if (eq x 0) (retry) (set x 9)) x) \
    (tx wake (set x 1) x) (run woken 1) (run wake 1)";

/// `hold` waits through all chapters.
pub(crate) const HELD: &str =
    "(var n 0) (tx hold (if (lt n 1000) (retry) (skip)) n) (tx inc (set n (add n 1)) n)";

/// As many tasks as a file may declare, less one.
pub(crate) const MANY: &str =
    "(var n 0) (tx hold (if (eq n 0) (retry) (skip)) n) (tx none (skip) 4) (run hold 65535)";

/// No transaction.
pub(crate) const NONE: &str = "(var x 3)";

/// `add` and `add_slowly` tell how often anything was added; `slow_get` waits until there is something that `go` gave,
/// and tells which number it took. Those named slow are long transactions.
pub(crate) const SLOW: &str = "(var n 0) (var out 0) (var taken 0) (tx add (set n (add n 1)) n) \
    (tx add_slowly (seq (repeat 1000 (seq (set n (add n 1)) (set n (sub n 1)))) (set n (add n 1))) n) \
    (tx go (set out (add out 1)) out) \
    (tx slow_get (seq (repeat 1000 (seq (set n (add n 1)) (set n (sub n 1)))) \
    (if (eq out 0) (retry) (seq (set out (sub out 1)) (set taken (add taken 1))))) taken)";

pub(crate) const ADD: TxId = TxId(0);

pub(crate) const ADD_SLOWLY: TxId = TxId(1);

pub(crate) const GO: TxId = TxId(2);

pub(crate) const SLOW_GET: TxId = TxId(3);
