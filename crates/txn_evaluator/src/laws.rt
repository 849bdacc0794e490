//! Laws of the meaning, which show that it is that of STM Haskell's `retry` and `orElse`, and
//! evaluations worked out by hand. The functions do nothing: each contract is a theorem about the
//! definitions in `specs/Meaning.antt`, and the empty body is what carries its proof, since only
//! what a function's contract names has to be proved.

ghost use Rattle.std.specs.Prelude.{◌≡◌, ◌≢◌, ℤ, pos, negsuc, [], ◌∷◌, Ok, Err};
ghost use Rattle.txn_programs.specs.Tree.{Int, Var, Add, Div, Rem, Eq, And, Statement, Statements, Program, Skip};
ghost use Rattle.txn_programs.specs.Tree.{Set, Seq, If, Repeat, Retry, OrElse, Throw, End, More, Expression};
ghost use Rattle.txn_programs.specs.Meaning.{State, Done, Threw, Retried, value, truth, run, broken, outcome, after};
ghost use Rattle.txn_programs.specs.Standing.{AllTrue};
ghost use Rattle.txn_programs.specs.declared.ast.Fault.{Fault};
ghost use Rattle.txn_programs.specs.declared.ast.Fault.TheVariants.{User, Overflow, DivideByZero};
ghost use Rattle.txn_programs.specs.declared.ast.Outcome.TheVariants.{Returned, Thrown, Retries};
ghost use Rattle.txn_evaluator.specs.Worked.{x, joined, keeps_nothing, does_not_catch, counts};
ghost use Rattle.txn_evaluator.specs.Worked.{waits, divides_by_zero, short, lowers, empties};

/// `retry` is a left and a right unit of `orelse`.
pub fn retry_is_a_unit()
    ensures left { (s : Statement) (m : State) → run (OrElse Retry s) m ≡ run s m }
    ensures right { (s : Statement) (m : State) → run (OrElse s Retry) m ≡ run s m }
{}

/// `orelse` is associative.
pub fn orelse_is_associative()
    ensures { (a b c : Statement) (m : State) → run (OrElse (OrElse a b) c) m ≡ run (OrElse a (OrElse b c)) m }
{}

/// The second branch of an `orelse` runs from the state from which the first began, and only where
/// that one retries: no write of a branch that retried is left, and a throw is not caught.
pub fn orelse_begins_anew()
    ensures retried { (a b : Statement) (m : State) → run a m ≡ Retried → run (OrElse a b) m ≡ run b m }
    ensures done { (a b : Statement) (m n : State) → run a m ≡ Done n → run (OrElse a b) m ≡ Done n }
    ensures threw { (a b : Statement) (m : State) (f : Fault) → run a m ≡ Threw f → run (OrElse a b) m ≡ Threw f }
{}

/// What follows a `retry` or a `throw` in a sequence is not run, wherever in it that stands: the
/// sequence does what it does without it, and ends there where the parts before are done.
pub fn nothing_follows()
    ensures retry { (rest : Statements) (m : State) → run (Seq (More Retry rest)) m ≡ Retried }
    ensures throw { (e : Expression) (rest : Statements) (m : State)
        → run (Seq (More (Throw e) rest)) m ≡ run (Throw e) m }
    ensures retry_anywhere { (parts rest : Statements) (m : State)
        → run (Seq (joined parts (More Retry rest))) m ≡ run (Seq (joined parts (More Retry End))) m }
    ensures retry_ends { (parts rest : Statements) (m n : State) → run (Seq parts) m ≡ Done n
        → run (Seq (joined parts (More Retry rest))) m ≡ Retried }
    ensures throw_anywhere { (e : Expression) (parts rest : Statements) (m : State)
        → run (Seq (joined parts (More (Throw e) rest))) m ≡ run (Seq (joined parts (More (Throw e) End))) m }
    ensures throw_ends { (e : Expression) (parts rest : Statements) (m n : State) → run (Seq parts) m ≡ Done n
        → run (Seq (joined parts (More (Throw e) rest))) m ≡ run (Throw e) n }
{}

/// A transaction that throws or retries leaves the state as it was.
pub fn only_a_return_changes_the_state()
    ensures throws { (t : Program) (m : State) (f : Fault) → outcome t m ≡ Thrown f → after t m ≡ m }
    ensures retries { (t : Program) (m : State) → outcome t m ≡ Retries → after t m ≡ m }
{}

/// Standing conditions that are true stay true: a transaction that returns leaves a state where each
/// is, and every other leaves the state as it was. So one that would break a condition throws.
#[tactic(auto, using(txn_programs::proofs::Standing::after_upholds))]
pub fn conditions_stay()
    ensures { (t : Program) (m : State) → AllTrue t.always m → AllTrue t.always (after t m) }
{}

/// Evaluations worked out by hand: quotients are cut towards zero, the least number by -1
/// overflows, also as a remainder; `orelse` and `retry` as above; `and` looks right only where its
/// left side is yes; a result that faults leaves no write. A standing condition is asked of the
/// state after the writes: the first that is not true is broken, be it by a fault, and no write is
/// left.
pub fn worked_evaluations()
    ensures quotient { value (Div (Int (negsuc 6)) (Int (pos 2))) [] ≡ Ok (negsuc 2) }
    ensures remainder { value (Rem (Int (negsuc 6)) (Int (pos 2))) [] ≡ Ok (negsuc 0) }
    ensures least_quotient { value (Div (Int (negsuc 9223372036854775807)) (Int (negsuc 0))) [] ≡ Err Overflow }
    ensures least_remainder { value (Rem (Int (negsuc 9223372036854775807)) (Int (negsuc 0))) [] ≡ Err Overflow }
    ensures by_zero { value (Div (Int (pos 1)) (Int (pos 0))) [] ≡ Err DivideByZero }
    ensures largest { value (Add (Int (pos 9223372036854775807)) (Int (pos 1))) [] ≡ Err Overflow }
    ensures retried_writes_go { outcome keeps_nothing (pos 0 ∷ []) ≡ Returned (pos 0) }
    ensures no_write_is_left { after keeps_nothing (pos 0 ∷ []) ≡ pos 0 ∷ [] }
    ensures throw_is_not_caught { outcome does_not_catch (pos 0 ∷ []) ≡ Thrown (User (pos 7)) }
    ensures many_turns { run counts (pos 0 ∷ []) ≡ Done (pos 999 ∷ []) }
    ensures both_retry { outcome waits [] ≡ Retries }
    ensures result_faults { outcome divides_by_zero (pos 1 ∷ []) ≡ Thrown DivideByZero }
    ensures right_side_is_not_asked { outcome short [] ≡ Returned (pos 0) }
    ensures conditions_true { outcome lowers (pos 1 ∷ []) ≡ Returned (pos 0) }
    ensures first_is_broken { outcome lowers (pos 0 ∷ []) ≡ Thrown (broken 0) }
    ensures second_is_broken { outcome lowers (pos 4 ∷ []) ≡ Thrown (broken 1) }
    ensures broken_leaves_no_write { after lowers (pos 4 ∷ []) ≡ pos 4 ∷ [] }
    ensures broken_by_a_fault { outcome empties (pos 1 ∷ []) ≡ Thrown (broken 0) }
{}
