//! Threads side by side, which know nothing of books and cells.

ghost use Rattle.std.specs.Prelude.{◌<◌, vec_len, All, IfSome};

use std::sync::Wait;
use std::thread;
use std::thread::Threads;

/// Calls `life` once for each pass, side by side, and waits for all these calls. The calling
/// thread makes one of them itself, and each other one has a thread of its own. A thread that
/// cannot be started is one call fewer.
pub(crate) fn start<R: Threads + Wait + Sync, P: Send + Drop, F: Fn(P) + Sync>(
    rt: &R,
    life: &F,
    passes: Vec<P>,
)
    requires { All (λ p. F.pre life.now p) passes.items }
{
    thread::scope(
        thread::scope_env(),
        rt,
        |scope|
            requires { All (λ p. F.pre life.now p) passes.items }
        {
            let mut passes = passes;
            let Some(own) = next_pass(&mut passes, life) else {
                return;
            };
            while let Some(pass) = next_pass(&mut passes, life) {
                // The scope waits for what was started; what was not is one call fewer.
                let _started = scope.spawn(
                    move ||
                        requires { F.pre life.now pass }
                    { life(pass) },
                );
            }
            life(own);
        },
    );
}

/// A pass that no call was given yet, while there are any left.
fn next_pass<P: Drop, F: Fn(P)>(passes: &mut Vec<P>, life: &F) -> Option<P>
    requires { All (λ p. F.pre life.now p) passes.old.items }
    ensures own { IfSome result (λ p. F.pre life.now p) }
    ensures rest { All (λ p. F.pre life.now p) passes.new.items }
    ensures fewer { IfSome result (λ p. vec_len passes.new < vec_len passes.old) }
{
    // The clauses alone speak of it.
    let _life = life;
    passes.pop()
}
