//! What threads that share a service know of one another's calls.

ghost use Rattle.std.specs.Prelude.{◌≡◌, ◌<◌, IfSome};
ghost use Rattle.stm_desk.specs.History.{Begins};
ghost use Rattle.stm_desk.specs.Keeping.{IsEntry};

use crate::front::Front;
use crate::name::Naming;
use crate::service::Service;
use std::sync::Wait;
use stm_desk::Answer;
use txn::Call;

/// Two calls, the second by a thread that was shown what the first had seen: in the history that the second has seen
/// both entries stand, and the second stands behind the first. It is so whichever threads call, and however the one's
/// front came to the other. `None` where either has no entry.
pub fn both<R: Wait, N: Naming>(
    rt: &R,
    service: &Service<N>,
    calls: (Call, Call),
    one: &mut Front<N>,
    other: &mut Front<N>,
) -> Option<(Answer, Answer)>
    ensures behind { IfSome result (λ all. ∥ (all.0.place < all.1.place)
        × IsEntry other.new all.0.ticket calls.0 all.0 × IsEntry other.new all.1.ticket calls.1 all.1 ∥₁) }
    ensures grows { Begins other.old other.new }
{
    let (first, second) = calls;
    let Ok(a) = service.atomically(rt, first.tx, first.arguments.as_slice(), one) else {
        return None;
    };
    other.learn(one);
    let Ok(b) = service.atomically(rt, second.tx, second.arguments.as_slice(), other) else {
        return None;
    };
    Some((a, b))
}
