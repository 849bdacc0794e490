//! What is so of every chapter that ends, and of what every call leaves.

ghost use Rattle.std.specs.Prelude.{◌≡◌, ◌++◌, Ok, String, string_bytes};
ghost use Rattle.std.specs.Global.{Global};
ghost use Rattle.checker.specs.Verdicts.{Judges};
ghost use Rattle.checker.specs.declared.verdict.Verdict.TheVariants.{Good};
ghost use Rattle.stm_store.specs.Asking.{HasRoom, HasRoomNext};
ghost use Rattle.stm_store.specs.declared.store.Store.{Store};
ghost use Rattle.stm_store.specs.declared.job.Ticket.{Ticket};
ghost use Rattle.stm_desk.specs.Ending.{BeginsNext};
ghost use Rattle.stm_desk.specs.History.{History};
ghost use Rattle.stm_desk.specs.Keeping.{Accounts, StandsIn};
ghost use Rattle.stm_desk.specs.Open.{HasOpen, IsOver};

use crate::ended::Ended;
use stm_store::laws::file_and_report_agree;

/// The file and the report of a chapter that ended are a pair that a check finds good, whoever has had it since.
pub fn ended_is_good(ended: &Ended)
    ensures { (file : String Global) → ended.now.file ≡ Ok file
        → ∥ Judges (string_bytes file) (string_bytes ended.now.report) Good ∥₁ }
{
    file_and_report_agree();
    // To look at a field is to be told what the type keeps.
    let _chapter = ended.chapter;
}

/// A task that was open before a call on a desk and is over after it stands in what the history has more: nothing ends
/// unnoted, whether anybody waits for it or not.
pub fn what_ended_is_in_the_history()
    ensures { (first old new : Store) (h more : History) (ticket : Ticket)
        → Accounts first old h → Accounts first new (h ++ more)
        → HasOpen old ticket → IsOver new ticket → StandsIn more ticket }
{}

/// Where a call was told that its chapter is full, the next one has room when it begins.
pub fn next_chapter_has_room()
    ensures { (old new : Store) → HasRoomNext old → BeginsNext old new → HasRoom new }
{}
