//! What is so of every file that is printed.

ghost use Rattle.std.specs.Prelude.{◌≡◌, ◌≤◌, ℕ, List, length};
ghost use Rattle.txn_programs.specs.Listing.{Listing};
ghost use Rattle.txn_programs.specs.Standing.{Upholds};
ghost use Rattle.txn_programs.specs.Told.{Told};
ghost use Rattle.txn_programs.specs.LawfulReport.{LawfulReport};
ghost use Rattle.txn_text.specs.Tree.{longest};
ghost use Rattle.txn_text.specs.Spelling.{Spells};
ghost use Rattle.checker.specs.Chapters.{Follows, GoesOnAfter};
ghost use Rattle.file_chains.specs.declared.next.Next.TheVariants as next;
ghost use Rattle.file_chains.specs.GoingOn.{going_on};
ghost use Rattle.file_chains.specs.Printing.{IsPrinted, IsPrintedOn};

use checker::laws::{lawful_reports_uphold, next_chapters_go_on};
use txn_text::laws::spells_one;

/// What is printed of a printed text is that text, unless it is too long to be read.
pub fn printed_again_is_the_same()
    ensures { (input text again : List ℕ) → IsPrinted input text → length text ≤ longest text → IsPrinted text again
        → again ≡ text }
{
    spells_one();
}

/// The standing conditions are true where a lawful report's values are the initial ones.
pub fn goes_on_upheld()
    ensures { (l : Listing) (r : Told) → LawfulReport l r → Upholds (going_on l r) (going_on l r).initial }
{
    lawful_reports_uphold();
}

/// What is printed of the next chapter is a file that goes on where the report ended, unless it is too
/// long to be read.
pub fn printed_chapters_go_on()
    ensures { (input report text : List ℕ) (l : Listing) → IsPrintedOn next.Chapter input report text
        → length text ≤ longest text → Spells text l → Follows GoesOnAfter input report l }
{
    spells_one();
    next_chapters_go_on();
}
