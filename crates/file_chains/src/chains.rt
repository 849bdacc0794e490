//! What is so of every book that begins chapters, for the files and the reports that it tells of them.

ghost use Rattle.std.specs.Prelude.{◌≡◌, ℕ, List};
ghost use Rattle.txn_programs.specs.declared.arguments.Call.{Call};
ghost use Rattle.txn_programs.specs.Told.{Told};
ghost use Rattle.txn_text.specs.Canonical.{file_text};
ghost use Rattle.book.specs.View.{BookView};
ghost use Rattle.book.specs.Turns.{IsIdle, ReportIs};
ghost use Rattle.book.specs.LawfulBook.{BookFits};
ghost use Rattle.book.specs.Chapters.{next_catalogue};
ghost use Rattle.checker.specs.Chapters.{JudgesAfter, next_chapter};
ghost use Rattle.checker.specs.Verdicts.{Judges};
ghost use Rattle.checker.specs.declared.verdict.Verdict.TheVariants as verdict;
ghost use Rattle.checker.specs.declared.chapter.ChapterVerdict.TheVariants.{Good};
ghost use Rattle.file_chains.specs.declared.next.Next.TheVariants as next;
ghost use Rattle.file_chains.specs.Printing.{IsPrintedOn};
ghost use Rattle.file_chains.specs.Chains.{IsPair, IsWithin};

use checker::laws::{grown_chapters_go_on, next_chapters_go_on};
use txn_text::laws::spells_one;

/// The catalogue with which a chapter begins is the one that is told by the report of the book that was
/// idle before it.
pub fn next_chapters_are_told()
    ensures { (b : BookView) (r : Told) → BookFits b → IsIdle b → ReportIs b r
        → next_catalogue b ≡ next_chapter b.catalogue r }
{}

/// What is printed behind the file and the report of an idle book is the file of its next chapter, as that
/// begins.
pub fn next_chapters_are_printed()
    ensures { (b : BookView) (file report text : List ℕ) → BookFits b → IsIdle b → IsPair b file report
        → IsPrintedOn next.Chapter file report text → text ≡ file_text (next_catalogue b) }
{
    spells_one();
    next_chapters_are_told();
}

/// The file and the report of a chapter go on where those of the chapter before it ended, whatever calls
/// were submitted since it began: a check of the four finds them good.
pub fn chapters_are_good()
    ensures { (b c : BookView) (more : List Call) (file report later later_report : List ℕ)
        → BookFits b → IsIdle b → IsPair b file report → IsWithin c b more → IsPair c later later_report
        → JudgesAfter later later_report file report Good }
{
    next_chapters_are_told();
    next_chapters_go_on();
    grown_chapters_go_on();
}
