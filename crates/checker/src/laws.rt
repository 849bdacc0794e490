//! What is so of every verdict, whatever was checked.

ghost use Rattle.std.specs.Prelude.{◌≡◌, ◌↔◌, ℕ, List, length};
ghost use Rattle.txn_programs.specs.declared.arguments.Call.{Call};
ghost use Rattle.txn_programs.specs.Listing.{Listing};
ghost use Rattle.txn.specs.Grown.{grown};
ghost use Rattle.checker.specs.Chapters.{GoesOnAfter, beginning, next_chapter};
ghost use Rattle.txn_programs.specs.Standing.{Upholds};
ghost use Rattle.txn_programs.specs.Told.{Told, base_of, now_of};
ghost use Rattle.txn_programs.specs.LawfulReport.{FitsCatalogue, LawfulReport};
ghost use Rattle.checker.specs.declared.verdict.Verdict.{Verdict as VerdictOf};
ghost use Rattle.txn_text.specs.Spelling.{Spells};
ghost use Rattle.txn_text.specs.ReportText.{report_text};
ghost use Rattle.txn_text.specs.ReportFits.{ReportFits};
ghost use Rattle.checker.specs.declared.verdict.Verdict.TheVariants.{Good};
ghost use Rattle.checker.specs.Verdicts.{AllHold, IsVerdict, Judges};

/// There is no other verdict on a report than the one.
pub fn one_verdict()
    ensures { (l : Listing) (r : Told) (v w : VerdictOf) → IsVerdict l r v → IsVerdict l r w → v ≡ w }
{}

/// The parts that are judged are together exactly what makes a report lawful.
pub fn lawful_where_all_parts_hold()
    ensures { (l : Listing) (r : Told) → FitsCatalogue l r → (LawfulReport l r ↔ AllHold l r) }
{}

/// The text of a lawful report of a file is judged good: it is never too long to be read.
pub fn lawful_texts_are_good()
    ensures { (file : List ℕ) (l : Listing) (r : Told) → Spells file l → LawfulReport l r → ReportFits r
        → Judges file (report_text l r) Good }
{}

/// A lawful report breaks no standing condition: each is true of its base, and of its present.
pub fn lawful_reports_uphold()
    ensures { (l : Listing) (r : Told) → LawfulReport l r → Upholds l (base_of r).state × Upholds l (now_of r).state }
{}

/// The next chapter, as it begins, goes on where the report ended.
pub fn next_chapters_go_on()
    ensures { (l : Listing) (r : Told) → GoesOnAfter l r (next_chapter l r) }
{}

/// A chapter to which tasks are submitted goes on where it began.
pub fn grown_chapters_go_on()
    ensures { (l : Listing) (r : Told) (next : Listing) (more : List Call) → GoesOnAfter l r next
        → GoesOnAfter l r (grown next more) }
{}

/// A file goes on exactly where its beginning, with as many tasks as are parked, is the next chapter.
pub fn chapters_begin_as_told()
    ensures { (l : Listing) (r : Told) (next : Listing)
        → (GoesOnAfter l r next ↔ (beginning (length r.parked) next ≡ next_chapter l r)) }
{}
