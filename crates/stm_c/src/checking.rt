//! Whether a report is lawful for a file.

ghost use Rattle.std.specs.Prelude.{◌≡◌, pos};
ghost use Rattle.checker.specs.Verdicts.{Judges};
ghost use Rattle.checker.specs.declared.verdict.Verdict.TheVariants as Verdict;
ghost use Rattle.stm_c.specs.Files.{Judged};

use crate::codes::{bad_part, file_fault};
use checker::{Verdict, check};
use std::alloc::Global;

/// 0 where the report is lawful for the file; 101 to 106 the first part that does not hold; -1 to -7
/// where the file is refused, by the kind of fault, and where memory ran out.
#[unsafe(no_mangle)]
pub extern "C" fn stm_check(alloc: Global, file: &[u8], report: &[u8]) -> i32
    ensures good { result ≡ pos 0 → Judges file.now report.now Verdict.Good }
    ensures answer { Judged file.now report.now result }
{
    match check(alloc, file, report) {
        Ok(Verdict::Good) => 0,
        Ok(Verdict::Bad(part)) => bad_part(part),
        Err(fault) => file_fault(fault),
    }
}
