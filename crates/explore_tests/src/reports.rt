//! The report of a run that comes to a given end, and what a caller has by the laws.

ghost use Rattle.std.specs.Prelude.{All, IsTrue};
ghost use Rattle.txn_programs.specs.Told.{told};
ghost use Rattle.explore_law.specs.Explored.{Explored, end_configs};
ghost use Rattle.explore_runner.specs.Ends.{IsWhole, NobodyWaits};

use checker::{Verdict, check};
use explore_runner::laws::{
    ends_have_reports, nobody_waits_for_ever, reports_come_to_ends, ways_lead_to_ends,
};
use explore_runner::{Limit, Witnessed, witness_bytes};
use explore_search::Found;
use runner::Out;
use std::alloc::Global;
use txn::{Catalogue, Report};
use txn_text::read_file;

/// Two tasks that each take one of what one task puts there.
const TAKERS: &str = "(var x 0)(tx take (if (eq x 0) (retry) (set x (sub x 1))) 0)\
    (tx put (set x 1) 0)(run take 2)(run put 1)";

/// Whether this is written of the way to the end of this number, with this answer, and a report is good.
fn is_witnessed(alloc: Global, end: usize, wanted: Witnessed, text: &str) -> bool {
    let Some(limit) = Limit::new(1_000_000) else {
        return false;
    };
    let mut out = Out::new(Vec::new(alloc));
    let answer = witness_bytes(alloc, TAKERS.as_bytes(), limit, end, &mut out);
    let bytes = out.into_inner();
    let is_good = check(alloc, TAKERS.as_bytes(), bytes.as_slice()) == Ok(Verdict::Good);
    bytes.as_slice() == text.as_bytes() && is_good != text.is_empty() && answer == Ok(wanted)
}

#[test]
fn the_report_of_the_way_to_an_end_is_good(rt: HostRuntime) {
    let taken =
        "base 0\nx 0 0\nentry 1 2 put returned 0\nentry 2 0 take returned 0\nnow 2\nx 0 2\nparked 1 take\nend\n";
    assert!(rt; is_witnessed(rt.alloc(), 0, Witnessed::Report, taken));
    assert!(rt; is_witnessed(rt.alloc(), 1, Witnessed::NoEnd, ""));
}

/// Where nobody waits at any end, a report names no parked task.
fn nobody_is_parked(catalogue: &Catalogue, found: &Found, report: &Report) -> bool
    requires explored { Explored catalogue.now found.now }
    requires nobody { All NobodyWaits (end_configs found.now) }
    requires whole { IsWhole catalogue.now (told report.now) }
    ensures { IsTrue result }
{
    nobody_waits_for_ever(catalogue);
    report.parked.is_empty()
}

/// Brings the laws to a caller who has a file.
fn law(alloc: Global) -> bool {
    match read_file(alloc, TAKERS.as_bytes()) {
        Ok(catalogue) => {
            reports_come_to_ends(&catalogue);
            ends_have_reports(&catalogue);
            nobody_waits_for_ever(&catalogue);
            ways_lead_to_ends(&catalogue);
            true
        }
        Err(_) => false,
    }
}

#[test]
fn the_laws_are_of_every_catalogue(rt: HostRuntime) {
    assert!(rt; law(rt.alloc()));
}
