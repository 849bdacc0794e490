//! What is so of all orders and of all reports, for every catalogue.

ghost use Rattle.std.specs.Prelude.{◌≡◌, ℕ, List, [], All};
ghost use Rattle.std.specs.List.{Contains};
ghost use Rattle.txn_programs.specs.Told.{Told};
ghost use Rattle.explore_law.specs.declared.instance.InstanceId.{InstanceId};
ghost use Rattle.explore_law.specs.declared.found.Found.{Found as FoundOf};
ghost use Rattle.explore_law.specs.Orders.{Config, Reached, IsEnd};
ghost use Rattle.explore_law.specs.Explored.{Explored, end_configs};
ghost use Rattle.explore_law.specs.Ways.{IsWayToEnd};
ghost use Rattle.explore_runner.specs.Ends.{IsWhole, HasReport, LeadsToEnd, NobodyWaits, end_of};

use txn::Catalogue;

/// A lawful report ends at a configuration that is reached and has no turn, and so at one that is listed
/// where all orders are found: its present values, and its parked tasks counted by instance, are
/// those of the configuration. Its base has to be the opening, or to be reached, as that of each run is; and
/// no task may be named that memory stopped.
pub fn reports_come_to_ends(catalogue: &Catalogue)
    ensures reached { (r : Told) → IsWhole catalogue.now r → Reached catalogue.now (end_of catalogue.now r) }
    ensures ends { (r : Told) → IsWhole catalogue.now r → IsEnd catalogue.now (end_of catalogue.now r) }
    ensures listed { (f : FoundOf) (r : Told) → Explored catalogue.now f → IsWhole catalogue.now r
        → Contains (end_configs f) (end_of catalogue.now r) }
{
    catalogue.rules();
}

/// Each configuration that is reached and has no turn, and so each end that is listed, is where a lawful
/// report ends.
pub fn ends_have_reports(catalogue: &Catalogue)
    ensures ends { (p : Config) → Reached catalogue.now p → IsEnd catalogue.now p → HasReport catalogue.now p }
    ensures listed { (f : FoundOf) (p : Config) → Explored catalogue.now f → Contains (end_configs f) p
        → HasReport catalogue.now p }
{
    catalogue.rules();
}

/// Where nobody waits at any end that is listed, no report leaves a task parked.
pub fn nobody_waits_for_ever(catalogue: &Catalogue)
    ensures { (f : FoundOf) (r : Told) → Explored catalogue.now f → All NobodyWaits (end_configs f)
        → IsWhole catalogue.now r → r.parked ≡ [] }
{
    catalogue.rules();
}

/// The way to an end that is listed leads to an end, so that it has a `witness`.
pub fn ways_lead_to_ends(catalogue: &Catalogue)
    ensures { (f : FoundOf) (k : ℕ) (turns : List InstanceId) → Explored catalogue.now f
        → IsWayToEnd catalogue.now f k turns → LeadsToEnd catalogue.now turns }
{
    catalogue.rules();
}
