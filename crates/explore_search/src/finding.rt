//! The shortest way to where something shows that is sought of a transaction.

ghost use Rattle.std.specs.Prelude.{◌≡◌, ◌<◌, ◌≤◌, ◌^◌, IfErr, IfOk, length, sum, ℕ};
ghost use Rattle.std.specs.Bool.{Decides};
ghost use Rattle.explore_law.specs.Explored.{ReachesMore, end_config};
ghost use Rattle.explore_law.specs.Finding.{IsSought, Wants, WayOrNever};
ghost use Rattle.explore_law.specs.Instances.{instances};
ghost use Rattle.explore_search.specs.Charted.{IsCharted};
ghost use Rattle.explore_search.specs.Searching.{IsUnderWay};
ghost use Rattle.explore_search.specs.Nearest.{AreSized, ByOrNone, IsNearestOrNone, ShowsByOwn};

use crate::Configs;
use crate::found::{MAX_STATES, Unexplored, no_config, searched};
use crate::instances::instances_of;
use crate::search::Search;
use crate::turn::outcome_on;
use crate::way::way_to;
use attempt::Attempt;
use explore_law::{End, InstanceId, Sought, WayWhere};
use std::alloc::Global;
use txn::{AlwaysId, Call, Catalogue, Fault, Memory, Outcome, TxId};

/// Turns that lead from the first configuration to one at which a task of the transaction is left and what is sought
/// of it shows, and the first instance by which it shows there; no fewer turns lead to such a configuration. `None`
/// where no order comes to one.
///
/// `More` where more than `limit` configurations are reached; then nothing is said of them. `Memory` where
/// a growth was refused.
pub fn way_where(
    alloc: Global,
    catalogue: &Catalogue,
    limit: u32,
    tx: TxId,
    sought: Sought,
) -> Result<Option<WayWhere>, Unexplored>
    requires { limit ≤ MAX_STATES }
    ensures way { IfOk result (WayOrNever catalogue.now tx sought) }
    ensures more { IfErr result (λ e. e ≡ Unexplored.More → ReachesMore catalogue.now limit) }
{
    let instances = instances_of(alloc, catalogue)?;
    let s = searched(alloc, catalogue, &instances, limit as usize)?;
    let way = way_in(alloc, catalogue, instances.calls.as_slice(), &s, tx, sought)?;
    Ok(way)
}

/// The same, from a search that has tried each turn at each configuration that is reached.
fn way_in(
    alloc: Global,
    catalogue: &Catalogue,
    calls: &[Call],
    s: &Search,
    tx: TxId,
    sought: Sought,
) -> Result<Option<WayWhere>, Memory>
    requires calls { calls.now ≡ instances catalogue.now }
    requires done { (limit : ℕ) × IsUnderWay catalogue.now limit s.now.configs s.now.kinds.items s.now.ends.items
        (length s.now.configs.configs) 0 }
    requires charted { IsCharted catalogue.now s.now.configs.configs s.now.came.items }
    ensures { IfOk result (WayOrNever catalogue.now tx sought) }
{
    let nearest = nearest(alloc, catalogue, calls, &s.configs, tx, sought)?;
    let Some((number, instance)) = nearest else {
        return Ok(None);
    };
    let turns = way_to(alloc, catalogue, &s.configs, s.came.as_slice(), number)?;
    Ok(Some(WayWhere { turns, instance }))
}

/// The number of the configuration at which it shows, of those with the most tasks left: to that lead the fewest turns.
/// Beside it the instance by which it shows there. `None` where it shows at none.
fn nearest(
    alloc: Global,
    catalogue: &Catalogue,
    calls: &[Call],
    configs: &Configs,
    tx: TxId,
    sought: Sought,
) -> Result<Option<(usize, InstanceId)>, Memory>
    requires calls { calls.now ≡ instances catalogue.now }
    requires sized { AreSized catalogue.now configs.now.configs }
    ensures { IfOk result (IsNearestOrNone catalogue.now tx sought configs.now.configs (length configs.now.configs)) }
{
    catalogue.rules();
    let Some(first) = calls.first() else {
        return Ok(None);
    };
    let mut attempt = Attempt::new(alloc, catalogue, first.tx, first.arguments.as_slice());
    let mut here = no_config(alloc);
    nearest_by(
        &mut attempt,
        &mut here,
        catalogue,
        calls,
        configs,
        tx,
        sought,
    )
}

/// The same, by an attempt that is made anew for each, and with room for a configuration.
fn nearest_by<'a>(
    attempt: &mut Attempt<'a>,
    here: &mut End,
    catalogue: &'a Catalogue,
    calls: &[Call],
    configs: &Configs,
    tx: TxId,
    sought: Sought,
) -> Result<Option<(usize, InstanceId)>, Memory>
    requires calls { calls.now ≡ instances catalogue.now }
    requires sized { AreSized catalogue.now configs.now.configs }
    ensures { IfOk result (IsNearestOrNone catalogue.now tx sought configs.now.configs (length configs.now.configs)) }
{
    catalogue.rules();
    let mut nearest = None;
    let mut most = 0;
    'configs: for i in 0..configs.len() {
        configs.read(i, here)?;
        let all = in_all(here.waiting.as_slice());
        if all > most {
            let by = by_which(attempt, catalogue, calls, here, tx, sought)?;
            if let Some(instance) = by {
                nearest = Some((i, instance));
                most = all;
            }
        }
    }
    Ok(nearest)
}

/// How many tasks are left in all.
fn in_all(left: &[u32]) -> u64
    requires { length left.now < 2 ^ 32 }
    ensures { result ≡ sum left.now }
{
    let mut all = 0;
    'instances: for count in left {
        all += u64::from(*count);
    }
    all
}

/// The first instance of the transaction by which it shows at the configuration.
fn by_which<'a>(
    attempt: &mut Attempt<'a>,
    catalogue: &'a Catalogue,
    calls: &[Call],
    here: &End,
    tx: TxId,
    sought: Sought,
) -> Result<Option<InstanceId>, Memory>
    requires calls { calls.now ≡ instances catalogue.now }
    requires values { length here.now.values.items ≡ length catalogue.now.initial }
    requires left { length here.now.waiting.items ≡ length calls.now }
    ensures { IfOk result (ByOrNone catalogue.now tx sought (end_config here.now)) }
{
    catalogue.rules();
    'instances: for k in 0..calls.len() as u32 {
        if shows_by(attempt, catalogue, calls, here, InstanceId(k), tx, sought)? {
            return Ok(Some(InstanceId(k)));
        }
    }
    Ok(None)
}

/// Whether it shows by the instance at the configuration, and the instance is one of the transaction.
fn shows_by<'a>(
    attempt: &mut Attempt<'a>,
    catalogue: &'a Catalogue,
    calls: &[Call],
    here: &End,
    k: InstanceId,
    tx: TxId,
    sought: Sought,
) -> Result<bool, Memory>
    requires calls { calls.now ≡ instances catalogue.now }
    requires known { k.0 < length calls.now }
    requires values { length here.now.values.items ≡ length catalogue.now.initial }
    requires left { length here.now.waiting.items ≡ length calls.now }
    ensures { IfOk result (λ shows. Decides shows (ShowsByOwn catalogue.now tx k sought (end_config here.now))) }
{
    catalogue.rules();
    let call = &calls[k.0 as usize];
    if call.tx.0 != tx.0 {
        return Ok(false);
    }
    if here.waiting[k.0 as usize] == 0 {
        return Ok(false);
    }
    let outcome = outcome_on(attempt, catalogue, call, here.values.as_slice())?;
    Ok(is_sought(sought, outcome))
}

/// Whether the outcome is what is sought.
fn is_sought(sought: Sought, outcome: Outcome) -> bool
    ensures { Decides result (IsSought sought outcome) }
{
    match (sought, outcome) {
        (Sought::Returned(wanted), Outcome::Returned(value)) => is_wanted(wanted, value),
        (Sought::Threw(wanted), Outcome::Thrown(Fault::User(value))) => is_wanted(wanted, value),
        (Sought::Overflow, Outcome::Thrown(Fault::Overflow)) => true,
        (Sought::ZeroDiv, Outcome::Thrown(Fault::DivideByZero)) => true,
        (Sought::Broke(wanted), Outcome::Thrown(Fault::Broken(id))) => is_meant(wanted, id),
        (Sought::Parks, Outcome::Retries) => true,
        (Sought::Outside, Outcome::Thrown(Fault::Outside)) => true,
        _ => false,
    }
}

/// Whether this value or any is wanted.
fn is_wanted(wanted: Option<i64>, value: i64) -> bool
    ensures { Decides result (Wants wanted value) }
{
    match wanted {
        Some(wanted) => value == wanted,
        None => true,
    }
}

/// Whether this condition or any is meant.
fn is_meant(meant: Option<AlwaysId>, id: AlwaysId) -> bool
    ensures { Decides result (Wants meant id) }
{
    match meant {
        Some(meant) => id == meant,
        None => true,
    }
}
