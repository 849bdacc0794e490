//! Runs all tasks of a catalogue.

ghost use Rattle.std.specs.Prelude.{◌≡◌, ◌∷◌, [], length, All, IfOk};
ghost use Rattle.txn_programs.specs.Told.{told, base_of, now_of};
ghost use Rattle.txn_programs.specs.LawfulReport.{LawfulReport, BaseReached};
ghost use Rattle.txn_programs.specs.Standing.{Upholds};
ghost use Rattle.book_storage.specs.PackedEntries.{told_run};
ghost use Rattle.run_workers.specs.Drawing.{KeepsOrder};
ghost use Rattle.run_workers.specs.GivingUp.{GaveUpForMemory, RunsInPlace};
ghost use Rattle.run_workers.specs.Journals.{KeepsShort};

use crate::drawn::run_drawn;
use crate::gate::Gate;
use crate::shared::{Named, Naming, open, settle};
use crate::threads::start;
use crate::worker::{Crew, work};
use book_storage::RunReport;
use cells::{Cells, Pass, Publisher};
use run_interface::Options;
use std::alloc::Global;
use std::marker::Brand;
use std::sync::{Mutex, Wait};
use std::thread::Threads;
use txn::weights::{Size, Weights, are_short, sizes_of};
use txn::{Catalogue, Memory, Report};

/// How the workers of a run go about its tasks.
#[derive(Drop)]
struct Ways<'g, G: Gate> {
    /// How tasks of each transaction are run.
    sizes: Vec<Size>,
    options: Options,
    gate: &'g G,
}

/// Runs the tasks by as many workers as the options say, and reports. `Memory` comes only where a
/// growth was refused.
///
/// The workers read the cells by a pass each, and share the book behind a lock, which publishes to
/// the cells. When they have ended, the book gives a turn to what is left, and no task is ready or
/// running when it reports. Under a gate that is not open each task is tried by itself. Under an open one it
/// goes by what tasks weigh (`Weights::LEAST_TIME`), and one worker tries none. Each standing
/// condition is true of the values that it reports. With a checkpoint after each N entries the journal
/// has fewer than N, and the base is a multiple of N; with none the base is 0.
///
/// A task is given up only where memory ran out, and only where its transaction takes some: where it has an
/// `orelse` or writes a cell, or there are more than eight variables and cells. So a catalogue without either and
/// with at most eight has none given up, however much memory is refused.
///
/// Where the options have a seed, there are no workers, whatever the gate is, and none calls it: one task after another
/// has its turn, in an order that a generator draws, which begins at the seed.
pub fn run_tasks<R: Threads + Wait + Sync, G: Gate>(
    rt: &R,
    alloc: Global,
    catalogue: &Catalogue,
    options: Options,
    gate: &G,
) -> Result<Report, Memory>
    ensures lawful { IfOk result (λ r. LawfulReport catalogue.now (told r)) }
    ensures reached { IfOk result (λ r. BaseReached catalogue.now (told r)) }
    ensures upheld { IfOk result
        (λ r. Upholds catalogue.now (base_of (told r)).state × Upholds catalogue.now (now_of (told r)).state) }
    ensures short { IfOk result (λ r. KeepsShort options.checkpoint (told r)) }
    ensures memory { IfOk result (λ r. GaveUpForMemory catalogue.now (told r)) }
    ensures kept { RunsInPlace catalogue.now → IfOk result (λ r. (told r).memory ≡ []) }
    ensures order { IfOk result (λ r. KeepsOrder catalogue.now options.checkpoint options.seed (told r)) }
{
    run_packed(rt, alloc, catalogue, options, gate)?.report(alloc)
}

/// As `run_tasks`, with the journal in the lines in which the book kept it, for a caller that goes through
/// it once.
pub fn run_packed<R: Threads + Wait + Sync, G: Gate>(
    rt: &R,
    alloc: Global,
    catalogue: &Catalogue,
    options: Options,
    gate: &G,
) -> Result<RunReport, Memory>
    ensures lawful { IfOk result (λ r. LawfulReport catalogue.now (told_run r)) }
    ensures reached { IfOk result (λ r. BaseReached catalogue.now (told_run r)) }
    ensures upheld { IfOk result
        (λ r. Upholds catalogue.now (base_of (told_run r)).state
        × Upholds catalogue.now (now_of (told_run r)).state) }
    ensures short { IfOk result (λ r. KeepsShort options.checkpoint (told_run r)) }
    ensures memory { IfOk result (λ r. GaveUpForMemory catalogue.now (told_run r)) }
    ensures kept { RunsInPlace catalogue.now → IfOk result (λ r. (told_run r).memory ≡ []) }
    ensures order { IfOk result (λ r. KeepsOrder catalogue.now options.checkpoint options.seed (told_run r)) }
{
    let weights = weights_under::<G>(options);
    run_weighed(rt, alloc, catalogue, options, weights, gate)
}

/// From which weight on tasks are tried: the gate says it, and how many workers there are.
fn weights_under<G: Gate>(options: Options) -> Weights {
    if !G::IS_OPEN {
        return Weights::EACH;
    }
    if options.workers() == 1 {
        return Weights::NONE;
    }
    Weights::LEAST_TIME
}

/// As `run_packed`, where tasks are tried from these weights on, whatever the gate is: that call gives it
/// those which it says.
///
/// A task that is tried by itself is evaluated on what its worker's pass reads; one that is tried with others, on a
/// copy of the present values; one that is not tried has its turn under the lock. Where none is tried there are no
/// workers: all is left to the turns behind them, over cells that nobody reads. Where the options have a seed, none is
/// tried, whatever the weights are.
pub fn run_weighed<R: Threads + Wait + Sync, G: Gate>(
    rt: &R,
    alloc: Global,
    catalogue: &Catalogue,
    options: Options,
    weights: Weights,
    gate: &G,
) -> Result<RunReport, Memory>
    ensures lawful { IfOk result (λ r. LawfulReport catalogue.now (told_run r)) }
    ensures reached { IfOk result (λ r. BaseReached catalogue.now (told_run r)) }
    ensures upheld { IfOk result
        (λ r. Upholds catalogue.now (base_of (told_run r)).state
        × Upholds catalogue.now (now_of (told_run r)).state) }
    ensures short { IfOk result (λ r. KeepsShort options.checkpoint (told_run r)) }
    ensures memory { IfOk result (λ r. GaveUpForMemory catalogue.now (told_run r)) }
    ensures kept { RunsInPlace catalogue.now → IfOk result (λ r. (told_run r).memory ≡ []) }
    ensures order { IfOk result (λ r. KeepsOrder catalogue.now options.checkpoint options.seed (told_run r)) }
{
    if let Some(seed) = options.seed() {
        return run_drawn(alloc, catalogue, options.checkpoint(), seed);
    }
    let sizes = sizes_of(alloc, catalogue, weights)?;
    if are_short(&sizes, catalogue.runs()) {
        let (cells, publisher) = Cells::unread(alloc, catalogue.initial())?;
        return drain_named::<Brand>(alloc, catalogue, &cells, publisher, options);
    }
    let (cells, publisher, passes) = Cells::open(
        alloc,
        catalogue.initial(),
        options.workers() as usize,
    )?;
    let ways = Ways {
        sizes,
        options,
        gate,
    };
    run_named::<R, G, Brand>(rt, alloc, catalogue, &cells, publisher, passes, ways)
}

/// Gives the tasks of the catalogue of this name their turns, with no worker.
fn drain_named<'b, N: Naming>(
    alloc: Global,
    catalogue: &'b Catalogue,
    cells: &'b Cells,
    publisher: Publisher,
    options: Options,
) -> Result<RunReport, Memory>
    requires named { catalogue.now ≡ N.catalogue }
    requires own { publisher.cells ≡ cells.now }
    requires unused { publisher.history ≡ catalogue.now.initial ∷ [] }
    requires every { options.checkpoint ≡ N.every }
    ensures lawful { IfOk result (λ r. LawfulReport catalogue.now (told_run r)) }
    ensures reached { IfOk result (λ r. BaseReached catalogue.now (told_run r)) }
    ensures short { IfOk result (λ r. KeepsShort options.checkpoint (told_run r)) }
    ensures memory { IfOk result (λ r. GaveUpForMemory catalogue.now (told_run r)) }
{
    let named = open::<N>(alloc, catalogue, cells, publisher)?;
    settle(alloc, options.checkpoint(), named)
}

/// Runs the tasks of the catalogue of this name by workers, and gives what they leave its turn.
fn run_named<'b, R: Threads + Wait + Sync, G: Gate, N: Naming>(
    rt: &R,
    alloc: Global,
    catalogue: &'b Catalogue,
    cells: &'b Cells,
    publisher: Publisher,
    passes: Vec<Pass>,
    ways: Ways<'_, G>,
) -> Result<RunReport, Memory>
    requires named { catalogue.now ≡ N.catalogue }
    requires own { publisher.cells ≡ cells.now }
    requires unused { publisher.history ≡ catalogue.now.initial ∷ [] }
    requires passes { All (λ p. p.cells ≡ cells.now) passes.items }
    requires variables { cells.now.variables ≡ length catalogue.now.initial }
    requires every { ways.options.checkpoint ≡ N.every }
    ensures lawful { IfOk result (λ r. LawfulReport catalogue.now (told_run r)) }
    ensures reached { IfOk result (λ r. BaseReached catalogue.now (told_run r)) }
    ensures short { IfOk result (λ r. KeepsShort ways.entry.options.checkpoint (told_run r)) }
    ensures memory { IfOk result (λ r. GaveUpForMemory catalogue.now (told_run r)) }
{
    let every = ways.options.checkpoint();
    let shared = Mutex::new(open::<N>(alloc, catalogue, cells, publisher)?);
    run_beside(rt, alloc, catalogue, cells, &shared, passes, ways);
    settle(alloc, every, shared.into_inner())
}

/// Runs a worker for each pass, side by side, and waits for them.
fn run_beside<'b, R: Threads + Wait + Sync, G: Gate, N: Naming>(
    rt: &R,
    alloc: Global,
    catalogue: &'b Catalogue,
    cells: &'b Cells,
    shared: &Mutex<Named<'b, N>>,
    passes: Vec<Pass>,
    ways: Ways<'_, G>,
)
    requires named { catalogue.now ≡ N.catalogue }
    requires passes { All (λ p. p.cells ≡ cells.now) passes.items }
    requires variables { cells.now.variables ≡ length catalogue.now.initial }
    requires every { ways.options.checkpoint ≡ N.every }
{
    let Ways {
        sizes,
        options,
        gate,
    } = ways;
    let crew = Crew {
        alloc,
        catalogue,
        sizes,
        cells,
        shared,
        gate,
        tries: options.tries(),
        every: options.checkpoint(),
    };
    run_crew(rt, &crew, passes);
}

/// Runs a worker for each pass, and waits for them.
fn run_crew<R: Threads + Wait + Sync, G: Gate, N: Naming>(
    rt: &R,
    crew: &Crew<'_, '_, G, N>,
    passes: Vec<Pass>,
)
    requires own { All (λ p. p.cells ≡ crew.now.cells.now) passes.items }
{
    let life = |pass: Pass|
        requires { pass.cells ≡ crew.now.cells.now }
    { work(rt, crew, pass) };
    start(rt, &life, passes);
}
