//! Attempts that workers bring to a store, of whatever program they are.

ghost use Rattle.std.specs.Prelude.{◌≡◌, ◌<◌, ◌↔◌, IsTrue, length};
ghost use Rattle.cells.specs.Passing.{MeetsBy};
ghost use Rattle.stm_store.specs.Bringing.{AgreeOn, Brings};
ghost use Rattle.stm_store.specs.Keeping.{HasBrought, KeepsTasks};

use crate::answers::{End, Refused};
use crate::job::Job;
use crate::serving::bring;
use crate::store::Store;
use crate::worker::Worker;
use std::slice;
use txn::{Catalogue, TxId};
use txn_declarations::same::{same_always, same_transactions};

impl Store {
    /// Brings a worker's ended attempt to the book: it is entered or parked where all that it read is still so. The
    /// worker, which may be of any store, has no ended attempt afterwards, whatever the answer is. It takes no memory,
    /// so no task is given up. Its time grows with the transaction and with the standing conditions.
    ///
    /// Else nothing changed but the worker. `NotEnded` exactly where it had none; `Gone` exactly where the store has
    /// no such job in its present chapter; `OtherProgram` exactly where the worker's program says otherwise of the
    /// job's transaction than the store's: of what it does, of the standing conditions, or of how many variables and
    /// cells there are; `NotRunning` exactly where the task is not running; `Stale` exactly where what was read is no
    /// longer so, and the task stays running.
    pub fn bring(&mut self, worker: &mut Worker) -> Result<End, Refused>
        ensures brought { Brings self.old worker.old result self.new }
        ensures kept { KeepsTasks self.old self.new }
        ensures worker { HasBrought worker.old worker.new }
    {
        let Some(job) = worker.ended else {
            return Err(Refused::NotEnded);
        };
        worker.ended = None;
        let task = job.task;
        if !self.has_now(job) {
            return Err(Refused::Gone);
        }
        self.book.law();
        let tx = self.book.task_tx(task);
        if !agree_on(worker.catalogue, self.catalogue, tx) {
            return Err(Refused::OtherProgram);
        }
        bring(&mut self.book, &mut worker.attempt, self.every, task)
    }

    /// Tells a worker of this store all states that were published, by one load of the clock.
    pub fn meet(&mut self, worker: &mut Worker)
        requires own { worker.old.cells ≡ self.old.cells }
        ensures met { MeetsBy worker.old.pass worker.new.pass self.old.book.history }
        ensures same { self.new.book ≡ self.old.book }
        ensures kept { KeepsTasks self.old self.new }
        ensures ended { worker.new.ended ≡ worker.old.ended }
        ensures attempt { worker.new.attempt ≡ worker.old.attempt }
        ensures catalogue { worker.new.catalogue.now ≡ worker.old.catalogue.now }
        ensures cells { worker.new.cells ≡ worker.old.cells }
    {
        self.book.meet(&mut worker.pass);
    }
}

impl Worker {
    /// The job whose attempt has ended and was not brought to the store yet.
    pub fn ended(&self) -> Option<Job>
        ensures { result ≡ self.now.ended }
    {
        self.ended
    }
}

/// Whether the two programs say the same of the transaction.
fn agree_on(one: &Catalogue, other: &Catalogue, tx: TxId) -> bool
    requires first { tx.0 < length one.now.transactions }
    requires second { tx.0 < length other.now.transactions }
    ensures { IsTrue result ↔ AgreeOn one.now other.now tx }
{
    one.initial().len() == other.initial().len()
        && same_transactions(slice::from_ref(one.tx(tx)), slice::from_ref(other.tx(tx)))
        && same_always(one.always(), other.always())
}
