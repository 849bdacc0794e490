//! From the bytes of a file to its catalogue.

ghost use Rattle.std.specs.Prelude.{IfErr, IfOk};
ghost use Rattle.txn_text.specs.Spelling.{Spells};
ghost use Rattle.run_interface.specs.Refused.{IsRefused};

use crate::fault::RunFault;
use std::alloc::Global;
use txn::Catalogue;
use txn_text::{ReadFault, read_file};

/// The catalogue that the bytes spell. `Input`: they spell no file, and this is the first kind of fault that
/// they have. `Memory`: a growth was refused.
pub fn catalogue_of(alloc: Global, bytes: &[u8]) -> Result<Catalogue, RunFault>
    ensures spelled { IfOk result (λ c. Spells bytes.now c) }
    ensures refused { IfErr result (IsRefused bytes.now) }
{
    match read_file(alloc, bytes) {
        Ok(catalogue) => Ok(catalogue),
        Err(ReadFault::Memory) => Err(RunFault::Memory),
        Err(kind) => Err(RunFault::Input(kind)),
    }
}
