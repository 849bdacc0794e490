//! Tasks by their number.

ghost use Rattle.std.specs.Prelude.{◌≡◌, IfErr};
ghost use Rattle.text_words.specs.Answers.{Gives};
ghost use Rattle.text_words.specs.declared.fault.ReadFault.TheVariants.{Limit};
ghost use Rattle.text_line_reader.specs.Counts.{task_id};

use crate::numeral::Count;
use text_words::ReadFault;
use txn::{Catalogue, TaskId};

/// The task of this number.
#[tactic(auto, unfolding(crate::specs::Counts::task_id))]
pub fn task_id(catalogue: &Catalogue, task: Count<'_>) -> Result<TaskId, ReadFault>
    ensures value { Gives (λ x. x) result (task_id catalogue.now task.entry.text.now) }
    ensures kind { IfErr result (λ e. e ≡ Limit) }
{
    let place = task.below(catalogue.tasks() as u64)?;
    Ok(TaskId(place as u32))
}
