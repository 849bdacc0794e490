//! The way that the search found to a configuration.

ghost use Rattle.std.specs.Prelude.{◌≡◌, ◌≢◌, ◌<◌, All, IfNone, IfOk, IfSome, length};
ghost use Rattle.explore_law.specs.Explored.{end_config};
ghost use Rattle.explore_law.specs.Ways.{IsWay};
ghost use Rattle.explore_search.specs.Indexed.{config_at};
ghost use Rattle.explore_search.specs.Charted.{IsCharted};

use crate::Configs;
use crate::search::Came;
use explore_law::{End, InstanceId};
use std::alloc::{AllocError, Global};
use txn::Catalogue;

/// Turns that lead from the first configuration to that of this number.
pub(crate) fn way_to(
    alloc: Global,
    catalogue: &Catalogue,
    configs: &Configs,
    came: &[Came],
    number: usize,
) -> Result<Vec<InstanceId>, AllocError>
    requires listed { number < length configs.now.configs }
    requires charted { IsCharted catalogue.now configs.now.configs came.now }
    ensures { IfOk result (λ way. IsWay catalogue.now way.items (config_at configs.now.configs number)) }
{
    let mut way = Vec::new(alloc);
    let mut at = number;
    'back: while at > 0 {
        let step = came[at - 1];
        way.push(step.by)?;
        at = step.from as usize;
    }
    way.reverse();
    Ok(way)
}

/// Which of the configurations of these numbers is the end's.
pub(crate) fn number_of(configs: &Configs, numbers: &[u32], end: &End) -> Option<usize>
    requires { All (λ i. i < length configs.now.configs) numbers.now }
    ensures low { IfSome result (λ i. i < length configs.now.configs) }
    ensures found { IfSome result (λ i. config_at configs.now.configs i ≡ end_config end.now) }
    ensures none { IfNone result (All (λ i. config_at configs.now.configs i ≢ end_config end.now) numbers.now) }
{
    'numbers: for i in numbers {
        let i = *i as usize;
        if configs.is_at(i, end.values.as_slice(), end.waiting.as_slice()) {
            return Some(i);
        }
    }
    None
}
