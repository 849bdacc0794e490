//! The instances of files whose transactions have parameters, and the way to where one of them shows something.

use explore_search::{InstanceId, Instances, Sought, WayWhere, instances_of, way_where};
use std::alloc::{AllocError, Global};
use txn::{Catalogue, TxId};
use txn_text::read_file;

/// Whether the first calls are of these transactions, with these first arguments.
fn begin_so(instances: &Instances, calls: &[(u32, i64)]) -> bool {
    for place in 0..calls.len() {
        let is_so = match instances.calls.get(place) {
            Some(call) => {
                call.tx.0 == calls[place].0
                    && call.arguments.as_slice().first() == Some(&calls[place].1)
            }
            None => false,
        };
        if !is_so {
            return false;
        }
    }
    true
}

/// Whether there are so many calls, of which these are the first, and the first tasks have these instances and the last
/// one that.
pub(crate) fn are_numbered(
    alloc: Global,
    catalogue: &Catalogue,
    calls: &[(u32, i64)],
    count: usize,
    tasks: &[InstanceId],
    last: InstanceId,
) -> bool {
    match instances_of(alloc, catalogue) {
        Ok(instances) => {
            begin_so(&instances, calls)
                && instances.calls.len() == count
                && instances.of_tasks.len() == catalogue.tasks()
                && instances.of_tasks.as_slice().starts_with(tasks)
                && instances.of_tasks.last() == Some(&last)
        }
        Err(_) => false,
    }
}

/// Whether the way goes by the third instance to the second.
fn goes_to_the_second(way: &WayWhere) -> bool {
    way.turns.as_slice() == [InstanceId(2)].as_slice() && way.instance == InstanceId(1)
}

/// Whether the way to where the first transaction returns this goes there, or nowhere.
pub(crate) fn is_sighted(
    alloc: Global,
    catalogue: &Catalogue,
    value: i64,
    somewhere: bool,
) -> bool {
    let sought = Sought::Returned(Some(value));
    match way_where(alloc, catalogue, 1_000_000, TxId(0), sought) {
        Ok(Some(way)) => somewhere && goes_to_the_second(&way),
        Ok(None) => !somewhere,
        Err(_) => false,
    }
}

/// A file with 65,536 different calls.
fn many(alloc: Global) -> Result<String, AllocError> {
    let mut text = String::from_str(alloc, "(stm 3)(tx t (k) (skip) k)")?;
    for k in 0..65536 {
        text.push_str("(run t 1 ")?;
        text.push_str(k.to_string(alloc)?.as_str())?;
        text.push_str(")")?;
    }
    Ok(text)
}

/// Whether each of the calls of the file is listed.
fn are_listed(alloc: Global, text: &str) -> bool {
    let last = InstanceId(65535);
    let first = [InstanceId(0), InstanceId(1)];
    match read_file(alloc, text.as_bytes()) {
        Ok(catalogue) => {
            catalogue.tasks() == 65536
                && are_numbered(alloc, &catalogue, &[(0, 0), (0, 1)], 65536, &first, last)
        }
        Err(_) => false,
    }
}

/// Whether so is each of the most that there may be.
fn are_all_listed(alloc: Global) -> bool {
    match many(alloc) {
        Ok(text) => are_listed(alloc, text.as_str()),
        Err(_) => false,
    }
}

#[test]
fn sixty_five_thousand_calls_are_listed(rt: HostRuntime) {
    assert!(rt; are_all_listed(rt.alloc()));
}
