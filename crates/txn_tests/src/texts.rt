//! The texts of the errors.

use std::alloc::Global;
use txn::{BuildFault, Memory};

/// Whether the fault has this line.
fn has_line(alloc: Global, fault: BuildFault, line: &str) -> bool {
    match format!(in alloc; "{fault}") {
        Ok(text) => text.as_str() == line,
        Err(_) => false,
    }
}

/// Whether running out of memory has it.
fn memory_has_line(alloc: Global, line: &str) -> bool {
    match format!(in alloc; "{Memory}") {
        Ok(text) => text.as_str() == line,
        Err(_) => false,
    }
}

#[test]
fn faults_have_their_lines(rt: HostRuntime) {
    assert!(rt; memory_has_line(rt.alloc(), "out of memory"));
    assert!(rt; has_line(rt.alloc(), BuildFault::Limit, "a limit is passed"));
    assert!(rt;
        has_line(
            rt.alloc(),
            BuildFault::Broken,
            "a standing condition is not true of the initial values"
        )
    );
}
