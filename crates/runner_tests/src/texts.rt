//! The text of each fault, which is its line.

use runner::RunFault;
use std::alloc::Global;
use txn_text::ReadFault;

/// Whether the fault has this text and this status.
fn is_told(alloc: Global, fault: RunFault, text: &str, status: u8) -> bool {
    match format!(in alloc; "{fault}") {
        Ok(shown) => shown.as_str() == text && fault.line() == text && fault.status() == status,
        Err(_) => false,
    }
}

/// Each fault, with its text and its status.
const FAULTS: &[(RunFault, &str, u8)] = &[
    (
        RunFault::Input(ReadFault::TooLong),
        "stm: file: F1 TooLong",
        2,
    ),
    (
        RunFault::Input(ReadFault::BadByte),
        "stm: file: F2 BadByte",
        2,
    ),
    (RunFault::Input(ReadFault::Shape), "stm: file: F3 Shape", 2),
    (RunFault::Input(ReadFault::Name), "stm: file: F4 Name", 2),
    (RunFault::Input(ReadFault::Limit), "stm: file: F5 Limit", 2),
    (
        RunFault::Input(ReadFault::Broken),
        "stm: file: F7 Broken",
        2,
    ),
    (
        RunFault::Schedule(ReadFault::TooLong),
        "stm: schedule: F1 TooLong",
        2,
    ),
    (
        RunFault::Schedule(ReadFault::BadByte),
        "stm: schedule: F2 BadByte",
        2,
    ),
    (
        RunFault::Schedule(ReadFault::Shape),
        "stm: schedule: F3 Shape",
        2,
    ),
    (
        RunFault::Schedule(ReadFault::Name),
        "stm: schedule: F4 Name",
        2,
    ),
    (
        RunFault::Schedule(ReadFault::Limit),
        "stm: schedule: F5 Limit",
        2,
    ),
    (RunFault::Output, "stm: cannot write", 4),
    (RunFault::Memory, "stm: out of memory", 5),
];

#[test]
fn faults_have_their_texts_and_statuses(rt: HostRuntime) {
    for &(fault, text, status) in FAULTS {
        assert!(rt; is_told(rt.alloc(), fault, text, status), "of {text}");
    }
}
