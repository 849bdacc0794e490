//! What is read of files, and how they are printed.

use crate::names::are_names_of_the_file;
use crate::parts::{INCREMENTS, catalogue};
use crate::printing::{is_report, prints};
use crate::round_trips::comes_back;
use std::alloc::Global;
use txn::{AlwaysId, Arguments, Call, Catalogue, TxId, VarId};

/// What is asked of the catalogue of a file.
enum Asked {
    AreIncrements,
    AreAccounts,
    ArePayments,
    /// What there is has its name, and nothing else has one.
    AreNamed,
    /// It is printed so.
    IsPrinted(&'static str),
    /// A report of seven tasks of its one transaction is printed so.
    IsReport(&'static str),
    /// It comes back as it was printed, and so does a report of it.
    ComesBack,
}

/// Two accounts whose sum stays, and of which one is never below zero.
const ACCOUNTS: &str = "(stm 2)(var a 100)(var b 0)\
    (always sum (eq (add a b) 100))(always pos (le 0 a))\
    (tx move (seq (set a (sub a 60)) (set b (add b 60))) a)(tx leak (set a 0) a)\
    (run move 2)(run leak 1)";

/// Two accounts, and payments from one to the other.
const PAYMENTS: &str = "(stm 3)(var a 100)(var b 0)(always sum (eq (add a b) 100))\
    (tx pay (n)(seq (set a (sub a n)) (set b (add b n))) n)(tx look () (skip) b)\
    (run pay 2 30)(run look 1)(run pay 1 -5)";

const DECLARED: &str = "(stm 2)(var x 1)(var last 2)(always low (lt x last))(always high (lt x 9))\
    (tx first (skip) 0)(tx inc (set x (add x 1)) x)(run inc 2)";

const CANONICAL: &str = "(var x 5)\n(tx inc (set x (add x 1)) x)\n(run inc 2)\n";

const LINES: &str =
    "base 0\nentry 1 0 t returned -9223372036854775808\nentry 2 1 t threw -7\nentry 3 2 t overflow\nentry 4 3 t \
        zerodiv\nentry 5 4 t outside\nnow 5\nparked 5 t\nmemory 6 t\nend\n";

const FILES: &[(&str, &str, Asked)] = &[
    ("increments are read", INCREMENTS, Asked::AreIncrements),
    ("conditions are read", ACCOUNTS, Asked::AreAccounts),
    ("payments are read", PAYMENTS, Asked::ArePayments),
    ("names are those of the file", DECLARED, Asked::AreNamed),
    (
        "a file is printed in one way",
        INCREMENTS,
        Asked::IsPrinted(CANONICAL),
    ),
    (
        "reports are printed line by line",
        "(tx t (skip) 0)(run t 7)",
        Asked::IsReport(LINES),
    ),
    (
        "a file and its report come back",
        INCREMENTS,
        Asked::ComesBack,
    ),
];

fn are_increments(file: &Catalogue) -> bool {
    file.initial() == [5].as_slice()
        && file.tx_count() == 1
        && file.tasks() == 2
        && file.var_id("x") == Some(VarId(0))
        && file.tx_id("inc") == Some(TxId(0))
}

fn are_accounts(file: &Catalogue) -> bool {
    file.initial() == [100, 0].as_slice()
        && file.always().len() == 2
        && file.always_id("sum") == Some(AlwaysId(0))
        && file.always_id("pos") == Some(AlwaysId(1))
        && file.always_id("a") == None
        && file.tx_count() == 2
        && file.tasks() == 3
}

fn call(tx: u32, arguments: Arguments) -> Call {
    Call {
        tx: TxId(tx),
        arguments,
    }
}

fn are_payments(file: &Catalogue) -> bool {
    let runs = [
        (call(0, Arguments::of(&[30])), 2),
        (call(1, Arguments::none()), 1),
        (call(0, Arguments::of(&[-5])), 1),
    ];
    file.tx_count() == 2 && file.tasks() == 4 && file.runs() == runs.as_slice()
}

/// Whether that is so of the catalogue.
fn is_so_of(alloc: Global, catalogue: &Catalogue, asked: &Asked) -> bool {
    match asked {
        Asked::AreIncrements => are_increments(catalogue),
        Asked::AreAccounts => are_accounts(catalogue),
        Asked::ArePayments => are_payments(catalogue),
        Asked::AreNamed => are_names_of_the_file(catalogue),
        Asked::IsPrinted(canonical) => prints(alloc, catalogue, canonical),
        Asked::IsReport(lines) => is_report(alloc, catalogue, lines),
        Asked::ComesBack => comes_back(alloc, catalogue),
    }
}

/// Whether the text is a file, and that is so of its catalogue.
fn is_so(alloc: Global, text: &str, asked: &Asked) -> bool {
    match catalogue(alloc, text) {
        Some(catalogue) => is_so_of(alloc, &catalogue, asked),
        None => false,
    }
}

#[test]
fn files_are_read_and_printed(rt: HostRuntime) {
    for (shows, text, asked) in FILES {
        assert!(rt; is_so(rt.alloc(), text, asked), "{shows}");
    }
}
