//! What the tests build their catalogues of.

use std::alloc::{AllocError, Global};
use txn::limits::MAX_PARAMETERS;
use txn::{Arguments, Call, Catalogue, TxId, VarId};
use txn_text::read_file;

pub(crate) const X: VarId = VarId(0);

/// The catalogue of a text, `None` where it is no file or memory is refused.
pub(crate) fn catalogue(alloc: Global, text: &str) -> Option<Catalogue> {
    match read_file(alloc, text.as_bytes()) {
        Ok(catalogue) => Some(catalogue),
        Err(_) => None,
    }
}

/// The call of the transaction with these arguments, with none if they are too many.
pub(crate) fn call(tx: TxId, arguments: &[i64]) -> Call {
    let arguments = if arguments.len() <= MAX_PARAMETERS {
        Arguments::of(arguments)
    } else {
        Arguments::none()
    };
    Call { tx, arguments }
}

/// The parts, each so many times, one after the other.
pub(crate) fn repeated(alloc: Global, parts: &[(u32, &str)]) -> Result<String, AllocError> {
    let mut text = String::new(alloc);
    for (times, part) in parts {
        for _time in 0..*times {
            text.push_str(part)?;
        }
    }
    Ok(text)
}
