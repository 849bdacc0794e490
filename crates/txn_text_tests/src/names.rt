//! The names of what a file declares, by number.

use text_report_printer::{always_name, transaction_name, variable_name};
use txn::{AlwaysId, Catalogue};

/// Whether each is told by its name, and by nothing where there is none.
fn are_named(catalogue: &Catalogue) -> bool {
    (variable_name(catalogue, 0), variable_name(catalogue, 1)) == ("x", "last")
        && (
            transaction_name(catalogue, 0),
            transaction_name(catalogue, 1),
        ) == ("first", "inc")
        && always_name(catalogue, AlwaysId(0)) == "low"
        && always_name(catalogue, AlwaysId(1)) == "high"
}

/// Whether what there is not is told by nothing, next behind the last and far from it.
fn others_have_none(catalogue: &Catalogue) -> bool {
    variable_name(catalogue, 2).is_empty()
        && variable_name(catalogue, usize::MAX).is_empty()
        && transaction_name(catalogue, 2).is_empty()
        && transaction_name(catalogue, usize::MAX).is_empty()
        && always_name(catalogue, AlwaysId(2)).is_empty()
        && always_name(catalogue, AlwaysId(u32::MAX)).is_empty()
}

/// Whether what there is has its name, and nothing else has one.
pub(crate) fn are_names_of_the_file(catalogue: &Catalogue) -> bool {
    are_named(catalogue) && others_have_none(catalogue)
}
