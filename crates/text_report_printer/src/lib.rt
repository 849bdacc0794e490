//! The canonical form of a report.
#![tactic(auto)]

mod cells;
mod line;
mod names;
mod report;

pub use cells::{put_cells, put_values};
pub use names::{always_name, put_value_name, transaction_name, variable_name};
pub use report::{
    LONGEST, print_report, put_entries, put_entry, put_number, put_outcome, put_tasks,
    put_variables, value_fits, values_fit,
};
