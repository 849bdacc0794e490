//! Tests of what `txn_text`, `text_report_printer`, `text_line_reader` and `checker` promise their callers: each call,
//! and values that no file says. Which texts are read, refused, printed and judged is played by `cases/`.
#![tactic(auto)]

#[cfg(test)]
mod chapters;
#[cfg(test)]
mod checked_parts;
#[cfg(test)]
mod checked_texts;
#[cfg(test)]
mod conditions;
#[cfg(test)]
mod files;
#[cfg(test)]
mod names;
#[cfg(test)]
mod parts;
#[cfg(test)]
mod printing;
#[cfg(test)]
mod reading;
#[cfg(test)]
mod report_reading;
#[cfg(test)]
mod round_trips;
#[cfg(test)]
mod schedule_reading;
#[cfg(test)]
mod verdicts;
