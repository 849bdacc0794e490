//! The library as C and Rust hosts link it: whole files in, whole texts out (`checking`, `running`,
//! `playing`, `exploring`, `explaining`); and a program, stores of it and their workers, for a host that has
//! threads and a lock of its own (`reading`, `naming`, `hosting`, `submitting`, `tasks`, `calling`,
//! `chapters`, `looking`, `trying`). No call starts a thread or takes a lock. What each answers in
//! numbers stands in `codes`, and in the header for C; of a task in an `Answer`, of a job in a `Taken`.
#![tactic(auto)]

mod answers;
mod asking;
mod calling;
mod chapters;
mod checking;
mod codes;
mod desk_answers;
mod desk_chapters;
mod desk_handle;
mod desk_long;
mod desk_looking;
mod desk_opening;
mod ended_handle;
mod ended_texts;
mod explaining;
mod exploring;
mod hosting;
mod jobs;
mod lender_handle;
mod looking;
mod naming;
mod parts;
mod playing;
mod program_handle;
mod reading;
mod running;
mod store_handle;
mod submitting;
mod tasks;
mod trying;
mod worker_handle;
mod writing;
