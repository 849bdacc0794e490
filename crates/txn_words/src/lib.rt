//! What the shared words of the cells mean: the words, the order of a commit's stores, and what a
//! reader has loaded. `word_laws` says in theorems what holds of them. They know nothing of threads,
//! so that a library of threads and a stepped world can speak of the same words.
#![tactic(auto)]

pub mod word_laws;
