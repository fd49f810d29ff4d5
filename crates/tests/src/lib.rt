//! The tests: each shows that public functions succeed with ample memory, which no clause promises. They are in one crate,
//! since each crate with tests reads and compiles all that these call. The first line of a module says what it tests.
//!
//! The modules `refused_..` print for `tests/failures/refused_calls` which calls to refuse memory. Calls below edits, runs and
//! jobs are in the crates `tests_memory_layers` and `tests_memory_session`. What commands can show is in
//! `tests/transcripts`. Expected values are worked by hand from the rules in `docs/protocol.md`.
#![tactic(auto)]

#[cfg(test)]
mod account;
#[cfg(test)]
mod alike;
#[cfg(test)]
mod bar_chains;
#[cfg(test)]
mod costs;
#[cfg(test)]
mod counted_chains;
#[cfg(test)]
mod failing;
#[cfg(test)]
mod gap_lists;
#[cfg(test)]
mod jobs;
#[cfg(test)]
mod kept_runs;
#[cfg(test)]
mod memos;
#[cfg(test)]
mod orders;
#[cfg(test)]
mod plays;
#[cfg(test)]
mod publishing;
#[cfg(test)]
mod readers;
#[cfg(test)]
mod refused_below;
#[cfg(test)]
mod refused_edits;
#[cfg(test)]
mod refused_jobs;
#[cfg(test)]
mod refused_runs;
#[cfg(test)]
mod runs;
#[cfg(test)]
mod sessions;
#[cfg(test)]
mod shelf;
#[cfg(test)]
mod streams;
#[cfg(test)]
mod texts;
#[cfg(test)]
mod values;
