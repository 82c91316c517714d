//! Tests of whole runs over forms in memory: what the clauses of `rx` leave to examples, and that
//! runs succeed where memory is ample; and one run whose contract is its transcript.
#![tactic(auto)]

#[cfg(test)]
mod audit;
#[cfg(test)]
mod bytes;
#[cfg(test)]
mod case;
#[cfg(test)]
mod commands;
#[cfg(test)]
mod copied;
#[cfg(test)]
mod counted;
#[cfg(test)]
mod elsewhere;
#[cfg(test)]
mod endless;
#[cfg(test)]
mod explained;
#[cfg(test)]
mod hashes;
mod headline;
#[cfg(test)]
mod hooked;
#[cfg(test)]
mod hostile;
#[cfg(test)]
mod indexed;
#[cfg(test)]
mod journal;
#[cfg(test)]
mod limits;
#[cfg(test)]
mod listed;
#[cfg(test)]
mod many;
#[cfg(test)]
mod migrated;
#[cfg(test)]
mod migrating;
#[cfg(test)]
mod migration_records;
#[cfg(test)]
mod pages;
#[cfg(test)]
mod planned;
#[cfg(test)]
mod played;
#[cfg(test)]
mod positions;
#[cfg(test)]
mod prefixes;
#[cfg(test)]
mod queries;
#[cfg(test)]
mod random;
#[cfg(test)]
mod reading;
#[cfg(test)]
mod replicating;
#[cfg(test)]
mod reporting;
#[cfg(test)]
mod revisions;
#[cfg(test)]
mod run;
#[cfg(test)]
mod runs;
#[cfg(test)]
mod schemas;
#[cfg(test)]
mod screens;
#[cfg(test)]
mod selectors;
#[cfg(test)]
mod short;
#[cfg(test)]
mod sides;
#[cfg(test)]
mod starved;
#[cfg(test)]
mod statuses;
#[cfg(test)]
mod stops;
#[cfg(test)]
mod streamed;
#[cfg(test)]
mod swept;
#[cfg(test)]
mod texts;
#[cfg(test)]
mod turned;
#[cfg(test)]
mod updates;
#[cfg(test)]
mod values;
#[cfg(test)]
mod windowed;
#[cfg(test)]
mod windows;
#[cfg(test)]
mod words;
#[cfg(test)]
mod world;

pub use headline::{Played, play_in_memory};
