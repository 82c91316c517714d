//! Tests of what meets the system: streams, doors and clocks in memory and as the system has them,
//! and an append to a journal, call by call in memory and to a real file, and a group of records.
#![tactic(auto)]

#[cfg(test)]
mod appended;
#[cfg(test)]
mod groups;
#[cfg(test)]
mod outside;
#[cfg(test)]
mod standard;
