//! Tests of forks, masters and what goes between them: what the clauses leave to examples, and that
//! calls succeed where memory is ample.
#![tactic(auto)]

#[cfg(test)]
mod compared;
#[cfg(test)]
mod connections;
#[cfg(test)]
mod forks;
#[cfg(test)]
mod handlers;
#[cfg(test)]
mod legal;
#[cfg(test)]
mod messages;
#[cfg(test)]
mod records;
#[cfg(test)]
mod reports;
#[cfg(test)]
mod served;
#[cfg(test)]
mod spelled;
#[cfg(test)]
mod trees;
