// The rows of a bulk.
ghost use Rattle.std.specs.Prelude.{◌≡◌, [], map, IfOk, OnOk, is_some};
ghost use Rattle.std.specs.List.{AllByRecursion, IsDistinct};
ghost use Rattle.std.specs.Str.{bytes_eq};
ghost use Rattle.serde_json.specs.View.{view};
ghost use Rattle.rx_value.specs.Due.{Due, DueBy};
ghost use Rattle.rx_value.specs.Named.{named, put_in_order};
ghost use Rattle.rx_collection.specs.Commit.{next_height};
ghost use Rattle.rx_world.specs.Step.{IsValidState};
ghost use Rattle.rx_writes.specs.Documents.{next_revision};
ghost use Rattle.rx_writes.specs.Rows.{in_row, row_state, rows_states};
ghost use Rattle.rx_writes.specs.declared.fault.Fault.TheVariants.{Memory};

use crate::documents::{free_height, read_state, revision_at};
use crate::fault::Fault;
use crate::hooked::written_state;
use rx_collection::Collection;
use rx_reply::Refusal;
use rx_runs::{Name, Run};
use rx_update::{Attached, Hooks, When};
use rx_value::{RxText, State};
use serde_json::Value as Json;
use std::alloc::{AllocError, Global};

/// What the rows of a bulk come to.
#[derive(Drop)]
pub struct Rows {
    pub states: Vec<State>,
    /// The revision that the write of each gets.
    pub revs: Vec<RxText>,
}

/// The states of documents. The first row at fault decides.
pub fn read_rows(
    alloc: Global,
    hooks: &Hooks,
    attached: &[Attached],
    collection: &Collection,
    docs: &[Json],
) -> Result<Rows, Fault>
    ensures exact { DueBy Memory (λ rows. rows.states.items) result
        (rows_states collection.now attached.now 0 [] (map view docs.now)) }
    ensures revs { IfOk result (λ rows. rows.revs.items
        ≡ map (λ s. next_revision collection.now s.key) rows.states.items) }
    ensures valid { IfOk result
        (λ rows. AllByRecursion (IsValidState collection.now.schema) rows.states.items) }
    ensures distinct { IfOk result
        (λ rows. IsDistinct bytes_eq (map (λ s. s.key) rows.states.items)) }
{
    let mut seen = Run::new(alloc);
    let mut states = Vec::with_capacity(alloc, docs.len())?;
    let mut revs = Vec::with_capacity(alloc, docs.len())?;
    for (row, doc) in docs.iter().enumerate() {
        let (state, height) = read_row(
            alloc, hooks, attached, collection, row as u64, &mut seen, doc,
        )?;
        states.push(state)?;
        revs.push(revision_at(alloc, collection, height)?)?;
    }
    Ok(Rows { states, revs })
}

// The state of a row whose key is none of those before it, and the height that its write gets.
fn read_row(
    alloc: Global,
    hooks: &Hooks,
    attached: &[Attached],
    collection: &Collection,
    row: u64,
    seen: &mut Run<()>,
    doc: &Json,
) -> Result<(State, u64), Fault>
    ensures exact { DueBy Memory (λ r. r.0) result
        (row_state collection.now attached.now row seen.old (view doc.now)) }
    ensures height { IfOk result
        (λ r. r.1 ≡ next_height (named collection.now.documents r.0.key)) }
    ensures seen { IfOk result (λ r. seen.new
        ≡ put_in_order seen.old r.0.key tt) }
{
    let state = in_row(row, read_state(alloc, collection.schema().primary(), doc))?;
    if add_key(alloc, seen, &state.key)? {
        return Err(Fault::Refused(Refusal::Twice { row }));
    }
    let when = When::Insert;
    let hooked = in_row(
        row,
        written_state(alloc, hooks, attached, collection, when, state),
    )?;
    let height = in_row(row, free_height(alloc, collection, hooked.key.as_str()))?;
    Ok((hooked, height))
}

// Adds the key of a row, and tells whether it is that of an earlier row.
fn add_key(alloc: Global, seen: &mut Run<()>, key: &RxText) -> Result<bool, AllocError>
    ensures earlier { IfOk result (λ earlier. earlier ≡ is_some (named seen.old key.now)) }
    ensures keys { OnOk result (seen.new ≡ put_in_order seen.old key.now tt) }
{
    let name = Name::new(alloc, key.as_str().as_bytes())?;
    match seen.put(name, ()) {
        Ok(earlier) => Ok(earlier.is_some()),
        Err(()) => Err(AllocError),
    }
}

// A fault of a document as that of its row.
fn in_row<T: Drop>(row: u64, found: Result<T, Fault>) -> Result<T, Fault>
    ensures { result ≡ in_row row found }
{
    match found {
        Ok(found) => Ok(found),
        Err(Fault::Refused(Refusal::Document { fault, .. })) => {
            Err(Fault::Refused(Refusal::Document {
                fault,
                row: Some(row),
            }))
        }
        Err(Fault::Refused(Refusal::Vetoed { hook, .. })) => {
            Err(Fault::Refused(Refusal::Vetoed {
                hook,
                row: Some(row),
            }))
        }
        Err(fault) => Err(fault),
    }
}
