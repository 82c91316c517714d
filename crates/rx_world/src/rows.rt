// The rows of records and the documents of collections.
ghost use Rattle.std.specs.Prelude.{◌≡◌, ◌<◌, true, map, length, Some, None, IfOk, IsErrOf};
ghost use Rattle.std.specs.List.{AllByRecursion, IsDistinct};
ghost use Rattle.std.specs.Str.{bytes_eq};
ghost use Rattle.rx_value.specs.Named.{named};
ghost use Rattle.rx_record.specs.Shown.{content};
ghost use Rattle.rx_record.specs.Writable.{IsOrdered};
ghost use Rattle.rx_world.specs.Commit.{out_of, commit_to};
ghost use Rattle.rx_world.specs.Made.{IsMadeWorld};
ghost use Rattle.rx_world.specs.Sound.{IsSoundWorld};
ghost use Rattle.rx_world.specs.Step.{IsValidState, legal, step, stored_of, stored_rows};
ghost use Rattle.rx_world.specs.World.{World};
ghost use Rattle.rx_world.specs.Touch.{IsNoMigration};

use crate::fault::StepFault;
use rx_collection::Collection;
use rx_document::{Revision, Stored};
use rx_record::{Record, RowOut};
use rx_value::{RxText, State};
use std::alloc::{AllocError, Global};

// The rows of a record as the collection of that name stores them.
pub(crate) fn stored_rows(
    alloc: Global,
    name: &RxText,
    lwt: u64,
    rows: Vec<RowOut>,
) -> Result<Vec<Stored>, AllocError>
    ensures { IfOk result (λ stored. stored.items ≡ stored_rows name.now lwt rows.items) }
{
    let mut stored = Vec::with_capacity(alloc, rows.len())?;
    for row in rows {
        stored.push(stored_row(alloc, name, lwt, row)?)?;
    }
    Ok(stored)
}

fn stored_row(alloc: Global, name: &RxText, lwt: u64, row: RowOut) -> Result<Stored, AllocError>
    ensures { IfOk result (λ stored. stored ≡ stored_of name.now lwt row) }
{
    let token = name.copy(alloc)?;
    let RowOut { height, state } = row;
    Ok(Stored {
        state,
        rev: Revision { height, token },
        lwt,
    })
}

/// Documents as the rows of a record.
pub fn rows_out(alloc: Global, documents: Vec<Stored>) -> Result<Vec<RowOut>, AllocError>
    ensures { IfOk result (λ rows. rows.items ≡ map out_of documents.items) }
{
    let mut rows = Vec::with_capacity(alloc, documents.len())?;
    for document in documents {
        rows.push(row_out(document))?;
    }
    Ok(rows)
}

fn row_out(document: Stored) -> RowOut
    ensures { result ≡ out_of document }
{
    let Stored { state, rev, .. } = document;
    RowOut {
        height: rev.height,
        state,
    }
}

/// The record that writes states to a collection, above all that it holds. Nothing is changed: the
/// record is to be kept, and then applied to a world that holds the collection.
pub fn commit(
    alloc: Global,
    collection: &Collection,
    states: Vec<State>,
    now: u64,
) -> Result<Record, StepFault>
    requires some { 0 < length states.items }
    requires distinct { IsDistinct bytes_eq (map (λ s. s.key) states.items) }
    requires valid { AllByRecursion (IsValidState collection.now.schema) states.items }
    ensures ok { IfOk result
        (λ entry. commit_to collection.now.name states.items now collection.now
        ≡ Some (content entry)) }
    ensures legal { (w : World) → named w.collections collection.now.name ≡ Some collection.now
        → IfOk result (λ entry. legal (content entry) w ≡ true) }
    ensures ordered { IfOk result (λ entry. IsOrdered (content entry)) }
    ensures sound { (w : World) → IsMadeWorld w
        → named w.collections collection.now.name ≡ Some collection.now → IsSoundWorld w
        → IfOk result (λ entry. IsSoundWorld (step (content entry) w)) }
    ensures rows { IfOk result (λ entry. IsNoMigration (content entry)) }
    ensures clock_end { IsErrOf result StepFault.ClockEnd
        → commit_to collection.now.name states.items now collection.now ≡ None }
{
    let Some(lwt) = collection.stamp(now) else {
        return Err(StepFault::ClockEnd);
    };
    let documents = collection.rows(alloc, states, lwt)?;
    Ok(Record::Rows {
        name: collection.name().copy(alloc)?,
        lwt,
        rows: rows_out(alloc, documents)?,
    })
}
