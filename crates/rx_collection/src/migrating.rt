// A collection that goes to the next version of its schema.
ghost use Rattle.std.specs.Prelude.{◌≡◌, map, IfOk, OnOk};
ghost use Rattle.rx_collection.specs.Migrated.{CarryAfter, migrated_collection, stored_after};

use crate::collection::Collection;
use rx_document::{Revision, Stored};
use rx_migrate::Steps;
use rx_runs::Slots;
use rx_schema::Schema;
use rx_value::{Fields, RxText, State};
use std::alloc::{AllocError, Global};

impl Collection {
    /// The same collection with another schema, each state of it after the steps, where they make
    /// one. Keys, revisions, write times and places stay, and no more than one document at a time
    /// is copied.
    pub fn migrated(self, schema: Schema, steps: &Steps) -> Result<Collection, AllocError>
        requires { CarryAfter schema steps.now self.documents }
        ensures { IfOk result (λ c. c ≡ migrated_collection schema steps.now self) }
    {
        let mut migrated = self;
        migrate_rows(migrated.alloc, &mut migrated.rows, steps)?;
        migrated.schema = schema;
        Ok(migrated)
    }
}

// Each row is taken out of its slot, and back there after the steps. Another one has its place
// meanwhile.
#[tactic(auto, using(crate::proofs::Migrated::length_set))]
fn migrate_rows(alloc: Global, rows: &mut Slots<Stored>, steps: &Steps) -> Result<(), AllocError>
    ensures { OnOk result (rows.new ≡ map (stored_after steps.now) rows.old) }
{
    let mut spare = empty_row(alloc)?;
    for slot in 0..rows.len() {
        let old = rows.replace(slot, spare);
        let new = row_after(alloc, old, steps)?;
        let back = rows.replace(slot, new);
        spare = back;
    }
    Ok(())
}

fn empty_row(alloc: Global) -> Result<Stored, AllocError> {
    Ok(Stored {
        state: State {
            key: RxText::new(alloc, "")?,
            fields: Fields::new(alloc),
            deleted: false,
        },
        rev: Revision {
            height: 0,
            token: RxText::new(alloc, "")?,
        },
        lwt: 0,
    })
}

fn row_after(alloc: Global, row: Stored, steps: &Steps) -> Result<Stored, AllocError>
    ensures { IfOk result (λ r. r ≡ stored_after steps.now row) }
{
    let Stored { state, rev, lwt } = row;
    Ok(Stored {
        state: steps.carried(alloc, state)?,
        rev,
        lwt,
    })
}
