// The records of a copy, each made when it is written.
ghost use Rattle.std.specs.Prelude.{◌≡◌, map, take, drop, IfOk, option_map};
ghost use Rattle.rx_record.specs.Shown.{content};
ghost use Rattle.rx_compact.specs.Plan.{collection_record, known_record, most_in_part, part_row, replication_record};

use rx_collection::{Collection, Page};
use rx_document::{Place, Stored};
use rx_meta::Known;
use rx_record::{MasterName, PartRow, Record};
use rx_value::{RxText, State};
use rx_world::Replication;
use std::alloc::{AllocError, Global};

/// The most documents or states of a part.
pub(crate) const MOST_IN_PART: usize = 100;

pub(crate) fn collection_record(
    alloc: Global,
    collection: &Collection,
) -> Result<Record, AllocError>
    ensures { IfOk result (λ r. content r ≡ collection_record collection.now) }
{
    Ok(Record::Collection {
        name: collection.name().copy(alloc)?,
        schema: collection.schema().canonical().copy(alloc)?,
    })
}

pub(crate) fn replication_record(
    alloc: Global,
    replication: &Replication,
) -> Result<Record, AllocError>
    ensures { IfOk result (λ r. content r ≡ replication_record replication.now) }
{
    Ok(Record::Replication {
        name: replication.name.copy(alloc)?,
        fork: replication.fork.copy(alloc)?,
        master: copy_of_master(alloc, &replication.master)?,
        handler: replication.handler.copy(alloc)?,
        field: copy_of_field(alloc, &replication.field)?,
    })
}

fn copy_of_master(alloc: Global, master: &MasterName) -> Result<MasterName, AllocError>
    ensures { IfOk result (λ m. m ≡ master.now) }
{
    match master {
        MasterName::Local(name) => Ok(MasterName::Local(name.copy(alloc)?)),
        MasterName::Port(port) => Ok(MasterName::Port(*port)),
    }
}

fn copy_of_field(alloc: Global, field: &Option<RxText>) -> Result<Option<RxText>, AllocError>
    ensures { IfOk result (λ f. f ≡ field.now) }
{
    match field {
        Some(name) => Ok(Some(name.copy(alloc)?)),
        None => Ok(None),
    }
}

/// The next documents of a page, as many as a part has, or those that are left.
pub(crate) fn next_rows(alloc: Global, page: &mut Page<'_>) -> Result<Vec<PartRow>, AllocError>
    ensures rows { IfOk result (λ rows. rows.items ≡ map part_row (take most_in_part page.old)) }
    ensures left { IfOk result (λ _. page.new ≡ drop most_in_part page.old) }
{
    let mut rows = Vec::new(alloc);
    while rows.len() < MOST_IN_PART {
        match page.next() {
            Some(document) => rows.push(part_row(alloc, document)?)?,
            None => return Ok(rows),
        }
    }
    Ok(rows)
}

fn part_row(alloc: Global, document: &Stored) -> Result<PartRow, AllocError>
    ensures { IfOk result (λ r. r ≡ part_row document.now) }
{
    Ok(PartRow {
        lwt: document.lwt,
        height: document.rev.height,
        state: document.state.copy(alloc)?,
    })
}

/// The next known states, as many as a part has, or those that are left.
pub(crate) fn next_states(alloc: Global, known: &mut Known<'_>) -> Result<Vec<State>, AllocError>
    ensures states { IfOk result (λ states. states.items ≡ take most_in_part known.old) }
    ensures left { IfOk result (λ _. known.new ≡ drop most_in_part known.old) }
{
    let mut states = Vec::new(alloc);
    while states.len() < MOST_IN_PART {
        match known.next() {
            Some(state) => states.push(state.copy(alloc)?)?,
            None => return Ok(states),
        }
    }
    Ok(states)
}

/// The record of states that a fork knows, with both checkpoints.
pub(crate) fn known_record(
    alloc: Global,
    replication: &Replication,
    known: Vec<State>,
) -> Result<Record, AllocError>
    ensures { IfOk result (λ r. content r ≡ known_record replication.now known.items) }
{
    Ok(Record::KnownPart {
        name: replication.name.copy(alloc)?,
        known,
        up: copy_of_place(alloc, replication.side.up())?,
        down: copy_of_place(alloc, replication.side.down())?,
    })
}

fn copy_of_place(alloc: Global, place: Option<&Place>) -> Result<Option<Place>, AllocError>
    ensures { IfOk result (λ p. p ≡ option_map (λ q. q.now) place.entry) }
{
    match place {
        Some(place) => Ok(Some(Place {
            lwt: place.lwt,
            id: place.id.copy(alloc)?,
        })),
        None => Ok(None),
    }
}
