// Writes the copy of a world.
ghost use Rattle.std.specs.Prelude.{◌≤◌, ◌<◌, ◌∷◌, [], map};
ghost use Rattle.std.specs.List.{flat_map};
ghost use Rattle.rx_record.specs.Content.{part};
ghost use Rattle.rx_record.specs.Writable.{PlacesRise, StatesRise};
ghost use Rattle.rx_world.specs.Holders.{world_in};
ghost use Rattle.rx_world.specs.Made.{IsMadeWorld};
ghost use Rattle.rx_compact.specs.Compacting.{IsEmptyDisk};
ghost use Rattle.rx_compact.specs.Plan.{collection_record, in_parts, known_record, known_records, part_records, replication_record};
ghost use Rattle.rx_compact.specs.Writing.{Adds, HasTimes, IsGoing, WritesCopy};

use crate::plan::{collection_record, known_record, next_rows, next_states, replication_record};
use crate::writing::Copying;
use rx_collection::{Collection, Holder};
use rx_disk::Disk;
use rx_journal::{LONGEST, SHORTEST};
use rx_meta::Known;
use rx_outside::Stop;
use rx_record::{PartRow, Record};
use rx_value::State;
use rx_world::{Replication, World};
use std::alloc::Global;

/// What a copy has: how many records, and how many bytes with its closed gate.
#[derive(Drop)]
pub struct Copied {
    pub records: u64,
    pub end: u64,
}

/// Writes a journal of the second version that makes this world into an empty file. No more of the
/// world than a part is copied in memory at a time.
pub(crate) fn write_copy<H: Holder + Drop, D: Disk>(
    alloc: Global,
    world: &World<H>,
    disk: &mut D,
    limit: u64,
) -> Result<Copied, Stop>
    requires empty { D.tells → IsEmptyDisk D.Disk disk.old }
    requires low { SHORTEST ≤ limit }
    requires high { limit ≤ LONGEST }
    ensures { WritesCopy D.Disk disk.old disk.new (world_in H.held world.now) limit result }
{
    let copy = Copying::begin(alloc, disk, limit)?;
    let copy = add_collections(alloc, copy, disk, world)?;
    let copy = add_replications(alloc, copy, disk, world)?;
    let copy = add_documents(alloc, copy, disk, world)?;
    let copy = add_known(alloc, copy, disk, world)?;
    let end = Record::End {
        number: world.epoch(),
    };
    let copy = copy.add(alloc, disk, &end)?.commit(disk)?;
    Ok(Copied {
        records: copy.records,
        end: copy.journal.end,
    })
}

fn add_collections<H: Holder + Drop, D: Disk>(
    alloc: Global,
    copy: Copying,
    disk: &mut D,
    world: &World<H>,
) -> Result<Copying, Stop>
    requires going { IsGoing D.Disk disk.old copy }
    ensures adds { Adds D.Disk disk.old disk.new copy
        (map (λ e. collection_record e.1) (world_in H.held world.now).collections) result }
    ensures made { IsMadeWorld (world_in H.held world.now) }
{
    let mut copy = copy;
    for at in 0..world.len() {
        let entry = collection_record(alloc, world.holder_at(at).collection())?;
        copy = copy.add(alloc, disk, &entry)?;
    }
    Ok(copy)
}

fn add_replications<H: Holder + Drop, D: Disk>(
    alloc: Global,
    copy: Copying,
    disk: &mut D,
    world: &World<H>,
) -> Result<Copying, Stop>
    requires going { IsGoing D.Disk disk.old copy }
    ensures { Adds D.Disk disk.old disk.new copy
        (map (λ e. replication_record e.1) (world_in H.held world.now).replications) result }
{
    let mut copy = copy;
    for at in 0..world.replications() {
        let entry = replication_record(alloc, world.replication_at(at))?;
        copy = copy.add(alloc, disk, &entry)?;
    }
    Ok(copy)
}

fn add_documents<H: Holder + Drop, D: Disk>(
    alloc: Global,
    copy: Copying,
    disk: &mut D,
    world: &World<H>,
) -> Result<Copying, Stop>
    requires going { IsGoing D.Disk disk.old copy }
    ensures { Adds D.Disk disk.old disk.new copy
        (flat_map (λ e. part_records e.1) (world_in H.held world.now).collections) result }
{
    let mut copy = copy;
    for at in 0..world.len() {
        copy = add_documents_of(alloc, copy, disk, world.holder_at(at).collection())?;
    }
    Ok(copy)
}

// The documents of a collection.
fn add_documents_of<D: Disk>(
    alloc: Global,
    copy: Copying,
    disk: &mut D,
    collection: &Collection,
) -> Result<Copying, Stop>
    requires going { IsGoing D.Disk disk.old copy }
    ensures { Adds D.Disk disk.old disk.new copy (part_records collection.now) result }
{
    let mut copy = copy;
    let mut page = collection.page(None, collection.len());
    loop {
        let rows = next_rows(alloc, &mut page)?;
        if rows.is_empty() {
            return Ok(copy);
        }
        copy = add_part(alloc, copy, disk, collection, rows)?;
    }
}

fn add_part<D: Disk>(
    alloc: Global,
    copy: Copying,
    disk: &mut D,
    collection: &Collection,
    rows: Vec<PartRow>,
) -> Result<Copying, Stop>
    requires going { IsGoing D.Disk disk.old copy }
    requires rising { PlacesRise rows.items }
    ensures { Adds D.Disk disk.old disk.new copy
        (part collection.now.name rows.items ∷ []) result }
{
    let name = collection.name().copy(alloc)?;
    copy.add(alloc, disk, &Record::Part { name, rows })
}

fn add_known<H: Holder + Drop, D: Disk>(
    alloc: Global,
    copy: Copying,
    disk: &mut D,
    world: &World<H>,
) -> Result<Copying, Stop>
    requires going { IsGoing D.Disk disk.old copy }
    requires made { IsMadeWorld (world_in H.held world.now) }
    ensures { Adds D.Disk disk.old disk.new copy
        (flat_map (λ e. known_records e.1) (world_in H.held world.now).replications) result }
{
    let mut copy = copy;
    for at in 0..world.replications() {
        copy = add_known_of(alloc, copy, disk, world.replication_at(at))?;
    }
    Ok(copy)
}

// What the fork of a replication knows. Where it knows no state, a record for its checkpoints comes
// alone, if it has one.
fn add_known_of<D: Disk>(
    alloc: Global,
    copy: Copying,
    disk: &mut D,
    replication: &Replication,
) -> Result<Copying, Stop>
    requires going { IsGoing D.Disk disk.old copy }
    requires timed { HasTimes replication.now }
    ensures { Adds D.Disk disk.old disk.new copy (known_records replication.now) result }
{
    let side = &replication.side;
    let mut known = side.all();
    let states = next_states(alloc, &mut known)?;
    if states.is_empty() && side.up().is_none() && side.down().is_none() {
        return Ok(copy);
    }
    let copy = add_states(alloc, copy, disk, replication, states)?;
    add_known_left(alloc, copy, disk, replication, &mut known)
}

// The states that are left of those that a fork knows.
fn add_known_left<D: Disk>(
    alloc: Global,
    copy: Copying,
    disk: &mut D,
    replication: &Replication,
    known: &mut Known<'_>,
) -> Result<Copying, Stop>
    requires going { IsGoing D.Disk disk.old copy }
    requires timed { HasTimes replication.now }
    requires rising { StatesRise known.old }
    ensures { Adds D.Disk disk.old disk.new copy
        (map (known_record replication.now) (in_parts known.old)) result }
{
    let mut copy = copy;
    loop {
        let states = next_states(alloc, known)?;
        if states.is_empty() {
            return Ok(copy);
        }
        copy = add_states(alloc, copy, disk, replication, states)?;
    }
}

fn add_states<D: Disk>(
    alloc: Global,
    copy: Copying,
    disk: &mut D,
    replication: &Replication,
    states: Vec<State>,
) -> Result<Copying, Stop>
    requires going { IsGoing D.Disk disk.old copy }
    requires timed { HasTimes replication.now }
    requires rising { StatesRise states.items }
    ensures { Adds D.Disk disk.old disk.new copy
        (known_record replication.now states.items ∷ []) result }
{
    let entry = known_record(alloc, replication, states)?;
    copy.add(alloc, disk, &entry)
}
