// Records of a copy, with which a journal of the second version begins.
ghost use Rattle.std.specs.Prelude.{◌≡◌, true, false, nat_le, IfOk, IsErrOf, OnOk};
ghost use Rattle.std.specs.Option.{option_map_or};
ghost use Rattle.rx_collection.specs.Commit.{with_row};
ghost use Rattle.rx_collection.specs.Lawful.{IsLawful};
ghost use Rattle.rx_collection.specs.declared.holder.Plain.{Plain as SeenPlain};
ghost use Rattle.rx_meta.specs.Side.{side_with};
ghost use Rattle.rx_record.specs.PartRows.{row_place};
ghost use Rattle.rx_record.specs.Shown.{content};
ghost use Rattle.rx_record.specs.Writable.{IsOrdered};
ghost use Rattle.rx_replication.specs.Known.{with_learnt};
ghost use Rattle.rx_value.specs.Named.{by_bytes, by_name, change_named, named};
ghost use Rattle.rx_world.specs.Copy.{ArePlain, are_copied_rows, are_copied_states, copy_step, is_copied_row, is_copied_state, may_copy, most_copied_epoch, none_above, part_stored, plain_world, takes_known, takes_part, with_part};
ghost use Rattle.rx_world.specs.Holders.{holders_of};
ghost use Rattle.rx_world.specs.Made.{IsMadeWorld};
ghost use Rattle.rx_world.specs.Replicating.{with_exchange};
ghost use Rattle.rx_world.specs.Step.{legal, step};

use crate::change::change;
use crate::fault::ApplyFault;
use crate::legality::{is_legal, is_valid};
use crate::names::find;
use crate::parts::Parts;
use crate::replicating::stays_or_rises;
use crate::replication::Replication;
use crate::world::World;
use indexmap::IndexMap;
use rx_collection::{Collection, MOST_LWT, Plain};
use rx_document::{Place, Revision, Stored};
use rx_meta::Meta;
use rx_record::{PartRow, Record};
use rx_value::State;
use std::alloc::{AllocError, Global};

/// The greatest epoch of a copy, 2^52.
pub const MOST_COPIED_EPOCH: u64 = 4_503_599_627_370_496;

/// The world after a record of a copy. It is spent on a refusal.
pub fn copy(alloc: Global, world: World<Plain>, entry: Record) -> Result<World<Plain>, ApplyFault>
    requires ordered { IsOrdered (content entry) }
    ensures ok { IfOk result
        (λ copied. plain_world copied ≡ copy_step (content entry) (plain_world world)) }
    ensures may { IfOk result (λ _. may_copy (content entry) (plain_world world) ≡ true) }
    ensures made { IfOk result (λ copied. IsMadeWorld (plain_world copied)) }
    ensures illegal { IsErrOf result ApplyFault.Illegal
        → may_copy (content entry) (plain_world world) ≡ false }
{
    let mut parts = world.parts;
    copy_into(&mut parts, alloc, entry)?;
    Ok(World { parts })
}

fn copy_into(parts: &mut Parts<Plain>, alloc: Global, entry: Record) -> Result<(), ApplyFault>
    requires ordered { IsOrdered (content entry) }
    requires whole { ArePlain parts.old.holders.entries }
    requires made { IsMadeWorld (plain_world (holders_of parts.old)) }
    ensures world { OnOk result (plain_world (holders_of parts.new)
        ≡ copy_step (content entry) (plain_world (holders_of parts.old))) }
    ensures may { OnOk result
        (may_copy (content entry) (plain_world (holders_of parts.old)) ≡ true) }
    ensures whole { OnOk result (ArePlain parts.new.holders.entries) }
    ensures illegal { IsErrOf result ApplyFault.Illegal
        → may_copy (content entry) (plain_world (holders_of parts.old)) ≡ false }
{
    match entry {
        Record::Part { name, rows } => { copy_part(&mut parts.holders, alloc, name.as_str(), rows) }
        Record::KnownPart {
            name,
            known,
            up,
            down,
        } => copy_known(
            &parts.holders,
            &mut parts.replications,
            name.as_str(),
            known,
            up,
            down,
        ),
        Record::End { number } => copy_end(&mut parts.epoch, number),
        Record::Collection { name, schema } => {
            begin(parts, alloc, Record::Collection { name, schema })
        }
        Record::Replication {
            name,
            fork,
            master,
            handler,
            field,
        } => begin(
            parts,
            alloc,
            Record::Replication {
                name,
                fork,
                master,
                handler,
                field,
            },
        ),
        _ => Err(ApplyFault::Illegal),
    }
}

// A new collection or replication.
fn begin(parts: &mut Parts<Plain>, alloc: Global, entry: Record) -> Result<(), ApplyFault>
    requires ordered { IsOrdered (content entry) }
    requires whole { ArePlain parts.old.holders.entries }
    requires made { IsMadeWorld (plain_world (holders_of parts.old)) }
    ensures world { OnOk result (plain_world (holders_of parts.new)
        ≡ step (content entry) (plain_world (holders_of parts.old))) }
    ensures legal { OnOk result
        (legal (content entry) (plain_world (holders_of parts.old)) ≡ true) }
    ensures whole { OnOk result (ArePlain parts.new.holders.entries) }
    ensures illegal { IsErrOf result ApplyFault.Illegal
        → legal (content entry) (plain_world (holders_of parts.old)) ≡ false }
{
    if !is_legal(parts, alloc, &entry)? {
        return Err(ApplyFault::Illegal);
    }
    change(
        parts,
        alloc,
        entry,
        &|collection| Ok(Plain::new(collection)),
    )?;
    Ok(())
}

fn copy_end(epoch: &mut u64, number: u64) -> Result<(), ApplyFault>
    ensures epoch { OnOk result (epoch.new ≡ number) }
    ensures may { OnOk result (nat_le number most_copied_epoch ≡ true) }
    ensures illegal { IsErrOf result ApplyFault.Illegal → nat_le number most_copied_epoch ≡ false }
{
    if number > MOST_COPIED_EPOCH {
        return Err(ApplyFault::Illegal);
    }
    *epoch = number;
    Ok(())
}

// The collection of a name gets the rows of a part.
fn copy_part(
    holders: &mut IndexMap<String, Plain>,
    alloc: Global,
    name: &str,
    rows: Vec<PartRow>,
) -> Result<(), ApplyFault>
    requires whole { ArePlain holders.old.entries }
    ensures held { OnOk result (by_name (λ (p : SeenPlain). p.collection) holders.new.entries
        ≡ change_named (by_name (λ (p : SeenPlain). p.collection) holders.old.entries) name.now
        (with_part rows.items)) }
    ensures may { OnOk result (option_map_or (takes_part rows.items)
        (named (by_name (λ (p : SeenPlain). p.collection) holders.old.entries) name.now) false
        ≡ true) }
    ensures whole { OnOk result (ArePlain holders.new.entries) }
    ensures illegal { IsErrOf result ApplyFault.Illegal → option_map_or (takes_part rows.items)
        (named (by_name (λ (p : SeenPlain). p.collection) holders.old.entries) name.now) false
        ≡ false }
{
    match holders.get_mut(name) {
        Some(holder) => Ok(take_part(holder, alloc, rows)?),
        None => Err(ApplyFault::Illegal),
    }
}

fn take_part(holder: &mut Plain, alloc: Global, rows: Vec<PartRow>) -> Result<(), ApplyFault>
    ensures rows { OnOk result
        (holder.new.collection ≡ with_part rows.items holder.old.collection) }
    ensures may { OnOk result (takes_part rows.items holder.old.collection ≡ true) }
    ensures illegal { IsErrOf result ApplyFault.Illegal
        → takes_part rows.items holder.old.collection ≡ false }
    ensures same { OnOk result (holder.new.broken ≡ holder.old.broken) }
{
    if rows.is_empty() {
        return Err(ApplyFault::Illegal);
    }
    copy_rows(&mut holder.collection, alloc, rows)
}

fn copy_rows(
    collection: &mut Collection,
    alloc: Global,
    rows: Vec<PartRow>,
) -> Result<(), ApplyFault>
    ensures rows { OnOk result (collection.new ≡ with_part rows.items collection.old) }
    ensures may { OnOk result (are_copied_rows rows.items collection.old ≡ true) }
    ensures illegal { IsErrOf result ApplyFault.Illegal
        → are_copied_rows rows.items collection.old ≡ false }
{
    for row in rows {
        copy_row(collection, alloc, row)?;
    }
    Ok(())
}

fn copy_row(collection: &mut Collection, alloc: Global, row: PartRow) -> Result<(), ApplyFault>
    ensures row { OnOk result
        (collection.new ≡ with_row collection.old (part_stored collection.old.name row)) }
    ensures may { OnOk result (is_copied_row collection.old row ≡ true) }
    ensures illegal { IsErrOf result ApplyFault.Illegal
        → is_copied_row collection.old row ≡ false }
{
    if !is_copied_row(collection, alloc, &row)? {
        return Err(ApplyFault::Illegal);
    }
    let token = collection.name().copy(alloc)?;
    let PartRow { lwt, height, state } = row;
    collection.put(Stored {
        state,
        rev: Revision { height, token },
        lwt,
    })?;
    Ok(())
}

fn is_copied_row(collection: &Collection, alloc: Global, row: &PartRow) -> Result<bool, AllocError>
    ensures value { IfOk result (λ b. b ≡ is_copied_row collection.now row.now) }
    ensures lawful { IsLawful collection.now }
{
    let key = row.state.key.as_str();
    if collection.get(key).is_some() || !stands_above_all(collection, alloc, row)? {
        return Ok(false);
    }
    Ok(
        1 <= row.height
            && row.height <= row.lwt
            && row.lwt <= MOST_LWT
            && is_valid(collection.schema(), &row.state),
    )
}

// Whether no document of the collection stands above the row's place.
fn stands_above_all(
    collection: &Collection,
    alloc: Global,
    row: &PartRow,
) -> Result<bool, AllocError>
    ensures { IfOk result (λ b. b ≡ none_above collection.now.documents (row_place row.now)) }
{
    let place = Place {
        lwt: row.lwt,
        id: row.state.key.copy(alloc)?,
    };
    let mut page = collection.page(Some(&place), 1);
    Ok(page.next().is_none())
}

// The replication of a name gets known states and checkpoints.
fn copy_known(
    holders: &IndexMap<String, Plain>,
    replications: &mut IndexMap<String, Replication>,
    name: &str,
    known: Vec<State>,
    up: Option<Place>,
    down: Option<Place>,
) -> Result<(), ApplyFault>
    requires whole { ArePlain holders.now.entries }
    ensures replications { OnOk result (by_bytes replications.new.entries
        ≡ change_named (by_bytes replications.old.entries) name.now
        (with_exchange known.items up down)) }
    ensures may { OnOk result (option_map_or (takes_known
        (by_name (λ (p : SeenPlain). p.collection) holders.now.entries) known.items up down)
        (named (by_bytes replications.old.entries) name.now) false ≡ true) }
    ensures illegal { IsErrOf result ApplyFault.Illegal → option_map_or (takes_known
        (by_name (λ (p : SeenPlain). p.collection) holders.now.entries) known.items up down)
        (named (by_bytes replications.old.entries) name.now) false ≡ false }
{
    match replications.get_mut(name) {
        Some(replication) => Ok(take_known(holders, replication, known, up, down)?),
        None => Err(ApplyFault::Illegal),
    }
}

fn take_known(
    holders: &IndexMap<String, Plain>,
    replication: &mut Replication,
    known: Vec<State>,
    up: Option<Place>,
    down: Option<Place>,
) -> Result<(), ApplyFault>
    requires whole { ArePlain holders.now.entries }
    ensures replication { OnOk result
        (replication.new ≡ with_exchange known.items up down replication.old) }
    ensures may { OnOk result (takes_known
        (by_name (λ (p : SeenPlain). p.collection) holders.now.entries) known.items up down
        replication.old ≡ true) }
    ensures illegal { IsErrOf result ApplyFault.Illegal → takes_known
        (by_name (λ (p : SeenPlain). p.collection) holders.now.entries) known.items up down
        replication.old ≡ false }
{
    if !stays_or_rises(replication.side.up(), &up)
        || !stays_or_rises(replication.side.down(), &down)
    {
        return Err(ApplyFault::Illegal);
    }
    let Some(fork) = find(holders, replication.fork.as_str()) else {
        return Err(ApplyFault::Illegal);
    };
    learn_copied(&mut replication.side, &fork.collection, known)?;
    replication.side.advance(up, down);
    Ok(())
}

// A fork learns the states of a known part, one after another.
fn learn_copied(side: &mut Meta, fork: &Collection, known: Vec<State>) -> Result<(), ApplyFault>
    ensures side { OnOk result (side.new
        ≡ side_with (with_learnt side.old.known known.items) side.old.up side.old.down) }
    ensures may { OnOk result (are_copied_states known.items side.old.known fork.now ≡ true) }
    ensures illegal { IsErrOf result ApplyFault.Illegal
        → are_copied_states known.items side.old.known fork.now ≡ false }
{
    for state in known {
        if !is_copied_state(fork, side, &state) {
            return Err(ApplyFault::Illegal);
        }
        side.learn(state)?;
    }
    Ok(())
}

fn is_copied_state(fork: &Collection, side: &Meta, state: &State) -> bool
    ensures { result ≡ is_copied_state fork.now side.now.known state.now }
{
    let key = state.key.as_str();
    is_valid(fork.schema(), state) && fork.get(key).is_some() && side.is_above(key)
}
