// Where a migration is legal.
ghost use Rattle.std.specs.Prelude.{◌≡◌, ℕ, List, IfOk, option_map};
ghost use Rattle.std.specs.List.{list_all};
ghost use Rattle.rx_value.specs.Due.{Due};
ghost use Rattle.rx_value.specs.Named.{by_bytes, by_name};
ghost use Rattle.rx_world.specs.Chain.{IsForest};
ghost use Rattle.rx_world.specs.Holders.{AreWhole, holders_of, world_in};
ghost use Rattle.rx_world.specs.Migrating.{collection_migrates, collections_migrate, documents_migrate, group_migrates, is_in_group, is_local, is_next_schema, is_next_version, keeps_primary, may_migrate, replications_migrate, state_migrates};
ghost use Rattle.rx_world.specs.Migration.{group_fits, invalid_collection, invalid_replication, is_here, known_migrates, states_fit};
ghost use Rattle.rx_world.specs.MigrationLaws.{MigrationKeepsMade, MigrationKeepsSound, MigrationMigrates};
ghost use Rattle.rx_world.specs.declared.fault.MigrateFault.TheVariants.{Memory};

use crate::chain::is_in_group;
use crate::fault::MigrateFault;
use crate::legality::is_valid;
use crate::names::find;
use crate::parts::Parts;
use crate::replication::Replication;
use crate::schema_text::schema_in;
use indexmap::IndexMap;
use rx_collection::{Collection, Holder};
use rx_meta::Meta;
use rx_migrate::Steps;
use rx_record::MasterName;
use rx_schema::Schema;
use rx_value::{RxText, State};
use std::alloc::{AllocError, Global};

// Each state of the group is taken through the steps for the test, and let go again.
pub(crate) fn may_migrate<H: Holder>(
    parts: &Parts<H>,
    alloc: Global,
    name: &str,
    text: &str,
    steps: &Steps,
) -> Result<bool, AllocError>
    requires whole { AreWhole H.held H.is_broken parts.now.holders.entries }
    requires forest { IsForest (by_bytes parts.now.replications.entries) }
    ensures { IfOk result (λ b. b
        ≡ may_migrate name.now text.now steps.now (world_in H.held (holders_of parts.now))) }
{
    let Some(holder) = find(&parts.holders, name) else {
        return Ok(false);
    };
    let Some(schema) = schema_in(alloc, text)? else {
        return Ok(false);
    };
    if !is_next_schema(&schema, steps, holder.collection().schema()) {
        return Ok(false);
    }
    group_migrates(parts, alloc, name, &schema, steps)
}

/// Why a collection can't go to a schema by those steps, with all of its group, if it can't.
pub(crate) fn check_group<H: Holder>(
    parts: &Parts<H>,
    alloc: Global,
    collection: &Collection,
    schema: &Schema,
    steps: &Steps,
) -> Result<(), MigrateFault>
    requires whole { AreWhole H.held H.is_broken parts.now.holders.entries }
    requires forest { IsForest (by_bytes parts.now.replications.entries) }
    ensures { Due Memory result
        (group_fits (is_in_group (by_bytes parts.now.replications.entries) collection.now.name)
        schema.now steps.now collection.now (world_in H.held (holders_of parts.now))) }
{
    let old = collection.schema();
    if !is_next_version(schema, old) {
        return Err(MigrateFault::Version);
    }
    if !keeps_primary(schema, steps, old) {
        return Err(MigrateFault::Primary);
    }
    check_states(parts, alloc, collection.name().as_str(), schema, steps)?;
    if !are_here(&parts.replications, collection.name().as_str()) {
        return Err(MigrateFault::Remote);
    }
    Ok(())
}

// The first collection of a group, or else the first replication of it, that has a state which
// doesn't migrate.
fn check_states<H: Holder>(
    parts: &Parts<H>,
    alloc: Global,
    name: &str,
    schema: &Schema,
    steps: &Steps,
) -> Result<(), MigrateFault>
    requires whole { AreWhole H.held H.is_broken parts.now.holders.entries }
    requires forest { IsForest (by_bytes parts.now.replications.entries) }
    ensures { Due Memory result (states_fit
        (is_in_group (by_bytes parts.now.replications.entries) name.now) schema.now steps.now
        (world_in H.held (holders_of parts.now))) }
{
    let holders = &parts.holders;
    let replications = &parts.replications;
    if let Some(found) = invalid_collection(holders, replications, alloc, name, schema, steps)? {
        return Err(MigrateFault::Invalid(RxText::new(alloc, found)?));
    }
    if let Some(found) = invalid_replication(replications, alloc, name, schema, steps)? {
        return Err(MigrateFault::Invalid(RxText::new(alloc, found)?));
    }
    Ok(())
}

fn is_next_schema(schema: &Schema, steps: &Steps, old: &Schema) -> bool
    ensures { result ≡ is_next_schema schema.now steps.now old.now }
{
    is_next_version(schema, old) && keeps_primary(schema, steps, old)
}

fn is_next_version(schema: &Schema, old: &Schema) -> bool
    ensures { result ≡ is_next_version schema.now old.now }
{
    schema.version() as u32 == old.version() as u32 + 1
}

fn keeps_primary(schema: &Schema, steps: &Steps, old: &Schema) -> bool
    ensures { result ≡ keeps_primary schema.now steps.now old.now }
{
    schema.primary() == old.primary() && !steps.names(old.primary())
}

fn group_migrates<H: Holder>(
    parts: &Parts<H>,
    alloc: Global,
    name: &str,
    schema: &Schema,
    steps: &Steps,
) -> Result<bool, AllocError>
    requires whole { AreWhole H.held H.is_broken parts.now.holders.entries }
    requires forest { IsForest (by_bytes parts.now.replications.entries) }
    ensures { IfOk result (λ b. b
        ≡ group_migrates name.now schema.now steps.now (world_in H.held (holders_of parts.now))) }
{
    if !collections_migrate(
        &parts.holders,
        &parts.replications,
        alloc,
        name,
        schema,
        steps,
    )? {
        return Ok(false);
    }
    replications_migrate(&parts.replications, alloc, name, schema, steps)
}

fn collections_migrate<H: Holder>(
    holders: &IndexMap<String, H>,
    replications: &IndexMap<String, Replication>,
    alloc: Global,
    name: &str,
    schema: &Schema,
    steps: &Steps,
) -> Result<bool, AllocError>
    requires whole { AreWhole H.held H.is_broken holders.now.entries }
    requires forest { IsForest (by_bytes replications.now.entries) }
    ensures { IfOk result (λ b. b ≡ collections_migrate
        (is_in_group (by_bytes replications.now.entries) name.now) schema.now steps.now
        (by_name H.held holders.now.entries)) }
{
    if invalid_collection(holders, replications, alloc, name, schema, steps)?.is_some() {
        return Ok(false);
    }
    Ok(true)
}

// The name of the first collection that doesn't migrate.
fn invalid_collection<'a, H: Holder>(
    holders: &'a IndexMap<String, H>,
    replications: &IndexMap<String, Replication>,
    alloc: Global,
    name: &str,
    schema: &Schema,
    steps: &Steps,
) -> Result<Option<&'a str>, AllocError>
    requires whole { AreWhole H.held H.is_broken holders.now.entries }
    requires forest { IsForest (by_bytes replications.now.entries) }
    ensures { IfOk result (λ found. option_map (λ n. n.now) found ≡ invalid_collection
        (is_in_group (by_bytes replications.now.entries) name.now) schema.now steps.now
        (by_name H.held holders.now.entries)) }
{
    for holder in holders.values() {
        let collection = holder.collection();
        if !collection_migrates(collection, replications, alloc, name, schema, steps)? {
            return Ok(Some(collection.name().as_str()));
        }
    }
    Ok(None)
}

// Whether a collection isn't of the group, or all its documents migrate.
fn collection_migrates(
    collection: &Collection,
    replications: &IndexMap<String, Replication>,
    alloc: Global,
    name: &str,
    schema: &Schema,
    steps: &Steps,
) -> Result<bool, AllocError>
    requires { IsForest (by_bytes replications.now.entries) }
    ensures { IfOk result (λ b. b ≡ collection_migrates
        (is_in_group (by_bytes replications.now.entries) name.now) schema.now steps.now
        (collection.now.name, collection.now)) }
{
    if !is_in_group(replications, name, collection.name().as_str()) {
        return Ok(true);
    }
    documents_migrate(collection, alloc, schema, steps)
}

fn documents_migrate(
    collection: &Collection,
    alloc: Global,
    schema: &Schema,
    steps: &Steps,
) -> Result<bool, AllocError>
    ensures { IfOk result (λ b. b ≡ documents_migrate schema.now steps.now collection.now) }
{
    for held in collection.all() {
        if !state_migrates(&held.state, alloc, schema, steps)? {
            return Ok(false);
        }
    }
    Ok(true)
}

fn state_migrates(
    state: &State,
    alloc: Global,
    schema: &Schema,
    steps: &Steps,
) -> Result<bool, AllocError>
    ensures { IfOk result (λ b. b ≡ state_migrates schema.now steps.now state.now) }
{
    match steps.migrated(alloc, state)? {
        Some(next) => Ok(is_valid(schema, &next)),
        None => Ok(false),
    }
}

fn replications_migrate(
    replications: &IndexMap<String, Replication>,
    alloc: Global,
    name: &str,
    schema: &Schema,
    steps: &Steps,
) -> Result<bool, AllocError>
    requires { IsForest (by_bytes replications.now.entries) }
    ensures { IfOk result (λ b. b ≡ replications_migrate
        (is_in_group (by_bytes replications.now.entries) name.now) schema.now steps.now
        (by_bytes replications.now.entries)) }
{
    if invalid_replication(replications, alloc, name, schema, steps)?.is_some() {
        return Ok(false);
    }
    Ok(are_here(replications, name))
}

// The name of the first replication that knows a state which doesn't migrate.
fn invalid_replication<'a>(
    replications: &'a IndexMap<String, Replication>,
    alloc: Global,
    name: &str,
    schema: &Schema,
    steps: &Steps,
) -> Result<Option<&'a str>, AllocError>
    requires { IsForest (by_bytes replications.now.entries) }
    ensures { IfOk result (λ found. option_map (λ n. n.now) found ≡ invalid_replication
        (is_in_group (by_bytes replications.now.entries) name.now) schema.now steps.now
        (by_bytes replications.now.entries)) }
{
    for (called, replication) in replications.iter() {
        if !known_migrates(replication, replications, alloc, name, schema, steps)? {
            return Ok(Some(called.as_str()));
        }
    }
    Ok(None)
}

// Whether a replication isn't of the group, or each state that it knows migrates.
fn known_migrates(
    replication: &Replication,
    replications: &IndexMap<String, Replication>,
    alloc: Global,
    name: &str,
    schema: &Schema,
    steps: &Steps,
) -> Result<bool, AllocError>
    requires { IsForest (by_bytes replications.now.entries) }
    ensures { IfOk result (λ b. b ≡ known_migrates
        (is_in_group (by_bytes replications.now.entries) name.now) schema.now steps.now
        replication.now) }
{
    if !is_in_group(replications, name, replication.fork.as_str()) {
        return Ok(true);
    }
    known_migrate(&replication.side, alloc, schema, steps)
}

// Whether each replication of the group has its master in this journal.
fn are_here(replications: &IndexMap<String, Replication>, name: &str) -> bool
    requires { IsForest (by_bytes replications.now.entries) }
    ensures { result ≡ list_all
        (λ e. is_here (is_in_group (by_bytes replications.now.entries) name.now) e.1)
        (by_bytes replications.now.entries) }
{
    for replication in replications.values() {
        if !is_here(replication, replications, name) {
            return false;
        }
    }
    true
}

// Whether a replication isn't of the group, or its master is in this journal.
fn is_here(
    replication: &Replication,
    replications: &IndexMap<String, Replication>,
    name: &str,
) -> bool
    requires { IsForest (by_bytes replications.now.entries) }
    ensures { result ≡ is_here (is_in_group (by_bytes replications.now.entries) name.now)
        replication.now }
{
    !is_in_group(replications, name, replication.fork.as_str()) || is_local(&replication.master)
}

fn is_local(master: &MasterName) -> bool
    ensures { result ≡ is_local master.now }
{
    matches!(master, MasterName::Local(_))
}

fn known_migrate(
    side: &Meta,
    alloc: Global,
    schema: &Schema,
    steps: &Steps,
) -> Result<bool, AllocError>
    ensures { IfOk result (λ b. b
        ≡ list_all (λ e. state_migrates schema.now steps.now e.1) side.now.known) }
{
    for state in side.all() {
        if !state_migrates(state, alloc, schema, steps)? {
            return Ok(false);
        }
    }
    Ok(true)
}

/// States what holds of every migration, and does nothing.
pub fn migration_laws()
    ensures migrates { MigrationMigrates }
    ensures made { MigrationKeepsMade }
    ensures sound { MigrationKeepsSound }
{}
