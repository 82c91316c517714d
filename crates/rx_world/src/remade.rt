// A migration applied: collections of a group, and what their replications know.
ghost use Rattle.std.specs.Prelude.{◌≡◌, ◌<◌, true, false, set, length, slice_get, Some, Ok, IfOk, OnOk};
ghost use Rattle.std.specs.List.{IsDistinct};
ghost use Rattle.std.specs.Map.{keys_of};
ghost use Rattle.std.specs.Option.{ForSome};
ghost use Rattle.std.specs.Str.{bytes_eq};
ghost use Rattle.rx_collection.specs.Migrated.{migrated_collection};
ghost use Rattle.rx_value.specs.Named.{by_bytes, by_name};
ghost use Rattle.rx_world.specs.Chain.{IsForest};
ghost use Rattle.rx_world.specs.Holders.{After, AreRemade, AreWhole, holders_of, world_in};
ghost use Rattle.rx_world.specs.Made.{IsMadeWorld};
ghost use Rattle.rx_world.specs.Migrating.{collections_migrate, documents_migrate, is_in_group, may_migrate, migrated_collections, migrated_entry, migrated_replication, migrated_replications};
ghost use Rattle.rx_world.specs.Schema.{schema_in};
ghost use Rattle.rx_world.specs.Step.{collections_after};
ghost use Rattle.rx_world.specs.Touch.{remade_where};

use crate::chain::is_in_group;
use crate::names::add;
use crate::parts::Parts;
use crate::replication::Replication;
use crate::replications::find_at;
use crate::schema_text::schema_in;
use indexmap::IndexMap;
use rx_collection::{Collection, Holder};
use rx_meta::Meta;
use rx_migrate::Steps;
use rx_schema::Schema;
use std::alloc::{AllocError, Global};
use std::mem;

// Takes the collections of a group to the schema of the text. After an `Err` some of them are gone.
pub(crate) fn remake<H: Holder + Drop, F: Fn(Collection) -> Result<H, AllocError>>(
    parts: &mut Parts<H>,
    alloc: Global,
    name: &str,
    text: &str,
    steps: &Steps,
    make: &F,
) -> Result<(), AllocError>
    requires callable { F.IsAlwaysCallable make.now }
    requires makes { (c : _) (r : _) → F.post make.now c r
        → IfOk r (λ h. (H.held h ≡ c) × (H.is_broken h ≡ false)) }
    requires whole { AreWhole H.held H.is_broken parts.old.holders.entries }
    requires made { IsMadeWorld (world_in H.held (holders_of parts.old)) }
    requires legal { may_migrate name.now text.now steps.now
        (world_in H.held (holders_of parts.old)) ≡ true }
    ensures held { OnOk result (by_name H.held parts.new.holders.entries
        ≡ collections_after (remade_where (is_in_group (by_bytes parts.old.replications.entries)
        name.now) steps.now (schema_in text.now)) (by_name H.held parts.old.holders.entries)) }
    ensures whole { OnOk result (AreWhole H.held H.is_broken parts.new.holders.entries) }
    ensures holders { OnOk result (After H.held H.written (λ c h. F.post make.now c (Ok h))
        (remade_where (is_in_group (by_bytes parts.old.replications.entries) name.now) steps.now
        (schema_in text.now)) (by_bytes parts.old.holders.entries)
        (by_bytes parts.new.holders.entries)) }
    ensures others { OnOk result ((parts.new.replications ≡ parts.old.replications)
        × (parts.new.epoch ≡ parts.old.epoch)) }
{
    let Some(schema) = schema_in(alloc, text)? else {
        return Ok(());
    };
    let holders = mem::replace(&mut parts.holders, IndexMap::new(alloc));
    let replications = &parts.replications;
    parts.holders = remake_all(alloc, holders, replications, name, &schema, steps, make)?;
    Ok(())
}

fn remake_all<H: Holder + Drop, F: Fn(Collection) -> Result<H, AllocError>>(
    alloc: Global,
    holders: IndexMap<String, H>,
    replications: &IndexMap<String, Replication>,
    name: &str,
    schema: &Schema,
    steps: &Steps,
    make: &F,
) -> Result<IndexMap<String, H>, AllocError>
    requires callable { F.IsAlwaysCallable make.now }
    requires makes { (c : _) (r : _) → F.post make.now c r
        → IfOk r (λ h. (H.held h ≡ c) × (H.is_broken h ≡ false)) }
    requires whole { AreWhole H.held H.is_broken holders.entries }
    requires distinct { IsDistinct bytes_eq (keys_of (by_bytes holders.entries)) }
    requires forest { IsForest (by_bytes replications.now.entries) }
    requires migrate { collections_migrate
        (is_in_group (by_bytes replications.now.entries) name.now) schema.now steps.now
        (by_name H.held holders.entries) ≡ true }
    ensures held { IfOk result (λ all. by_name H.held all.entries ≡ migrated_collections
        (is_in_group (by_bytes replications.now.entries) name.now) schema.now steps.now
        (by_name H.held holders.entries)) }
    ensures whole { IfOk result (λ all. AreWhole H.held H.is_broken all.entries) }
    ensures remade { IfOk result (λ all. AreRemade H.held (λ c h. F.post make.now c (Ok h))
        (is_in_group (by_bytes replications.now.entries) name.now) schema.now steps.now
        (by_bytes holders.entries) (by_bytes all.entries)) }
{
    let mut all = IndexMap::new(alloc);
    for entry in holders {
        let (key, old) = entry;
        let in_group = is_in_group(replications, name, key.as_str());
        let holder = remake_if(alloc, old, in_group, schema, steps, make)?;
        add(&mut all, key, holder)?;
    }
    Ok(all)
}

// Makes a holder of the group anew, for its collection after the steps.
fn remake_if<H: Holder + Drop, F: Fn(Collection) -> Result<H, AllocError>>(
    alloc: Global,
    old: H,
    in_group: bool,
    schema: &Schema,
    steps: &Steps,
    make: &F,
) -> Result<H, AllocError>
    requires callable { F.IsAlwaysCallable make.now }
    requires unbroken { H.is_broken old ≡ false }
    requires migrates { in_group ≡ true
        → documents_migrate schema.now steps.now (H.held old) ≡ true }
    ensures made { in_group ≡ true → IfOk result (λ h. F.post make.now
        (migrated_collection schema.now steps.now (H.held old)) (Ok h)) }
    ensures stays { in_group ≡ false → IfOk result (λ h. h ≡ old) }
{
    if !in_group {
        return Ok(old);
    }
    let schema = copy_schema(alloc, schema)?;
    let collection = old.into_collection().migrated(schema, steps)?;
    make(collection)
}

fn copy_schema(alloc: Global, schema: &Schema) -> Result<Schema, AllocError>
    ensures { IfOk result (λ s. s ≡ schema.now) }
{
    let Some(schema) = schema_in(alloc, schema.canonical().as_str())? else {
        unreachable!()
    };
    Ok(schema)
}

// Takes what the forks of a group know through the steps.
pub(crate) fn migrate_known(
    replications: &mut IndexMap<String, Replication>,
    alloc: Global,
    name: &str,
    steps: &Steps,
) -> Result<(), AllocError>
    requires { IsForest (by_bytes replications.old.entries) }
    ensures { OnOk result (by_bytes replications.new.entries
        ≡ migrated_replications (is_in_group (by_bytes replications.old.entries) name.now) steps.now
        (by_bytes replications.old.entries)) }
{
    for at in 0..replications.len() {
        migrate_at(replications, alloc, at, name, steps)?;
    }
    Ok(())
}

// The same of the replication at a place.
fn migrate_at(
    replications: &mut IndexMap<String, Replication>,
    alloc: Global,
    at: usize,
    name: &str,
    steps: &Steps,
) -> Result<(), AllocError>
    requires within { at < length (by_bytes replications.old.entries) }
    requires forest { IsForest (by_bytes replications.old.entries) }
    ensures { OnOk result (ForSome (slice_get (by_bytes replications.old.entries) at)
        (λ e. by_bytes replications.new.entries ≡ set (by_bytes replications.old.entries) at
        (migrated_entry (is_in_group (by_bytes replications.old.entries) name.now) steps.now e))) }
{
    let fork = &find_at(replications, at).fork;
    if !is_in_group(replications, name, fork.as_str()) {
        return Ok(());
    }
    match replications.get_index_mut(at) {
        Some(replication) => migrate_side(replication, alloc, steps),
        None => Ok(()),
    }
}

fn migrate_side(
    replication: &mut Replication,
    alloc: Global,
    steps: &Steps,
) -> Result<(), AllocError>
    ensures { OnOk result (replication.new ≡ migrated_replication steps.now replication.old) }
{
    let side = mem::replace(&mut replication.side, Meta::new(alloc));
    replication.side = side.migrated(steps)?;
    Ok(())
}
