ghost use Rattle.std.specs.Prelude.{◌≡◌, true, false, Ok, OnOk, IfOk};
ghost use Rattle.rx_record.specs.Content.{migration};
ghost use Rattle.rx_record.specs.Shown.{content};
ghost use Rattle.rx_record.specs.Writable.{IsOrdered};
ghost use Rattle.rx_world.specs.Holders.{After, AreWhole, holders_of, world_in};
ghost use Rattle.rx_value.specs.Named.{by_bytes, by_name, named};
ghost use Rattle.rx_world.specs.Made.{IsMadeWorld};
ghost use Rattle.rx_world.specs.Schema.{schema_in};
ghost use Rattle.rx_collection.specs.Commit.{AreNext};
ghost use Rattle.rx_world.specs.Step.{step, legal, collections_after, stored_rows};
ghost use Rattle.std.specs.Option.{ForSome};
ghost use Rattle.rx_world.specs.Touch.{touch, new_where, exchange_touch};

use crate::names::{add, write};
use crate::parts::Parts;
use crate::remade::{migrate_known, remake};
use crate::replications::{add as add_replication, exchange, find};
use crate::schema_text::schema_in;
use indexmap::IndexMap;
use rx_collection::{Collection, Holder};
use rx_migrate::Steps;
use rx_record::{Record, RowOut};
use rx_value::RxText;
use std::alloc::{AllocError, Global};

// Changes the parts by a legal record. After an `Err` a holder may be broken, and they are to be
// dropped.
pub(crate) fn change<H: Holder + Drop, F: Fn(Collection) -> Result<H, AllocError>>(
    parts: &mut Parts<H>,
    alloc: Global,
    entry: Record,
    make: &F,
) -> Result<(), AllocError>
    requires callable { F.IsAlwaysCallable make.now }
    requires makes { (c : _) (r : _) → F.post make.now c r
        → IfOk r (λ h. (H.held h ≡ c) × (H.is_broken h ≡ false)) }
    requires ordered { IsOrdered (content entry) }
    requires legal { legal (content entry) (world_in H.held (holders_of parts.old)) ≡ true }
    requires whole { AreWhole H.held H.is_broken parts.old.holders.entries }
    requires made { IsMadeWorld (world_in H.held (holders_of parts.old)) }
    ensures world { OnOk result (world_in H.held (holders_of parts.new)
        ≡ step (content entry) (world_in H.held (holders_of parts.old))) }
    ensures whole { OnOk result (AreWhole H.held H.is_broken parts.new.holders.entries) }
    ensures holders { OnOk result (After H.held H.written (λ c h. F.post make.now c (Ok h))
        (touch (content entry) (world_in H.held (holders_of parts.old)))
        (by_bytes parts.old.holders.entries)
        (by_bytes parts.new.holders.entries)) }
{
    match entry {
        Record::Collection { name, schema } => {
            add_collection(&mut parts.holders, alloc, name, schema.as_str(), make)
        }
        Record::Rows { name, lwt, rows } => {
            write(&mut parts.holders, alloc, name.as_str(), lwt, rows)
        }
        Record::Replication {
            name,
            fork,
            master,
            handler,
            field,
        } => add_replication(
            &mut parts.replications,
            alloc,
            name,
            fork,
            master,
            handler,
            field,
        ),
        Record::Exchange {
            name,
            lwt,
            rows,
            known,
            up,
            down,
        } => {
            write_fork(parts, alloc, name.as_str(), lwt, rows)?;
            exchange(&mut parts.replications, name.as_str(), known, up, down)
        }
        Record::Epoch { number } => {
            parts.epoch = number;
            Ok(())
        }
        Record::Migration {
            name,
            schema,
            steps,
        } => migrate(parts, alloc, name.as_str(), schema.as_str(), &steps, make),
        _ => Ok(()),
    }
}

// Takes a group through the steps of a migration: its collections, and what its forks know.
fn migrate<H: Holder + Drop, F: Fn(Collection) -> Result<H, AllocError>>(
    parts: &mut Parts<H>,
    alloc: Global,
    name: &str,
    text: &str,
    steps: &Steps,
    make: &F,
) -> Result<(), AllocError>
    requires callable { F.IsAlwaysCallable make.now }
    requires makes { (c : _) (r : _) → F.post make.now c r
        → IfOk r (λ h. (H.held h ≡ c) × (H.is_broken h ≡ false)) }
    requires legal { legal (migration name.now text.now steps.now)
        (world_in H.held (holders_of parts.old)) ≡ true }
    requires whole { AreWhole H.held H.is_broken parts.old.holders.entries }
    requires made { IsMadeWorld (world_in H.held (holders_of parts.old)) }
    ensures world { OnOk result (world_in H.held (holders_of parts.new)
        ≡ step (migration name.now text.now steps.now) (world_in H.held (holders_of parts.old))) }
    ensures whole { OnOk result (AreWhole H.held H.is_broken parts.new.holders.entries) }
    ensures holders { OnOk result (After H.held H.written (λ c h. F.post make.now c (Ok h))
        (touch (migration name.now text.now steps.now) (world_in H.held (holders_of parts.old)))
        (by_bytes parts.old.holders.entries)
        (by_bytes parts.new.holders.entries)) }
{
    remake(parts, alloc, name, text, steps, make)?;
    migrate_known(&mut parts.replications, alloc, name, steps)
}

// Writes the rows of an exchange to the replication's fork, if there is a row.
fn write_fork<H: Holder>(
    parts: &mut Parts<H>,
    alloc: Global,
    name: &str,
    lwt: u64,
    rows: Vec<RowOut>,
) -> Result<(), AllocError>
    requires whole { AreWhole H.held H.is_broken parts.old.holders.entries }
    requires next { ForSome (named (by_bytes parts.old.replications.entries) name.now)
        (λ r. ForSome (named (by_name H.held parts.old.holders.entries) r.fork)
        (λ c. AreNext c (stored_rows c.name lwt rows.items))) }
    ensures held { OnOk result (by_name H.held parts.new.holders.entries
        ≡ collections_after (exchange_touch lwt rows.items name.now
        (by_bytes parts.old.replications.entries))
        (by_name H.held parts.old.holders.entries)) }
    ensures holders { OnOk result (After H.held H.written (λ c h. Unit {0})
        (exchange_touch lwt rows.items name.now (by_bytes parts.old.replications.entries))
        (by_bytes parts.old.holders.entries) (by_bytes parts.new.holders.entries)) }
    ensures whole { OnOk result (AreWhole H.held H.is_broken parts.new.holders.entries) }
    ensures others { OnOk result ((parts.new.replications ≡ parts.old.replications)
        × (parts.new.epoch ≡ parts.old.epoch)) }
{
    match find(&parts.replications, name) {
        Some(replication) if !rows.is_empty() => {
            write(
                &mut parts.holders,
                alloc,
                replication.fork.as_str(),
                lwt,
                rows,
            )
        }
        _ => Ok(()),
    }
}

// Adds a collection without documents, if the text is a schema's.
fn add_collection<H: Holder + Drop, F: Fn(Collection) -> Result<H, AllocError>>(
    holders: &mut IndexMap<String, H>,
    alloc: Global,
    name: RxText,
    schema: &str,
    make: &F,
) -> Result<(), AllocError>
    requires callable { F.IsAlwaysCallable make.now }
    requires makes { (c : _) (r : _) → F.post make.now c r
        → IfOk r (λ h. (H.held h ≡ c) × (H.is_broken h ≡ false)) }
    requires whole { AreWhole H.held H.is_broken holders.old.entries }
    ensures held { OnOk result (by_name H.held holders.new.entries
        ≡ collections_after (new_where name (schema_in schema.now))
        (by_name H.held holders.old.entries)) }
    ensures made { OnOk result (After H.held H.written (λ c h. F.post make.now c (Ok h))
        (new_where name (schema_in schema.now)) (by_bytes holders.old.entries)
        (by_bytes holders.new.entries)) }
    ensures whole { OnOk result (AreWhole H.held H.is_broken holders.new.entries) }
{
    let Some(schema) = schema_in(alloc, schema)? else {
        return Ok(());
    };
    let key = String::from_str(alloc, name.as_str())?;
    let holder = make(Collection::new(alloc, name, schema))?;
    add(holders, key, holder)
}
