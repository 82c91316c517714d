// The line that takes a collection to the next version of its schema.
ghost use Rattle.std.specs.Prelude.{◌≡◌, ◌⊎◌, ◌<◌, [], ◌∷◌, ◌++◌, true, length, slice_get, Some, IfOk, OnOk};
ghost use Rattle.std.specs.Option.{ForSome};
ghost use Rattle.serde_json.specs.View.{view};
ghost use Rattle.rx_value.specs.Due.{DueBy};
ghost use Rattle.rx_value.specs.Form.{texts};
ghost use Rattle.rx_value.specs.Named.{named};
ghost use Rattle.rx_record.specs.Shown.{content};
ghost use Rattle.rx_session.specs.Doing.{MayDo};
ghost use Rattle.rx_session.specs.Placed.{world_of};
ghost use Rattle.rx_world.specs.Migrating.{is_in_group};
ghost use Rattle.rx_world.specs.Step.{legal};
ghost use Rattle.rx_engine.specs.Migrate.{migrate_line, migrate_to, names_of_group, of_migration, of_observed, said_of, unless_observed, Migrates};
ghost use Rattle.rx_engine.specs.Shown.{doing_of, outcome_of};
ghost use Rattle.rx_writes.specs.declared.fault.Fault.TheVariants.{Memory};

use crate::lookup::find_collection;
use crate::outcome::{LineDoing, Outcome};
use rx_collection::{Collection, Holder};
use rx_migrate::Steps;
use rx_observe::Live;
use rx_record::Record;
use rx_reply::{MigrationCause, Refusal, Reply};
use rx_schema::Schema;
use rx_session::Session;
use rx_value::RxText;
use rx_world::{MigrateFault, World};
use rx_writes::Fault;
use serde_json::Value as Json;
use std::alloc::{AllocError, Global};

/// A migration of a collection that is held, with its group, in which no query is observed.
pub(crate) fn migrate_line<'a>(
    alloc: Global,
    session: &'a Session,
    coll: &RxText,
    schema: &Json,
    steps: Steps,
) -> Result<Outcome<'a>, Fault>
    ensures exact { DueBy Memory outcome_of result
        (migrate_line coll.now (view schema.now) steps session.now) }
    ensures may { IfOk result (λ p. MayDo (doing_of p.doing) session.now) }
{
    let collection = find_collection(alloc, session, coll)?;
    let schema = Schema::read(alloc, schema)?;
    plan_migration(alloc, session, coll, collection, &schema, steps)
}

// The schema is only lent, so what is answered has none to drop.
fn plan_migration<'a>(
    alloc: Global,
    session: &'a Session,
    coll: &RxText,
    collection: &Collection,
    schema: &Schema,
    steps: Steps,
) -> Result<Outcome<'a>, Fault>
    requires held { named session.now.world.collections coll.now ≡ Some collection.now }
    requires called { collection.now.name ≡ coll.now }
    ensures exact { DueBy Memory outcome_of result
        (migrate_to coll.now schema.now steps collection.now session.now) }
    ensures may { IfOk result (λ p. MayDo (doing_of p.doing) session.now) }
{
    match record_of(alloc, session, collection, schema, steps) {
        Ok(entry) => write_unless_observed(alloc, session, coll, entry),
        Err(fault) => Err(fault),
    }
}

// A record is to be written, where no query is observed in the group.
fn write_unless_observed<'a>(
    alloc: Global,
    session: &'a Session,
    coll: &RxText,
    entry: Record,
) -> Result<Outcome<'a>, Fault>
    requires legal { legal (content entry) session.now.world ≡ true }
    requires migrates { Migrates coll.now (content entry) }
    ensures exact { DueBy Memory outcome_of result
        (unless_observed coll.now (content entry) session.now) }
    ensures may { IfOk result (λ p. MayDo (doing_of p.doing) session.now) }
{
    match session.first_observed(coll.as_str()) {
        Some(name) => Err(observed(alloc, name)),
        None => {
            let collections = names_of_group(alloc, session.world(), coll)?;
            Ok(Outcome {
                doing: LineDoing::Migrate(entry),
                reply: Reply::Migrate { collections },
            })
        }
    }
}

fn observed(alloc: Global, name: &RxText) -> Fault
    ensures { (result ≡ Memory) ⊎ (result ≡ of_observed name.now) }
{
    match name.copy(alloc) {
        Ok(name) => Fault::Refused(Refusal::Observed { name }),
        Err(_) => Fault::Memory,
    }
}

// The record of a migration, or why there is none.
fn record_of(
    alloc: Global,
    session: &Session,
    collection: &Collection,
    schema: &Schema,
    steps: Steps,
) -> Result<Record, Fault>
    requires held { named session.now.world.collections collection.now.name
        ≡ Some collection.now }
    ensures exact { DueBy Memory content result
        (said_of collection.now.name schema.now steps collection.now session.now) }
    ensures legal { IfOk result (λ entry. legal (content entry) session.now.world ≡ true) }
    ensures migrates { IfOk result (λ entry. Migrates collection.now.name (content entry)) }
{
    let name = collection.name();
    match session.world().migrate(alloc, name.as_str(), schema, steps) {
        Ok(entry) => Ok(entry),
        Err(fault) => Err(refused(alloc, name, fault)),
    }
}

// A fault as the refusal of the line that names the collection.
fn refused(alloc: Global, coll: &RxText, fault: MigrateFault) -> Fault
    ensures { (result ≡ Memory) ⊎ (result ≡ of_migration coll.now fault) }
{
    let (cause, name) = match fault {
        MigrateFault::Version => (MigrationCause::Version, coll.copy(alloc)),
        MigrateFault::Primary => (MigrationCause::Primary, coll.copy(alloc)),
        MigrateFault::Invalid(name) => (MigrationCause::Invalid, Ok(name)),
        MigrateFault::Remote => return Fault::Refused(Refusal::Remote),
        MigrateFault::Memory => return Fault::Memory,
    };
    match name {
        Ok(name) => Fault::Refused(Refusal::Migration { cause, name }),
        Err(_) => Fault::Memory,
    }
}

// The names of the group of a collection, in the order of their making.
fn names_of_group<'a>(
    alloc: Global,
    world: &'a World<Live>,
    coll: &RxText,
) -> Result<Vec<&'a RxText>, AllocError>
    ensures { IfOk result (λ names. texts names.items ≡ names_of_group
        (is_in_group (world_of world.now).replications coll.now)
        (world_of world.now).collections) }
{
    let mut names = Vec::new(alloc);
    for at in 0..world.len() {
        add_name(&mut names, world, coll, at)?;
    }
    Ok(names)
}

// The name of the collection at a place, where it is of the group.
fn add_name<'a>(
    names: &mut Vec<&'a RxText>,
    world: &'a World<Live>,
    coll: &RxText,
    at: usize,
) -> Result<(), AllocError>
    requires { at < length (world_of world.now).collections }
    ensures { OnOk result (ForSome (slice_get (world_of world.now).collections at)
        (λ e. texts names.new.items ≡ texts names.old.items ++ names_of_group
        (is_in_group (world_of world.now).replications coll.now) (e ∷ []))) }
{
    let name = world.holder_at(at).collection().name();
    if world.is_in_group(coll.as_str(), name.as_str()) {
        names.push(name)?;
    }
    Ok(())
}
