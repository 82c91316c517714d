// What an engine remembers beside its session.
ghost use Rattle.std.specs.Prelude.{◌≡◌, ◌<◌, [], length, map, set, slice_get};
ghost use Rattle.std.specs.Option.{ForSome};
ghost use Rattle.rx_record.specs.Shown.{content};
ghost use Rattle.rx_session.specs.Placed.{world_of};
ghost use Rattle.rx_value.specs.Named.{by_bytes};
ghost use Rattle.rx_world.specs.Migrating.{is_in_group};
ghost use Rattle.rx_engine.specs.Standing.{asks_after, forgotten_where, is_of_group};

use crate::marks::Marks;
use indexmap::IndexMap;
use rx_observe::Live;
use rx_record::Record;
use rx_sync::Asks;
use rx_world::World;
use std::alloc::Global;

/// The requests of replications, by their names, and where their forks have nothing to push.
/// Nothing of it is in the journal: once that is opened again, it begins anew.
#[derive(Drop)]
pub(crate) struct Remembered {
    pub asks: IndexMap<String, Asks>,
    pub marks: Marks,
}

impl Remembered {
    pub(crate) fn new(alloc: Global) -> Remembered
        ensures asks { by_bytes result.asks.entries ≡ [] }
        ensures marks { result.marks ≡ [] }
    {
        Remembered {
            asks: IndexMap::new(alloc),
            marks: Marks::new(alloc),
        }
    }

    /// The same once a record is written. A migration has the requests of its group forgotten.
    /// Marks are told anew after it, by what comes.
    pub(crate) fn migrated(self, alloc: Global, world: &World<Live>, entry: &Record) -> Remembered
        ensures asks { by_bytes result.asks.entries ≡ asks_after (content entry.now)
            (world_of world.now) (by_bytes self.asks.entries) }
        ensures marks { result.marks ≡ [] }
    {
        let mut asks = self.asks;
        forget(&mut asks, world, entry);
        Remembered {
            asks,
            marks: Marks::new(alloc),
        }
    }
}

fn forget(asks: &mut IndexMap<String, Asks>, world: &World<Live>, entry: &Record)
    ensures { by_bytes asks.new.entries ≡ asks_after (content entry.now) (world_of world.now)
        (by_bytes asks.old.entries) }
{
    match entry {
        Record::Migration { name, .. } => forget_group(asks, world, name.as_str()),
        _ => {}
    }
}

// Forgets the requests of the replications of a group.
fn forget_group(asks: &mut IndexMap<String, Asks>, world: &World<Live>, name: &str)
    ensures { by_bytes asks.new.entries ≡ map (forgotten_where (is_of_group
        (is_in_group (world_of world.now).replications name.now)
        (world_of world.now).replications)) (by_bytes asks.old.entries) }
{
    for at in 0..asks.len() {
        forget_at(asks, world, name, at);
    }
}

// The same of those at a place.
fn forget_at(asks: &mut IndexMap<String, Asks>, world: &World<Live>, name: &str, at: usize)
    requires { at < length (by_bytes asks.old.entries) }
    ensures { ForSome (slice_get (by_bytes asks.old.entries) at)
        (λ e. by_bytes asks.new.entries ≡ set (by_bytes asks.old.entries) at
        (forgotten_where (is_of_group
        (is_in_group (world_of world.now).replications name.now)
        (world_of world.now).replications) e)) }
{
    if !stands_in_group(asks, world, name, at) {
        return;
    }
    if let Some(one) = asks.get_index_mut(at) {
        one.forget();
    }
}

// Whether those at a place are of a replication of the group.
fn stands_in_group(
    asks: &IndexMap<String, Asks>,
    world: &World<Live>,
    name: &str,
    at: usize,
) -> bool
    ensures { ForSome (slice_get (by_bytes asks.now.entries) at) (λ e. result ≡ is_of_group
        (is_in_group (world_of world.now).replications name.now)
        (world_of world.now).replications e.0) }
{
    match asks.get_index(at) {
        Some((called, _)) => is_of_group(world, name, called.as_str()),
        None => false,
    }
}

// Whether the replication of a name is one of the group of a collection.
fn is_of_group(world: &World<Live>, name: &str, called: &str) -> bool
    ensures { result ≡ is_of_group (is_in_group (world_of world.now).replications name.now)
        (world_of world.now).replications called.now }
{
    match world.replication(called) {
        Some(replication) => world.is_in_group(name, replication.fork.as_str()),
        None => false,
    }
}
