// A session whose journal was opened again.
ghost use Rattle.std.specs.Prelude.{◌≡◌, [], false, Some, IfOk, OnOk};
ghost use Rattle.std.specs.List.{AllByRecursion};
ghost use Rattle.rx_value.specs.Named.{named, change_named};
ghost use Rattle.rx_observe.specs.Observing.{AllCold, AllRight, HaveDistinctNames, cooled, each, with_queries};
ghost use Rattle.rx_observe.specs.Rows.{emissions_due};
ghost use Rattle.rx_world.specs.Holders.{holders_in};
ghost use Rattle.rx_session.specs.Doing as doing;
ghost use Rattle.rx_session.specs.Doing.{session_after};
ghost use Rattle.rx_session.specs.Emissions.{emissions, settled_session, IsSettled};
ghost use Rattle.rx_session.specs.Lives.{bare, with_cooled, each_live};
ghost use Rattle.rx_session.specs.Placed.{AreUnwatched, IsQuiet, world_of};

use crate::session::Session;
use rx_collection::Holder;
use rx_observe::Live;
use rx_world::World;
use std::alloc::{AllocError, Global};

impl Session {
    /// The session on the same collections and replications as a journal gave them. Its queries are
    /// cold, and go on. Its streams are closed.
    pub fn reopen(self, alloc: Global, world: World<Live>) -> Result<Session, AllocError>
        requires same { (world_of world).collections ≡ self.world.collections }
        requires replications { (world_of world).replications ≡ self.world.replications }
        requires unwatched { AreUnwatched (holders_in world) }
        ensures session { IfOk result
            (λ s. s ≡ settled_session (session_after (doing.restart (world_of world).epoch) self)) }
        ensures emissions { emissions
            (session_after (doing.restart (world_of world).epoch) self) ≡ [] }
        ensures before { IsSettled self }
    {
        let mut world = world;
        carry_all(alloc, self.world, &mut world)?;
        Ok(Session {
            world,
            moment: self.moment,
            hooks: self.hooks,
            streams: Vec::new(alloc),
            places: self.places,
            diagram: self.diagram,
        })
    }
}

// Gives the queries of old collections to the same collections.
fn carry_all(alloc: Global, old: World<Live>, world: &mut World<Live>) -> Result<(), AllocError>
    requires same { (world_of world.old).collections ≡ (world_of old).collections }
    requires quiet { AllByRecursion IsQuiet (holders_in old) }
    requires unwatched { AreUnwatched (holders_in world.old) }
    ensures lives { OnOk result (holders_in world.new ≡ each_live with_cooled (holders_in old)) }
    ensures replications { world.new.replications ≡ world.old.replications }
    ensures epoch { world.new.epoch ≡ world.old.epoch }
{
    let lives = old.release(alloc)?;
    for live in lives {
        carry(alloc, live, world)?;
    }
    Ok(())
}

// Gives the queries of an old collection to the collection of its name.
fn carry(alloc: Global, live: Live, world: &mut World<Live>) -> Result<(), AllocError>
    requires whole { live.broken ≡ false }
    requires quiet { emissions_due live.collection live.queries ≡ [] }
    requires bare { named (holders_in world.old) live.collection.name ≡ Some (bare live) }
    ensures lives { OnOk result (holders_in world.new
        ≡ change_named (holders_in world.old) live.collection.name
        (λ l. with_queries l (each cooled live.queries))) }
    ensures replications { world.new.replications ≡ world.old.replications }
    ensures epoch { world.new.epoch ≡ world.old.epoch }
{
    let coll = live.collection().name().copy(alloc)?;
    let queries = live.release();
    world.edit(
        coll.as_str(),
        |live|
            requires whole { live.old.broken ≡ false }
            requires none { live.old.queries ≡ [] }
            requires names { HaveDistinctNames queries.items }
            requires cold { AllCold queries.items }
            requires right { AllRight live.old.collection queries.items }
        { live.adopt(queries) },
    );
    Ok(())
}
