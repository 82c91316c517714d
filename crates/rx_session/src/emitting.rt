// What is done to the observed queries of one collection.
ghost use Rattle.std.specs.Prelude.{◌≡◌, None, true, false, IfOk, OnOk};
ghost use Rattle.rx_query.specs.QuerySpec.{asked};
ghost use Rattle.rx_value.specs.Named.{named, change_named};
ghost use Rattle.rx_world.specs.Holders.{holders_in};
ghost use Rattle.rx_session.specs.Doing.{has_key};
ghost use Rattle.rx_session.specs.Lives.{IsFree, due_of, with_settled, with_query, without_query};
ghost use Rattle.rx_session.specs.Placed.{world_of};

use rx_observe::{Emission, Live};
use rx_query::Query;
use rx_value::RxText;
use rx_world::World;
use std::alloc::{AllocError, Global};

// The emissions due of a collection's queries, which are emitted then.
pub(crate) fn take_due(
    alloc: Global,
    world: &mut World<Live>,
    coll: &RxText,
) -> Result<Vec<Emission>, AllocError>
    ensures lives { OnOk result (holders_in world.new
        ≡ change_named (holders_in world.old) coll.now with_settled) }
    ensures replications { world.new.replications ≡ world.old.replications }
    ensures epoch { world.new.epoch ≡ world.old.epoch }
    ensures due { IfOk result
        (λ due. due.items ≡ due_of (named (holders_in world.old) coll.now)) }
{
    let due = world.edit(
        coll.as_str(),
        |live|
            requires { live.old.broken ≡ false }
        { live.emissions() },
    );
    match due {
        Some(due) => due,
        None => Ok(Vec::new(alloc)),
    }
}

// Observes a query in a collection.
pub(crate) fn observe(
    world: &mut World<Live>,
    coll: &RxText,
    name: RxText,
    query: Query,
) -> Result<(), AllocError>
    requires free { IsFree name (named (holders_in world.old) coll.now) }
    requires keyed { has_key (asked query).primary (named (world_of world.old).collections coll.now)
        ≡ true }
    ensures lives { OnOk result (holders_in world.new
        ≡ change_named (holders_in world.old) coll.now (with_query name (asked query))) }
    ensures replications { world.new.replications ≡ world.old.replications }
    ensures epoch { world.new.epoch ≡ world.old.epoch }
{
    let observed = world.edit(
        coll.as_str(),
        |live|
            requires whole { live.old.broken ≡ false }
            requires new { named live.old.queries name ≡ None }
            requires keyed { (asked query).primary ≡ live.old.collection.schema.primary }
        { live.observe(name, query) },
    );
    match observed {
        Some(observed) => observed,
        None => Ok(()),
    }
}

// Observes the query of a name no more.
pub(crate) fn unobserve(world: &mut World<Live>, coll: &RxText, name: &RxText)
    ensures lives { holders_in world.new
        ≡ change_named (holders_in world.old) coll.now (without_query name.now) }
    ensures replications { world.new.replications ≡ world.old.replications }
    ensures epoch { world.new.epoch ≡ world.old.epoch }
{
    world.edit(coll.as_str(), |live| live.unobserve(name.as_str()));
}
