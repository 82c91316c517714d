// What the fork of a replication asks.
ghost use Rattle.std.specs.Prelude.{◌≡◌, ◌≤◌, Some, IfOk, IsSome};
ghost use Rattle.rx_value.specs.Named.{named};
ghost use Rattle.rx_world.specs.Holders.{world_in};
ghost use Rattle.rx_world.specs.Sound.{IsSoundWorld};
ghost use Rattle.rx_sync.specs.Asking.{asked_in, pending_in};
ghost use Rattle.rx_sync.specs.Laws.{IsDueIn};

use crate::lookup::{find_fork, find_replication};
use rx_collection::Holder;
use rx_fork::{Asked, Fork};
use rx_world::World;
use std::alloc::{AllocError, Global};

/// How many documents the fork of a replication has to push.
pub fn pending<H: Holder + Drop>(world: &World<H>, name: &str) -> usize
    requires held { IsSome (named (world_in H.held world.now).replications name.now) }
    requires sound { IsSoundWorld (world_in H.held world.now) }
    ensures { pending_in (world_in H.held world.now) name.now ≡ Some result }
{
    let replication = find_replication(world, name);
    let fork = find_fork(world, replication);
    Fork {
        meta: &replication.side,
    }
    .pending(fork)
}

/// The request of that number that the fork of a replication has to make.
pub fn ask<H: Holder + Drop>(
    alloc: Global,
    world: &World<H>,
    name: &str,
    n: u64,
    batch: u32,
) -> Result<Asked, AllocError>
    requires held { IsSome (named (world_in H.held world.now).replications name.now) }
    requires sound { IsSoundWorld (world_in H.held world.now) }
    requires batch { 1 ≤ batch }
    ensures asked { IfOk result
        (λ asked. asked_in (world_in H.held world.now) name.now n batch ≡ Some asked) }
    // It is lawful, and due as long as the fork isn't written.
    ensures due { IfOk result (λ asked. IsDueIn (world_in H.held world.now) name.now asked) }
{
    let replication = find_replication(world, name);
    let fork = find_fork(world, replication);
    Fork {
        meta: &replication.side,
    }
    .ask(alloc, fork, world.epoch(), n, batch)
}

/// The same where nothing is to be pushed, so that it is a pull: no document is looked at.
pub fn ask_to_pull<H: Holder + Drop>(
    alloc: Global,
    world: &World<H>,
    name: &str,
    n: u64,
    batch: u32,
) -> Result<Asked, AllocError>
    requires held { IsSome (named (world_in H.held world.now).replications name.now) }
    requires none { pending_in (world_in H.held world.now) name.now ≡ Some 0 }
    requires batch { 1 ≤ batch }
    ensures asked { IfOk result
        (λ asked. asked_in (world_in H.held world.now) name.now n batch ≡ Some asked) }
    ensures due { IfOk result (λ asked. IsDueIn (world_in H.held world.now) name.now asked) }
{
    let replication = find_replication(world, name);
    let fork = find_fork(world, replication);
    Fork {
        meta: &replication.side,
    }
    .ask_to_pull(alloc, fork, world.epoch(), n, batch)
}
