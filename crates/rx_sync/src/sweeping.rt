// In which order a sweep makes the turns of a tree.
ghost use Rattle.std.specs.Prelude.{◌≡◌, ◌<◌, ◌++◌, ◌∷◌, [], length, map, filter, take, drop, IfOk, OnOk, option_map, slice_get};
ghost use Rattle.std.specs.Option.{ForSome};
ghost use Rattle.rx_world.specs.Holders.{world_in};
ghost use Rattle.rx_world.specs.Made.{IsMadeWorld};
ghost use Rattle.rx_tree.specs.Orders.{levels_down, levels_up};
ghost use Rattle.rx_sync.specs.Sweep.{by_fork, entry_of, forks_among, has_master, replication_of, steps_of, sweep_steps};

use rx_collection::Holder;
use rx_record::MasterName;
use rx_reply::Pass;
use rx_value::RxText;
use rx_world::{Replication, World};
use std::alloc::{AllocError, Global};

/// A turn that a sweep is to make, and on which of its ways.
#[derive(Drop)]
pub struct Step {
    pub pass: Pass,
    /// The name of the replication.
    pub name: RxText,
}

/// The turns over the tree of a collection: up, each fork's behind those of the forks below it, and
/// then down, each before them; the forks of one collection in the order in which they were made.
pub fn sweep_steps<H: Holder + Drop>(
    alloc: Global,
    world: &World<H>,
    root: &str,
) -> Result<Vec<Step>, AllocError>
    ensures { IfOk result
        (λ steps. steps.items ≡ sweep_steps (world_in H.held world.now) root.now) }
{
    let forks = forks_in_order(alloc, world)?;
    let up = levels_up(alloc, forks.as_slice(), world.replications(), root)?;
    let down = levels_down(alloc, forks.as_slice(), world.replications(), root)?;
    let mut steps = Vec::with_capacity(alloc, up.len() + down.len())?;
    add_steps(alloc, &mut steps, world, Pass::Up, up.as_slice())?;
    add_steps(alloc, &mut steps, world, Pass::Down, down.as_slice())?;
    Ok(steps)
}

// The replications in the order in which their forks were made.
fn forks_in_order<'a, H: Holder + Drop>(
    alloc: Global,
    world: &'a World<H>,
) -> Result<Vec<&'a Replication>, AllocError>
    ensures order { IfOk result (λ list. map (λ r. r.now) list.items
        ≡ by_fork (world_in H.held world.now).replications
        (map (λ e. e.0) (world_in H.held world.now).collections)) }
    ensures made { IsMadeWorld (world_in H.held world.now) }
{
    let mut list = Vec::new(alloc);
    for at in 0..world.len() {
        add_fork(&mut list, world, at)?;
    }
    Ok(list)
}

// The replication of the collection at a place, where it is a fork.
fn add_fork<'a, H: Holder + Drop>(
    list: &mut Vec<&'a Replication>,
    world: &'a World<H>,
    at: usize,
) -> Result<(), AllocError>
    requires { at < length (world_in H.held world.now).collections }
    ensures { OnOk result (ForSome (slice_get (world_in H.held world.now).collections at)
        (λ e. map (λ r. r.now) list.new.items ≡ map (λ r. r.now) list.old.items
        ++ by_fork (world_in H.held world.now).replications (e.0 ∷ []))) }
{
    let name = world.holder_at(at).collection().name();
    if let Some(replication) = replication_of(world, name.as_str()) {
        list.push(replication)?;
    }
    Ok(())
}

// The replication of a fork.
fn replication_of<'a, H: Holder + Drop>(world: &'a World<H>, fork: &str) -> Option<&'a Replication>
    ensures { option_map (λ r. (r.now.name, r.now)) result
        ≡ entry_of (world_in H.held world.now).replications fork.now }
{
    for at in 0..world.replications() {
        let replication = world.replication_at(at);
        if replication.fork.as_str() == fork {
            return Some(replication);
        }
    }
    None
}

// So many levels of the forks below a collection, each behind those below it.
fn levels_up<'a>(
    alloc: Global,
    forks: &[&'a Replication],
    levels: usize,
    name: &str,
) -> Result<Vec<&'a RxText>, AllocError>
    ensures { IfOk result (λ order. map (λ t. t.now) order.items
        ≡ levels_up (forks_among (map (λ r. r.now) forks.now)) levels name.now) }
{
    let mut order = Vec::new(alloc);
    if levels == 0 {
        return Ok(order);
    }
    for fork in &followers(alloc, forks, name)? {
        let below = levels_up(alloc, forks, levels - 1, fork.as_str())?;
        order.extend_from_slice(below.as_slice())?;
        order.push(*fork)?;
    }
    Ok(order)
}

// The same levels, each before those below it.
fn levels_down<'a>(
    alloc: Global,
    forks: &[&'a Replication],
    levels: usize,
    name: &str,
) -> Result<Vec<&'a RxText>, AllocError>
    ensures { IfOk result (λ order. map (λ t. t.now) order.items
        ≡ levels_down (forks_among (map (λ r. r.now) forks.now)) levels name.now) }
{
    let mut order = Vec::new(alloc);
    if levels == 0 {
        return Ok(order);
    }
    for fork in &followers(alloc, forks, name)? {
        let below = levels_down(alloc, forks, levels - 1, fork.as_str())?;
        order.push(*fork)?;
        order.extend_from_slice(below.as_slice())?;
    }
    Ok(order)
}

// The forks of a collection, in their order.
fn followers<'a>(
    alloc: Global,
    forks: &[&'a Replication],
    name: &str,
) -> Result<Vec<&'a RxText>, AllocError>
    ensures { IfOk result (λ list. map (λ t. t.now) list.items
        ≡ forks_among (map (λ r. r.now) forks.now) name.now) }
{
    let mut list = Vec::new(alloc);
    for replication in forks {
        if has_master(replication, name) {
            list.push(&replication.fork)?;
        }
    }
    Ok(list)
}

fn has_master(replication: &Replication, name: &str) -> bool
    ensures { result ≡ has_master name.now replication.now }
{
    match &replication.master {
        MasterName::Local(master) => master.as_str() == name,
        MasterName::Port(_) => false,
    }
}

// The turns of the replications of these forks.
fn add_steps<H: Holder + Drop>(
    alloc: Global,
    steps: &mut Vec<Step>,
    world: &World<H>,
    pass: Pass,
    forks: &[&RxText],
) -> Result<(), AllocError>
    ensures { OnOk result (steps.new.items ≡ steps.old.items
        ++ steps_of (world_in H.held world.now).replications pass (map (λ t. t.now) forks.now)) }
{
    for fork in forks {
        let name = match replication_of(world, fork.as_str()) {
            Some(replication) => replication.name.copy(alloc)?,
            None => RxText::new(alloc, "")?,
        };
        steps.push(Step { pass, name })?;
    }
    Ok(())
}
