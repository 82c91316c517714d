// What a record does to collections with observed queries.
ghost use Rattle.std.specs.Prelude.{◌≡◌, true, false, IfOk, IsErrOf};
ghost use Rattle.rx_record.specs.Shown.{content};
ghost use Rattle.rx_record.specs.Writable.{IsOrdered};
ghost use Rattle.rx_world.specs.Holders.{holders_in};
ghost use Rattle.rx_world.specs.Made.{IsMadeWorld};
ghost use Rattle.rx_world.specs.Step.{step, legal};
ghost use Rattle.rx_world.specs.Touch.{touch};
ghost use Rattle.rx_world.specs.Valid.{AreDistinct};
ghost use Rattle.rx_session.specs.Applied.{IsAfter, IsMadeFor, coll_written};
ghost use Rattle.rx_session.specs.Placed.{AreUnwatched, world_of};

use rx_collection::Collection;
use rx_diagram::Diagram;
use rx_observe::Live;
use rx_record::Record;
use rx_value::RxText;
use rx_world::{ApplyFault, World};
use std::alloc::{AllocError, Global};
use std::rc::Rc;

/// Applies a record where no query is observed. A new collection gets a share of the diagram.
pub fn apply(
    world: World<Live>,
    alloc: Global,
    entry: Record,
    diagram: &Rc<Diagram>,
) -> Result<World<Live>, ApplyFault>
    requires ordered { IsOrdered (content entry) }
    requires unwatched { AreUnwatched (holders_in world) }
    ensures ok { IfOk result (λ w. (world_of w ≡ step (content entry) (world_of world))
        × (legal (content entry) (world_of world) ≡ true)) }
    ensures unwatched { IfOk result (λ w. AreUnwatched (holders_in w)) }
    ensures distinct { IfOk result (λ w. AreDistinct (world_of w)) }
    ensures made { IfOk result (λ w. IsMadeWorld (world_of w)) }
    ensures illegal { IsErrOf result ApplyFault.Illegal
        → legal (content entry) (world_of world) ≡ false }
{
    change(
        world,
        alloc,
        entry,
        &|collection| { Live::new(alloc, collection, diagram.clone()?) },
    )
}

// Applies a record, and brings the queries of its collection up to date. What makes a collection
// gives it no queries.
fn change<F: Fn(Collection) -> Result<Live, AllocError>>(
    world: World<Live>,
    alloc: Global,
    entry: Record,
    make: &F,
) -> Result<World<Live>, ApplyFault>
    requires callable { F.IsAlwaysCallable make.now }
    requires makes { (c : _) (r : _) → F.post make.now c r → IfOk r (IsMadeFor c) }
    requires ordered { IsOrdered (content entry) }
    ensures ok { IfOk result (λ w. (world_of w ≡ step (content entry) (world_of world))
        × (legal (content entry) (world_of world) ≡ true)) }
    ensures lives { IfOk result
        (λ w. IsAfter (touch (content entry) (world_of world)) (holders_in world) (holders_in w)) }
    ensures distinct { IfOk result (λ w. AreDistinct (world_of w)) }
    ensures made { IfOk result (λ w. IsMadeWorld (world_of w)) }
    ensures illegal { IsErrOf result ApplyFault.Illegal
        → legal (content entry) (world_of world) ≡ false }
{
    let applied = world.apply(alloc, entry, make)?;
    Ok(applied)
}

// The same of a legal record.
pub(crate) fn apply_legal(
    world: World<Live>,
    alloc: Global,
    entry: Record,
    diagram: &Rc<Diagram>,
) -> Result<World<Live>, AllocError>
    requires ordered { IsOrdered (content entry) }
    requires legal { legal (content entry) (world_of world) ≡ true }
    ensures world { IfOk result (λ w. world_of w ≡ step (content entry) (world_of world)) }
    ensures lives { IfOk result
        (λ w. IsAfter (touch (content entry) (world_of world)) (holders_in world) (holders_in w)) }
    ensures made { IfOk result (λ w. IsMadeWorld (world_of w)) }
    ensures before { IsMadeWorld (world_of world) }
{
    change_legal(
        world,
        alloc,
        entry,
        &|collection| { Live::new(alloc, collection, diagram.clone()?) },
    )
}

fn change_legal<F: Fn(Collection) -> Result<Live, AllocError>>(
    world: World<Live>,
    alloc: Global,
    entry: Record,
    make: &F,
) -> Result<World<Live>, AllocError>
    requires callable { F.IsAlwaysCallable make.now }
    requires makes { (c : _) (r : _) → F.post make.now c r → IfOk r (IsMadeFor c) }
    requires ordered { IsOrdered (content entry) }
    requires legal { legal (content entry) (world_of world) ≡ true }
    ensures world { IfOk result (λ w. world_of w ≡ step (content entry) (world_of world)) }
    ensures lives { IfOk result
        (λ w. IsAfter (touch (content entry) (world_of world)) (holders_in world) (holders_in w)) }
    ensures made { IfOk result (λ w. IsMadeWorld (world_of w)) }
    ensures before { IsMadeWorld (world_of world) }
{
    let applied = world.apply_legal(alloc, entry, make)?;
    Ok(applied)
}

// The collection whose documents a record writes: that of its rows, or the fork of an exchange that
// has a row.
pub(crate) fn coll_written(
    alloc: Global,
    world: &World<Live>,
    entry: &Record,
) -> Result<Option<RxText>, AllocError>
    ensures { IfOk result
        (λ coll. coll ≡ coll_written (touch (content entry.now) (world_of world.now))) }
{
    match entry {
        Record::Rows { name, .. } => Ok(Some(name.copy(alloc)?)),
        Record::Exchange { name, rows, .. } if !rows.is_empty() => {
            match world.replication(name.as_str()) {
                Some(replication) => Ok(Some(replication.fork.copy(alloc)?)),
                None => Ok(None),
            }
        }
        _ => Ok(None),
    }
}
