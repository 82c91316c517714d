// What the fork of a replication makes of an event of its master.
ghost use Rattle.std.specs.Prelude.{◌≡◌, ◌==◌, map, true, Some, IfOk, length, option_map};
ghost use Rattle.std.specs.List.{IsDistinct};
ghost use Rattle.std.specs.Option.{IsSomeAnd};
ghost use Rattle.std.specs.Str.{bytes_eq};
ghost use Rattle.rx_value.specs.Due.{DueBy};
ghost use Rattle.rx_collection.specs.Since.{is_above, since};
ghost use Rattle.rx_replication.specs.Known.{pending, NonePendingBelow};
ghost use Rattle.rx_world.specs.Holders.{world_in};
ghost use Rattle.rx_world.specs.Sound.{IsSoundWorld};
ghost use Rattle.rx_sync.specs.Asking.{pending_in};
ghost use Rattle.rx_sync.specs.Bound.{link_of};
ghost use Rattle.rx_sync.specs.Delivery.{is_level, is_level_link};
ghost use Rattle.rx_sync.specs.Events.{event_by, event_recorded, event_taken, IsGoodEventIn};
ghost use Rattle.rx_sync.specs.Exchange.{world_after};
ghost use Rattle.rx_sync.specs.Laws.{ComeSoundly, HasMasterHere};
ghost use Rattle.rx_sync.specs.Shown.{record_in};
ghost use Rattle.rx_sync.specs.declared.fault.EventFault.TheVariants.{Memory};

use crate::fault::{EventFault, TakeFault};
use crate::lookup::{find_fork, find_master, find_replication};
use crate::taking::{is_same_place, record_of};
use rx_collection::{Collection, Holder};
use rx_document::Place;
use rx_fork::Fork;
use rx_record::Record;
use rx_stream::Event;
use rx_world::{Replication, World};
use std::alloc::Global;

/// What an event of the master comes to at the fork of a replication: the record that takes it,
/// where anything changes. Where it is known that nothing of the fork is to be pushed, `none`
/// spares the look at its documents. Nothing is changed here: the record is to be kept, and then
/// applied.
pub fn take_event<H: Holder + Drop>(
    alloc: Global,
    world: &World<H>,
    name: &str,
    event: &Event,
    now: u64,
    none: bool,
) -> Result<Option<Record>, EventFault>
    requires master { HasMasterHere (world_in H.held world.now) name.now }
    requires sound { IsSoundWorld (world_in H.held world.now) }
    requires none { none ≡ true → pending_in (world_in H.held world.now) name.now ≡ Some 0 }
    requires good { IsGoodEventIn (world_in H.held world.now) name.now event.now }
    ensures taken { IsSomeAnd (event_taken (world_in H.held world.now) name.now event.now now)
        (DueBy Memory record_in result) }
    // The record may come next, and keeps the world sound.
    ensures next { IfOk result
        (λ entry. ComeSoundly (world_in H.held world.now) (record_in entry)) }
    // A fork that has something to push is left as it is.
    ensures untouched { IfOk result
        (λ entry. pending_in (world_in H.held world.now) name.now ≡ Some 0) }
    // Afterwards nothing is to be pushed.
    ensures settled { IfOk result (λ entry. pending_in
        (world_after (record_in entry) (world_in H.held world.now)) name.now ≡ Some 0) }
{
    let replication = find_replication(world, name);
    let fork = find_fork(world, replication);
    take_at(alloc, name, replication, fork, event, now, none)
}

/// Whether the fork of a replication has all that its master has, and nothing to push. Where the
/// latter is known, `none` spares the look at its documents.
pub fn is_level<H: Holder + Drop>(world: &World<H>, name: &str, none: bool) -> bool
    requires master { HasMasterHere (world_in H.held world.now) name.now }
    requires sound { IsSoundWorld (world_in H.held world.now) }
    requires none { none ≡ true → pending_in (world_in H.held world.now) name.now ≡ Some 0 }
    ensures { result ≡ is_level (world_in H.held world.now) name.now }
{
    let replication = find_replication(world, name);
    let fork = find_fork(world, replication);
    let master = find_master(world, replication);
    is_level_link(replication, fork, master, none)
}

// By the order in which an event is judged.
fn take_at(
    alloc: Global,
    name: &str,
    replication: &Replication,
    fork: &Collection,
    event: &Event,
    now: u64,
    none: bool,
) -> Result<Option<Record>, EventFault>
    requires below { NonePendingBelow fork.now.documents replication.now.side.known
        replication.now.side.up }
    requires none { none ≡ true
        → length (pending fork.now.documents replication.now.side.known) ≡ 0 }
    requires apart { IsDistinct bytes_eq (map (λ s. s.key) event.now.states) }
    ensures { DueBy Memory record_in result
        (event_by name.now now event.now replication.now fork.now) }
{
    let side = Fork {
        meta: &replication.side,
    };
    if !is_above(replication.side.down(), &event.place) {
        return Err(EventFault::Old);
    }
    let due = count_due(&side, fork, none);
    if due > 0 {
        return Err(EventFault::Pending(due));
    }
    if !is_same_place(event.from.as_ref(), replication.side.down()) {
        return Err(EventFault::Gap);
    }
    record_event(alloc, name, replication, fork, event, now)
}

// The record that the event is taken with.
fn record_event(
    alloc: Global,
    name: &str,
    replication: &Replication,
    fork: &Collection,
    event: &Event,
    now: u64,
) -> Result<Option<Record>, EventFault>
    requires { IsDistinct bytes_eq (map (λ s. s.key) event.now.states) }
    ensures { DueBy Memory record_in result
        (event_recorded name.now now event.now replication.now fork.now) }
{
    let side = Fork {
        meta: &replication.side,
    };
    let plan = side.page_plan(alloc, fork, event.states.as_slice(), Some(&event.place))?;
    match record_of(alloc, name, fork, &replication.side, plan, now) {
        Ok(entry) => Ok(entry),
        Err(TakeFault::Memory) => Err(EventFault::Memory),
        Err(_) => Err(EventFault::ClockEnd),
    }
}

// How many documents of the fork are to be pushed.
fn count_due(side: &Fork<'_>, fork: &Collection, none: bool) -> usize
    requires below { NonePendingBelow fork.now.documents side.now.meta.now.known
        side.now.meta.now.up }
    requires none { none ≡ true → length (pending fork.now.documents side.now.meta.now.known) ≡ 0 }
    ensures { result ≡ length (pending fork.now.documents side.now.meta.now.known) }
{
    if none {
        return 0;
    }
    side.pending(fork)
}

// Whether the second place is above the first one. Any place is above none.
fn is_above(place: Option<&Place>, other: &Place) -> bool
    ensures { result ≡ is_above (option_map (λ p. p.now) place.entry) other.now }
{
    match place {
        None => true,
        Some(place) => place.cmp(other).is_lt(),
    }
}

fn is_level_link(
    replication: &Replication,
    fork: &Collection,
    master: &Collection,
    none: bool,
) -> bool
    requires below { NonePendingBelow fork.now.documents replication.now.side.known
        replication.now.side.up }
    requires none { none ≡ true
        → length (pending fork.now.documents replication.now.side.known) ≡ 0 }
    ensures { result ≡ is_level_link (link_of replication.now fork.now master.now) }
{
    let side = Fork {
        meta: &replication.side,
    };
    has_none_above(master, replication.side.down()) && count_due(&side, fork, none) == 0
}

// Whether no document is above the place.
fn has_none_above(master: &Collection, place: Option<&Place>) -> bool
    ensures { result ≡ (length (since master.now.documents (option_map (λ p. p.now) place.entry) 1)
        == 0) }
{
    master.page(place, 1).next().is_none()
}
