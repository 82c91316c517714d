// Dials a master that is elsewhere, once a turn.
ghost use Rattle.std.specs.Prelude.{◌≡◌, ◌≤◌, ℕ, true, List, Some, IfOk, IsSome, IsErrOf};
ghost use Rattle.rx_handler.specs.Shown.{kinds_of};
ghost use Rattle.rx_outside.specs.declared.stop.Stop.TheVariants as Stop;
ghost use Rattle.rx_store.specs.Safe.{HasDiskCause};
ghost use Rattle.rx_sync.specs.Asking.{pending_in};
ghost use Rattle.rx_sync.specs.Remote.{remote_turn};
ghost use Rattle.rx_sync.specs.RemoteLaws.{MayCall};
ghost use Rattle.rx_value.specs.Named.{by_bytes, named};
ghost use Rattle.rx_world.specs.Made.{IsMadeWorld};
ghost use Rattle.rx_world.specs.Sound.{IsSoundWorld};
ghost use Rattle.rx_engine.specs.Callings.{IsDialledBy, IsMissed, IsRemoteMade, IsRemoteMadeByName, TurnsRemotely};
ghost use Rattle.rx_engine.specs.Play.{IsPlayAt};
ghost use Rattle.rx_sync.specs.Asks.{asks_of};
ghost use Rattle.rx_engine.specs.Turning.{terms};

use crate::exchanging::ask_next;
use crate::play::Play;
use crate::remote::{Call, asked_to_pull, call_turn};
use crate::requests::remember;
use crate::turning::Turned;
use indexmap::IndexMap;
use rx_disk::Disk;
use rx_handler::Handlers;
use rx_outside::{Dial, Stop};
use rx_reply::{Lost, TurnEnd};
use rx_sync::{Asks, lost_by};
use rx_value::RxList;
use std::alloc::{AllocError, Global};

/// Makes a turn over a wire of the dial, and remembers the requests of its replication.
pub(crate) fn call_by_name<D: Disk, L: Dial>(
    alloc: Global,
    disk: &mut D,
    dial: &mut L,
    handlers: &Handlers,
    play: Play,
    asks: &mut IndexMap<String, Asks>,
    wanted: &Call,
    now: u64,
    none: bool,
) -> Result<Turned, Stop>
    requires at { D.tells → (bodies : List (List ℕ)) × IsPlayAt D.Disk disk.old play bodies }
    requires batch { 1 ≤ wanted.now.batch }
    requires budget { 1 ≤ wanted.now.budget }
    requires may { MayCall (terms wanted.now.name now (kinds_of handlers.now)) play.playing.world
        (asks_of wanted.now.name (by_bytes asks.old.entries)) }
    requires none { none ≡ true → pending_in play.playing.world wanted.now.name ≡ Some 0 }
    ensures turned { TurnsRemotely D.Disk disk.old disk.new play.journal.limit
        (IsPlayAt D.Disk disk.old play) (λ made. IsPlayAt D.Disk disk.new made.play)
        (λ heard. remote_turn (terms wanted.now.name now (kinds_of handlers.now)) wanted.now.batch
        wanted.now.budget heard play.playing.world
        (asks_of wanted.now.name (by_bytes asks.old.entries)))
        (IsRemoteMadeByName wanted.now.name play.playing (by_bytes asks.old.entries)
        (by_bytes asks.new.entries))
        (IsDialledBy L.W.tells wanted.now.port play.playing.world wanted.now.name
        (record {
          faults = L.faults dial.old;
          broken = L.broken dial.old;
          talks = L.talks dial.old;
          asked = L.asked dial.old;
        })
        (record {
          faults = L.faults dial.new;
          broken = L.broken dial.new;
          talks = L.talks dial.new;
          asked = L.asked dial.new;
        })) result }
    ensures limit { IfOk result (λ made. made.play.journal.limit ≡ play.journal.limit) }
    ensures none { IfOk result (λ made. made.pulled ≡ true
        → pending_in made.play.playing.world wanted.now.name ≡ Some 0) }
    ensures not_journal { IsErrOf result Stop.NotJournal → ⊥ }
    ensures cause { HasDiskCause (D.faults disk.old) (D.faults disk.new) result }
    ensures dial_count { L.faults dial.old ≤ L.faults dial.new }
{
    remember(asks, alloc, wanted.name.as_str())?;
    match asks.get_mut(wanted.name.as_str()) {
        Some(remembered) => dial_turn(
            alloc, disk, dial, handlers, play, remembered, wanted, now, none,
        ),
        None => unreachable!(),
    }
}

// Makes a turn over a wire of the dial, which gets it back.
fn dial_turn<D: Disk, L: Dial>(
    alloc: Global,
    disk: &mut D,
    dial: &mut L,
    handlers: &Handlers,
    play: Play,
    asks: &mut Asks,
    wanted: &Call,
    now: u64,
    none: bool,
) -> Result<Turned, Stop>
    requires at { D.tells → (bodies : List (List ℕ)) × IsPlayAt D.Disk disk.old play bodies }
    requires batch { 1 ≤ wanted.now.batch }
    requires budget { 1 ≤ wanted.now.budget }
    requires may { MayCall (terms wanted.now.name now (kinds_of handlers.now)) play.playing.world
        asks.old }
    requires none { none ≡ true → pending_in play.playing.world wanted.now.name ≡ Some 0 }
    ensures turned { TurnsRemotely D.Disk disk.old disk.new play.journal.limit
        (IsPlayAt D.Disk disk.old play) (λ made. IsPlayAt D.Disk disk.new made.play)
        (λ heard. remote_turn (terms wanted.now.name now (kinds_of handlers.now)) wanted.now.batch
        wanted.now.budget heard play.playing.world asks.old)
        (IsRemoteMade play.playing asks.new)
        (IsDialledBy L.W.tells wanted.now.port play.playing.world wanted.now.name
        (record {
          faults = L.faults dial.old;
          broken = L.broken dial.old;
          talks = L.talks dial.old;
          asked = L.asked dial.old;
        })
        (record {
          faults = L.faults dial.new;
          broken = L.broken dial.new;
          talks = L.talks dial.new;
          asked = L.asked dial.new;
        })) result }
    ensures limit { IfOk result (λ made. made.play.journal.limit ≡ play.journal.limit) }
    ensures none { IfOk result (λ made. made.pulled ≡ true
        → pending_in made.play.playing.world wanted.now.name ≡ Some 0) }
    ensures not_journal { IsErrOf result Stop.NotJournal → ⊥ }
    ensures cause { HasDiskCause (D.faults disk.old) (D.faults disk.new) result }
    ensures dial_count { L.faults dial.old ≤ L.faults dial.new }
{
    match dial.dial(wanted.port) {
        Ok(wire) => {
            let mut wire = wire;
            let made = call_turn(
                alloc, disk, &mut wire, handlers, play, asks, wanted, now, none,
            );
            dial.close(wire)?;
            made
        }
        Err(_) => Ok(miss_turn(alloc, play, asks, wanted, none)?),
    }
}

// The turn whose first exchange is lost, since there is no wire.
fn miss_turn(
    alloc: Global,
    play: Play,
    asks: &mut Asks,
    wanted: &Call,
    none: bool,
) -> Result<Turned, AllocError>
    requires held { IsSome (named play.playing.world.replications wanted.now.name) }
    requires sound { IsSoundWorld play.playing.world }
    requires batch { 1 ≤ wanted.now.batch }
    requires made { IsMadeWorld play.playing.world }
    requires none { none ≡ true → pending_in play.playing.world wanted.now.name ≡ Some 0 }
    ensures missed { IfOk result
        (IsMissed wanted.now.name wanted.now.batch play asks.old asks.new) }
    ensures none { IfOk result (λ made. made.pulled ≡ true
        → pending_in made.play.playing.world wanted.now.name ≡ Some 0) }
{
    let asked = ask_next(alloc, &play, asks, wanted.name.as_str(), wanted.batch, none)?;
    let lost = lost_by(alloc, Lost::Dial, &asked.request.ask)?;
    let pulled = asked_to_pull(&lost);
    let mut exchanges = RxList::new(alloc);
    exchanges.push(lost)?;
    Ok(Turned {
        play,
        exchanges,
        ended: TurnEnd::Lost,
        pulled,
    })
}
