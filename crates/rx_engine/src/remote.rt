// Makes a turn to a master that is elsewhere, over a wire.
ghost use Rattle.std.specs.Prelude.{◌≡◌, ◌≤◌, ℕ, true, List, [], Some, IfOk, IsErrOf};
ghost use Rattle.rx_handler.specs.Shown.{kinds_of};
ghost use Rattle.rx_outside.specs.declared.stop.Stop.TheVariants as Stop;
ghost use Rattle.rx_store.specs.Safe.{HasDiskCause};
ghost use Rattle.rx_sync.specs.Asking.{pending_in};
ghost use Rattle.rx_sync.specs.Exchange.{asked_to_pull};
ghost use Rattle.rx_sync.specs.Remote.{remote_turn};
ghost use Rattle.rx_sync.specs.RemoteLaws.{MayCall};
ghost use Rattle.rx_engine.specs.Callings.{IsHeardOver, IsRemoteMade, TurnsRemotely, wire_stands};
ghost use Rattle.rx_engine.specs.Play.{IsPlayAt};
ghost use Rattle.rx_engine.specs.Turning.{terms};

use crate::calling::call_exchange;
use crate::play::Play;
use crate::turning::{Turned, end_by};
use rx_disk::Disk;
use rx_handler::Handlers;
use rx_outside::{Stop, Wire};
use rx_reply::{Exchanged, TurnEnd};
use rx_sync::Asks;
use rx_value::{RxList, RxText};
use std::alloc::Global;

/// A turn that is to be made to a master at a port: of so many documents an exchange, so many
/// exchanges at most.
#[derive(Drop)]
pub(crate) struct Call {
    pub name: RxText,
    pub port: u16,
    pub batch: u32,
    pub budget: u32,
}

/// Makes the exchanges of a turn over a wire, until one ends it or none is left. Where `none`
/// nothing is to be pushed before it.
pub(crate) fn call_turn<D: Disk, W: Wire>(
    alloc: Global,
    disk: &mut D,
    wire: &mut W,
    handlers: &Handlers,
    first: Play,
    asks: &mut Asks,
    wanted: &Call,
    now: u64,
    none: bool,
) -> Result<Turned, Stop>
    requires at { D.tells → (bodies : List (List ℕ)) × IsPlayAt D.Disk disk.old first bodies }
    requires batch { 1 ≤ wanted.now.batch }
    requires may { MayCall (terms wanted.now.name now (kinds_of handlers.now))
        first.playing.world asks.old }
    requires none { none ≡ true → pending_in first.playing.world wanted.now.name ≡ Some 0 }
    requires none_given { W.tells → W.given wire.old ≡ [] }
    requires none_sent { W.tells → W.sent wire.old ≡ [] }
    ensures turned { TurnsRemotely D.Disk disk.old disk.new first.journal.limit
        (IsPlayAt D.Disk disk.old first) (λ made. IsPlayAt D.Disk disk.new made.play)
        (λ heard. remote_turn (terms wanted.now.name now (kinds_of handlers.now)) wanted.now.batch
        wanted.now.budget heard first.playing.world asks.old)
        (IsRemoteMade first.playing asks.new)
        (IsHeardOver W.tells first.playing.world wanted.now.name
        (wire_stands W.Wire wire.old)
        (wire_stands W.Wire wire.new)) result }
    ensures limit { IfOk result (λ made. made.play.journal.limit ≡ first.journal.limit) }
    ensures none { IfOk result (λ made. made.pulled ≡ true
        → pending_in made.play.playing.world wanted.now.name ≡ Some 0) }
    ensures not_journal { IsErrOf result Stop.NotJournal → ⊥ }
    ensures cause { HasDiskCause (D.faults disk.old) (D.faults disk.new) result }
    ensures wire_count { W.faults wire.old ≤ W.faults wire.new }
{
    let mut play = first;
    let mut exchanges = RxList::new(alloc);
    let mut pulled = none;
    for i in 0..wanted.budget {
        let (next, came) = call_exchange(
            alloc, disk, wire, handlers, play, asks, wanted, now, pulled,
        )?;
        play = next;
        let Some(exchanged) = came else {
            return Ok(Turned {
                play,
                exchanges,
                ended: TurnEnd::Clock,
                pulled: false,
            });
        };
        pulled = asked_to_pull(&exchanged);
        let end = end_by(wanted.batch, &exchanged);
        exchanges.push(exchanged)?;
        if let Some(ended) = end {
            return Ok(Turned {
                play,
                exchanges,
                ended,
                pulled,
            });
        }
    }
    Ok(Turned {
        play,
        exchanges,
        ended: TurnEnd::More,
        pulled,
    })
}

/// Whether an exchange asked for a pull, whatever came of it: then nothing is to be pushed after
/// it.
pub(crate) fn asked_to_pull(exchanged: &Exchanged) -> bool
    ensures { result ≡ asked_to_pull (Some exchanged.now) }
{
    matches!(
        exchanged,
        Exchanged::Pulled { .. } | Exchanged::PullLost { .. }
    )
}
