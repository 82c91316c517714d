// Makes an exchange with a master that is elsewhere, over a wire.
ghost use Rattle.std.specs.Prelude.{◌≡◌, ◌≤◌, ℕ, true, List, Some, IfOk, IsSome, OnOk, IsErrOf};
ghost use Rattle.rx_value.specs.Named.{named};
ghost use Rattle.rx_handler.specs.Shown.{kinds_of};
ghost use Rattle.rx_outside.specs.Failed.{Rises};
ghost use Rattle.rx_outside.specs.declared.stop.Stop.TheVariants as Stop;
ghost use Rattle.rx_schema.specs.declared.shape.Shape.{Shape};
ghost use Rattle.rx_store.specs.Safe.{HasDiskCause, IsCrashSafe};
ghost use Rattle.rx_sync.specs.Asking.{pending_in};
ghost use Rattle.rx_sync.specs.Laws.{IsDueIn};
ghost use Rattle.rx_sync.specs.Remote.{heard_exchange, no_dial, no_wire, schema_in};
ghost use Rattle.rx_sync.specs.RemoteLaws.{IsReadyElsewhere, MayCall};
ghost use Rattle.rx_sync.specs.Shown.{heard_of};
ghost use Rattle.rx_wire.specs.Writing.{request_text};
ghost use Rattle.rx_engine.specs.Callings.{Hears, MakesHeard, wire_stands};
ghost use Rattle.rx_engine.specs.Meaning.{bodies_of};
ghost use Rattle.rx_engine.specs.Play.{IsPlayAt};
ghost use Rattle.rx_engine.specs.Turning.{terms, written};

use crate::exchanging::ask_next;
use crate::play::Play;
use crate::remote::Call;
use rx_disk::Disk;
use rx_fork::Asked;
use rx_handler::Handlers;
use rx_outside::{Stop, Wire};
use rx_reply::Exchanged;
use rx_serve::{CallFault, call};
use rx_sync::{Asks, Heard, Planned, fork_schema, hear};
use rx_wire::Request;
use std::alloc::{AllocError, Global};

/// Makes an exchange over a wire, where the one before it has pulled or not. Nothing came of it
/// where a commit found no write time.
pub(crate) fn call_exchange<D: Disk, W: Wire>(
    alloc: Global,
    disk: &mut D,
    wire: &mut W,
    handlers: &Handlers,
    play: Play,
    asks: &mut Asks,
    wanted: &Call,
    now: u64,
    pulled: bool,
) -> Result<(Play, Option<Exchanged>), Stop>
    requires at { D.tells → (bodies : List (List ℕ)) × IsPlayAt D.Disk disk.old play bodies }
    requires batch { 1 ≤ wanted.now.batch }
    requires may { MayCall (terms wanted.now.name now (kinds_of handlers.now)) play.playing.world
        asks.old }
    requires pulled { pulled ≡ true → pending_in play.playing.world wanted.now.name ≡ Some 0 }
    ensures made { MakesHeard D.Disk disk.old disk.new W.tells
        (wire_stands W.Wire wire.old)
        (wire_stands W.Wire wire.new)
        (terms wanted.now.name now (kinds_of handlers.now)) wanted.now.batch play asks.old asks.new
        result }
    ensures limit { IfOk result (λ p. p.0.journal.limit ≡ play.journal.limit) }
    ensures not_journal { IsErrOf result Stop.NotJournal → ⊥ }
    ensures cause { HasDiskCause (D.faults disk.old) (D.faults disk.new) result }
    ensures wire_count { W.faults wire.old ≤ W.faults wire.new }
{
    let name = wanted.name.as_str();
    let asked = ask_next(alloc, &play, asks, name, wanted.batch, pulled)?;
    let heard = call_master(alloc, &play, wire, name, &asked.request)?;
    keep_heard(alloc, disk, handlers, play, name, &asked, &heard, now)
}

// Sends a request to the master, and tells what was heard.
fn call_master<W: Wire>(
    alloc: Global,
    play: &Play,
    wire: &mut W,
    name: &str,
    request: &Request,
) -> Result<Heard, AllocError>
    requires held { IsSome (named play.now.playing.world.replications name.now) }
    ensures heard { W.tells → (schema : Shape)
        → schema_in play.now.playing.world name.now ≡ Some schema
        → IfOk result (λ heard. Hears (request_text schema request.now) (heard_of heard)
        (wire_stands W.Wire wire.old)
        (wire_stands W.Wire wire.new)) }
    ensures failed { IfOk result (λ heard. heard_of heard ≡ no_wire
        → Rises (W.faults wire.old) (W.faults wire.new)) }
    ensures got { IfOk result (λ heard. heard_of heard ≡ no_dial → ⊥) }
    ensures count { W.faults wire.old ≤ W.faults wire.new }
{
    let text = request.text(alloc, fork_schema(play.playing.world(), name))?;
    match call(alloc, wire, text.as_str().as_bytes()) {
        Ok(line) => Ok(Heard::Line(line)),
        Err(CallFault::Wire) => Ok(Heard::NoWire),
        Err(CallFault::End) => Ok(Heard::NoLine),
        Err(CallFault::TooLong) => Ok(Heard::NoLine),
        Err(CallFault::Memory) => Err(AllocError),
    }
}

/// What is made of what was heard, once its records are on the disk.
pub(crate) fn keep_heard<D: Disk>(
    alloc: Global,
    disk: &mut D,
    handlers: &Handlers,
    play: Play,
    name: &str,
    asked: &Asked,
    heard: &Heard,
    now: u64,
) -> Result<(Play, Option<Exchanged>), Stop>
    requires at { D.tells → (bodies : List (List ℕ)) × IsPlayAt D.Disk disk.old play bodies }
    requires ready { IsReadyElsewhere play.playing.world name.now (kinds_of handlers.now) }
    requires asked { IsDueIn play.playing.world name.now asked.now }
    ensures came { IfOk result (λ p. p.1
        ≡ (heard_exchange (terms name.now now (kinds_of handlers.now)) asked.now
        (heard_of heard.now) play.playing.world).came) }
    ensures session { IfOk result (λ p. p.0.playing
        ≡ written (heard_exchange (terms name.now now (kinds_of handlers.now)) asked.now
        (heard_of heard.now) play.playing.world).records play.playing) }
    ensures safe { D.tells → (bodies : List (List ℕ)) → IsPlayAt D.Disk disk.old play bodies
        → IsCrashSafe D.Disk disk.old disk.new bodies
        (bodies_of (heard_exchange (terms name.now now (kinds_of handlers.now)) asked.now
        (heard_of heard.now) play.playing.world).records)
        play.journal.limit (λ p. IsPlayAt D.Disk disk.new p.0) result }
    ensures limit { IfOk result (λ p. p.0.journal.limit ≡ play.journal.limit) }
    ensures not_journal { IsErrOf result Stop.NotJournal → ⊥ }
    ensures cause { HasDiskCause (D.faults disk.old) (D.faults disk.new) result }
{
    let world = play.playing.world();
    let Planned { records, came } = hear(alloc, world, name, asked, heard, handlers, now)?;
    let play = play.stage_all(alloc, records)?;
    let play = play.commit(disk)?;
    Ok((play, came))
}
