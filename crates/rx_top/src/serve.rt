// The command `serve`: a collection is offered as a master, to one connection after another.
ghost use Rattle.std.specs.Prelude.{◌≡◌, ◌≤◌, ◌<◌, ◌^◌, ◌++◌, ⊤, ℕ, OnOk, OnErr, IsErrOf};
ghost use Rattle.rx_host.specs.Causes.{AreNoLess, failed_calls};
ghost use Rattle.rx_host.specs.Keeping.{Keeps};
ghost use Rattle.rx_host.specs.Moments.{GivesMoments};
ghost use Rattle.rx_host.specs.Outside.{told_by};
ghost use Rattle.rx_host.specs.Records.{bodies_of};
ghost use Rattle.rx_host.specs.declared.connections.ServeFault.TheVariants as fault;
ghost use Rattle.rx_journal.specs.Reading.{IsUntouched};
ghost use Rattle.rx_outside.specs.Failed.{Rises};
ghost use Rattle.rx_outside.specs.Sink.{WritesFront};
ghost use Rattle.rx_outside.specs.declared.stop.Stop.TheVariants as stop;
ghost use Rattle.rx_serve.specs.Answered.{Commits};
ghost use Rattle.rx_store.specs.Holds.{IsIllegalFile, IsJournalOfSome};
ghost use Rattle.rx_store.specs.Safe.{IsFull};
ghost use Rattle.rx_world.specs.World.{World};
ghost use Rattle.rx_top.specs.Serve.{IsOpened, ServesTo, served_status, served_words};
ghost use Rattle.rx_top.specs.ServesCollection.{HasServeCause, ServesCollection};
ghost use Rattle.rx_top.specs.Start.{FromStart, StaysLegal};

use crate::stop::{stop_status, write_stop};
use rx_disk::Disk;
use rx_host::{MasterEngine, ServeFault, serve_connections};
use rx_outside::{Clock, Failed, Listen, Sink, write_all};
use std::alloc::Global;

/// What is served: the collection of a name, at a port, to so many connections.
#[derive(Clone, Copy)]
pub(crate) struct Offer<'a> {
    pub(crate) collection: &'a str,
    pub(crate) port: u16,
    pub(crate) connections: u32,
}

/// Why serving ends before its last connection did.
#[derive(Debug, Drop)]
pub(crate) enum Halt {
    /// The journal doesn't hold the collection, or it is a fork.
    NoCollection,
    Fault(ServeFault),
}

/// Serves a collection of the journal that the disk is, and answers the status.
pub(crate) fn serve<K: Sink, D: Disk, L: Listen, C: Clock>(
    alloc: Global,
    limit: u64,
    offer: &Offer<'_>,
    out: &mut K,
    disk: &mut D,
    door: &mut L,
    clock: &mut C,
) -> u8
    requires low { 9 ≤ limit }
    requires high { limit < 2 ^ 32 }
    ensures serves { ServesCollection K.Sink D.Disk L.Listen L.W.tells C.Clock
        offer.now.collection.now offer.now.port
        offer.now.connections limit result out.old out.new disk.old disk.new door.old door.new
        clock.old clock.new }
{
    let ended = open_and_serve(alloc, limit, offer, out, disk, door, clock);
    // The first cause decides the status, so a failure here has none of its own.
    let _ = write_halt(out, &ended);
    status_of(&ended)
}

// Opens the journal, and serves its collection.
fn open_and_serve<K: Sink, D: Disk, L: Listen, C: Clock>(
    alloc: Global,
    limit: u64,
    offer: &Offer<'_>,
    out: &mut K,
    disk: &mut D,
    door: &mut L,
    clock: &mut C,
) -> Result<(), Halt>
    requires low { 9 ≤ limit }
    requires high { limit < 2 ^ 32 }
    ensures serves { FromStart D.Disk disk.old (λ bodies w.
        ServesTo result L.W.tells K.tells offer.now.collection.now offer.now.port
        offer.now.connections w
        (told_by L.Listen K.Sink door.old out.old)
        (told_by L.Listen K.Sink door.new out.new)
        (λ moments. C.tells → GivesMoments (C.given clock.old) (C.given clock.new) moments)
        (λ why sure more.
        Keeps D.Disk disk.old disk.new bodies offer.now.collection.now limit sure more why)) }
    ensures legal { FromStart D.Disk disk.old (λ bodies w.
        StaysLegal D.Disk disk.old disk.new bodies) }
    ensures over_any_disk { (w : World)
        × ServesTo result L.W.tells K.tells offer.now.collection.now offer.now.port
        offer.now.connections w
        (told_by L.Listen K.Sink door.old out.old)
        (told_by L.Listen K.Sink door.new out.new)
        (λ moments. C.tells → GivesMoments (C.given clock.old) (C.given clock.new) moments)
        (λ why sure more. ⊤) }
    ensures illegal { D.tells → IsIllegalFile (D.content disk.old)
        → IsUntouched D.Disk disk.old disk.new }
    ensures stood { D.tells → IsOpened result → IsJournalOfSome (D.content disk.old) }
    ensures full { (would most : ℕ)
        → IsErrOf result (Halt.Fault (fault.Stopped (stop.Full would most)))
        → FromStart D.Disk disk.old (λ bodies w. (sure : Commits) × (more : Commits)
        × (most ≡ limit)
        × IsFull D.Disk disk.new (bodies ++ bodies_of offer.now.collection.now sure)
        (bodies_of offer.now.collection.now more) would limit) }
    ensures cause { HasServeCause K.Sink D.Disk L.Listen out.old out.new disk.old disk.new
        door.old door.new clock.old clock.new result }
    ensures counts { AreNoLess
        (failed_calls L.Listen D.Disk K.Sink door.old disk.old out.old)
        (failed_calls L.Listen D.Disk K.Sink door.new disk.new out.new) }
{
    match MasterEngine::open(alloc, disk, limit, offer.collection) {
        Ok(Some(engine)) => {
            let most = offer.connections as u64;
            let served = serve_connections(alloc, engine, offer.port, most, door, disk, clock, out);
            match served {
                Ok(_) => Ok(()),
                Err(fault) => Err(Halt::Fault(fault)),
            }
        }
        Ok(None) => Err(Halt::NoCollection),
        Err(stop) => Err(Halt::Fault(ServeFault::Stopped(stop))),
    }
}

fn status_of(ended: &Result<(), Halt>) -> u8
    ensures { result ≡ served_status ended.now }
{
    match ended {
        Ok(()) => 0,
        Err(Halt::Fault(ServeFault::Stopped(stop))) => stop_status(stop),
        Err(Halt::Fault(ServeFault::Door)) => 4,
        Err(Halt::Fault(ServeFault::Sink)) => 5,
        Err(Halt::NoCollection) => 10,
    }
}

// Writes the last line, or the front of it that the sink takes.
fn write_halt<K: Sink>(out: &mut K, ended: &Result<(), Halt>) -> Result<(), Failed>
    ensures ok { K.tells
        → OnOk result (K.written out.new ≡ K.written out.old ++ served_words ended.now) }
    ensures err { K.tells → OnErr result
        (WritesFront (K.written out.old) (K.written out.new) (served_words ended.now)) }
    ensures count { K.faults out.old ≤ K.faults out.new }
    ensures failed { OnErr result (Rises (K.faults out.old) (K.faults out.new)) }
{
    match ended {
        Ok(()) => Ok(()),
        Err(Halt::Fault(ServeFault::Sink)) => Ok(()),
        Err(Halt::Fault(ServeFault::Stopped(stop))) => write_stop(out, stop),
        Err(Halt::Fault(ServeFault::Door)) => write_all(out, b"{\"stop\":\"read\"}\n"),
        Err(Halt::NoCollection) => write_all(out, b"{\"stop\":\"no_collection\"}\n"),
    }
}
