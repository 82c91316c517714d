// Connections to a master, one after another.
ghost use Rattle.std.specs.Prelude.{◌≡◌, ◌⊎◌, ◌≤◌, ◌++◌, ◌∷◌, ℕ, List, [], length, Option, IfOk, IfErr, OnOk, OnErr, IsErrOf};
ghost use Rattle.rx_host.specs.Causes.{AreNoLess, HasHaltCause, failed_calls};
ghost use Rattle.rx_host.specs.Connections.{ServedConnection, connection_line};
ghost use Rattle.rx_host.specs.Engine.{IsAt, IsStillOf, collection_of};
ghost use Rattle.rx_host.specs.Moments.{GivesMoments};
ghost use Rattle.rx_host.specs.Outside.{HaltsAfter, HaltsBy, HasGivenUp, HaveServed, IsNewWire, IsStopBy, OnlyGives, opened_at, told_by};
ghost use Rattle.rx_host.specs.Serving.{HasKept, HasStopped};
ghost use Rattle.rx_outside.specs.Failed.{Rises, one_more};
ghost use Rattle.rx_outside.specs.Sink.{WritesFront};
ghost use Rattle.rx_outside.specs.declared.stop.Stop.{Stop as Stopping};
ghost use Rattle.rx_outside.specs.declared.stop.Stop.TheVariants as Stop;
ghost use Rattle.rx_serve.specs.Answered.{Commits};

use crate::engine::MasterEngine;
use crate::lines::connection_line;
use rx_disk::Disk;
use rx_outside::{Clock, Failed, Listen, Sink, Stop, write_all};
use rx_serve::Ended;
use std::alloc::Global;
use thiserror::Error;

/// How many calls for the next connection may fail, one after another. Then no more are served.
pub const ACCEPT_TRIES: u64 = 64;

/// Why no more connections are served.
#[derive(Debug, Drop, Error)]
pub enum ServeFault {
    /// The work of the master stopped, or memory is wanting.
    #[error("the work stopped")]
    Stopped(Stop),
    #[error("the door failed")]
    Door,
    #[error("the sink failed")]
    Sink,
}

/// Opens the door on a port and serves so many connections, one after another, each to its end.
/// Each wire is handed back, and then a line is written that tells how its connection ended. The
/// master is spent on a fault.
pub fn serve_connections<L: Listen, D: Disk, C: Clock, K: Sink>(
    alloc: Global,
    first: MasterEngine,
    port: u16,
    connections: u64,
    door: &mut L,
    disk: &mut D,
    clock: &mut C,
    out: &mut K,
) -> Result<MasterEngine, ServeFault>
    requires at { D.tells → (bodies : List (List ℕ)) × IsAt D.Disk disk.old first bodies }

    // The door was opened once, at the port, and gave so many wires alone. So many connections
    // were served and told of, and the disk keeps the records of their commits.
    ensures served { IfOk result (λ m. (conns : List ServedConnection)
        × (length conns ≡ connections)
        × HaveServed L.W.tells K.tells 1 (collection_of first) (collection_of m) conns
        (opened_at port (told_by L.Listen K.Sink door.old out.old))
        (told_by L.Listen K.Sink door.new out.new)
        (λ moments. C.tells → GivesMoments (C.given clock.old) (C.given clock.new) moments)
        (HasKept D.Disk disk.old disk.new first m)) }

    // Some were, and then it halted.
    ensures halted { IfErr result (λ fault.
        HaltsAfter fault port connections L.W.tells K.tells 1 (collection_of first)
        (told_by L.Listen K.Sink door.old out.old)
        (told_by L.Listen K.Sink door.new out.new)
        (λ moments. C.tells → GivesMoments (C.given clock.old) (C.given clock.new) moments)
        (HasStopped D.Disk disk.old disk.new first)) }

    // Whatever the wires gave, the disk has the records of some commits.
    ensures kept { IfOk result (λ m. (commits : Commits)
        × HasKept D.Disk disk.old disk.new first m commits) }
    ensures left { IfErr result (λ fault. (sure : Commits) × (more : Commits)
        × (stop : Option Stopping) × IsStopBy fault stop
        × HasStopped D.Disk disk.old disk.new first stop sure more) }

    ensures same { IfOk result (IsStillOf first) }
    // What failed shows in its count.
    ensures cause { IfErr result (λ fault. HasHaltCause fault
        (failed_calls L.Listen D.Disk K.Sink door.old disk.old out.old)
        (failed_calls L.Listen D.Disk K.Sink door.new disk.new out.new)) }
    // Once a line was written, a record kept or the clock asked, the door is given up only where so
    // many of its calls failed.
    ensures given_up { IsErrOf result ServeFault.Door
        → ((out.new ≡ out.old) × (disk.new ≡ disk.old) × (clock.new ≡ clock.old))
        ⊎ HasGivenUp (L.faults door.old) (L.faults door.new) }
    ensures counts { AreNoLess
        (failed_calls L.Listen D.Disk K.Sink door.old disk.old out.old)
        (failed_calls L.Listen D.Disk K.Sink door.new disk.new out.new) }
{
    let Ok(()) = door.open(port) else {
        return Err(ServeFault::Door);
    };
    let mut engine = first;
    'connections: for i in 0..connections {
        engine = match serve_next(alloc, engine, i + 1, door, disk, clock, out) {
            Ok(engine) => engine,
            Err(fault) => return Err(fault),
        };
    }
    Ok(engine)
}

// Serves the connection of that number, and tells of it once its wire is handed back.
fn serve_next<L: Listen, D: Disk, C: Clock, K: Sink>(
    alloc: Global,
    engine: MasterEngine,
    number: u64,
    door: &mut L,
    disk: &mut D,
    clock: &mut C,
    out: &mut K,
) -> Result<MasterEngine, ServeFault>
    requires listens { L.is_open door.old }
    requires at { D.tells → (bodies : List (List ℕ)) × IsAt D.Disk disk.old engine bodies }
    ensures served { IfOk result (λ m. (s : ServedConnection)
        × HaveServed L.W.tells K.tells number (collection_of engine) (collection_of m) (s ∷ [])
        (told_by L.Listen K.Sink door.old out.old)
        (told_by L.Listen K.Sink door.new out.new)
        (λ moments. C.tells → GivesMoments (C.given clock.old) (C.given clock.new) moments)
        (HasKept D.Disk disk.old disk.new engine m)) }
    ensures halted { IfErr result (λ fault.
        HaltsBy fault L.W.tells K.tells number (collection_of engine)
        (told_by L.Listen K.Sink door.old out.old)
        (told_by L.Listen K.Sink door.new out.new)
        (λ moments. C.tells → GivesMoments (C.given clock.old) (C.given clock.new) moments)
        (HasStopped D.Disk disk.old disk.new engine)) }
    ensures kept { IfOk result (λ m. (commits : Commits)
        × HasKept D.Disk disk.old disk.new engine m commits) }
    ensures left { IfErr result (λ fault. (sure : Commits) × (more : Commits)
        × (stop : Option Stopping) × IsStopBy fault stop
        × HasStopped D.Disk disk.old disk.new engine stop sure more) }
    ensures stays_open { L.is_open door.new }
    ensures same { IfOk result (IsStillOf engine) }
    // What failed shows in its count.
    ensures cause { IfErr result (λ fault. HasHaltCause fault
        (failed_calls L.Listen D.Disk K.Sink door.old disk.old out.old)
        (failed_calls L.Listen D.Disk K.Sink door.new disk.new out.new)) }
    ensures given_up { IsErrOf result ServeFault.Door
        → HasGivenUp (L.faults door.old) (L.faults door.new) }
    ensures counts { AreNoLess
        (failed_calls L.Listen D.Disk K.Sink door.old disk.old out.old)
        (failed_calls L.Listen D.Disk K.Sink door.new disk.new out.new) }
{
    let Ok(mut wire) = next_wire(door) else {
        return Err(ServeFault::Door);
    };
    let served = engine.serve(alloc, &mut wire, disk, clock);
    let Ok(()) = door.close(wire) else {
        return Err(ServeFault::Stopped(Stop::Memory));
    };
    match served {
        Ok((engine, ended)) => match write_line(alloc, number, &ended, out) {
            Ok(()) => Ok(engine),
            Err(fault) => Err(fault),
        },
        Err(stop) => Err(ServeFault::Stopped(stop)),
    }
}

// The wire of the next one that dialled. A call that failed is made again.
fn next_wire<L: Listen>(door: &mut L) -> Result<L::W, Failed>
    requires listens { L.is_open door.old }
    ensures new_wire { IfOk result (IsNewWire L.W.Wire) }
    ensures stays_open { L.is_open door.new }
    ensures only_gives { OnlyGives L.Listen door.old door.new }
    ensures gives { L.W.tells →
        OnOk result (L.accepted door.new ≡ one_more (L.accepted door.old)) }
    ensures gives_none { OnErr result (L.accepted door.new ≡ L.accepted door.old) }
    ensures count { L.faults door.old ≤ L.faults door.new }
    ensures failed { OnErr result (Rises (L.faults door.old) (L.faults door.new)) }
    ensures given_up { OnErr result (HasGivenUp (L.faults door.old) (L.faults door.new)) }
{
    'tries: for _ in 0..ACCEPT_TRIES {
        if let Ok(wire) = door.accept() {
            return Ok(wire);
        }
    }
    Err(Failed)
}

// Writes the line of a connection.
fn write_line<K: Sink>(
    alloc: Global,
    number: u64,
    ended: &Ended,
    out: &mut K,
) -> Result<(), ServeFault>
    ensures ok { K.tells → OnOk result
        (K.written out.new ≡ K.written out.old ++ connection_line number ended.now) }
    ensures front { K.tells → IsErrOf result ServeFault.Sink
        → WritesFront (K.written out.old) (K.written out.new) (connection_line number ended.now) }
    ensures none { (why : Stopping) → IsErrOf result (ServeFault.Stopped why)
        → (why ≡ Stop.Memory) × (out.new ≡ out.old) }
    ensures no_door { IsErrOf result ServeFault.Door → ⊥ }
    ensures failed { IsErrOf result ServeFault.Sink → Rises (K.faults out.old) (K.faults out.new) }
    ensures count { K.faults out.old ≤ K.faults out.new }
{
    let Ok(line) = connection_line(alloc, number, ended) else {
        return Err(ServeFault::Stopped(Stop::Memory));
    };
    match write_all(out, line.as_bytes()) {
        Ok(()) => Ok(()),
        Err(_) => Err(ServeFault::Sink),
    }
}
