// An exchange with a master that is elsewhere, by what was heard of it.
ghost use Rattle.std.specs.Prelude.{◌≡◌, map, Some, IfOk, IsSome};
ghost use Rattle.rx_value.specs.Named.{named};
ghost use Rattle.rx_handler.specs.Shown.{kinds_of};
ghost use Rattle.rx_record.specs.Shown.{content};
ghost use Rattle.rx_world.specs.Holders.{world_in};
ghost use Rattle.rx_sync.specs.Exchange.{comes_to, lost_by};
ghost use Rattle.rx_sync.specs.Laws.{ComeSoundly, IsDueIn, IsLawfulReplyIn};
ghost use Rattle.rx_sync.specs.Remote.{heard_exchange, once_heard, once_taken, schema_in};
ghost use Rattle.rx_sync.specs.RemoteLaws.{IsReadyElsewhere};
ghost use Rattle.rx_sync.specs.Shown.{heard_of, planned_of};
ghost use Rattle.rx_sync.specs.Taking.{taken};

use crate::exchanging::{Planned, lost_by, no_time, record_list, taken_as};
use crate::fault::TakeFault;
use crate::lookup::{find_fork, find_replication};
use crate::taking::take;
use rx_collection::Holder;
use rx_fork::Asked;
use rx_handler::Handlers;
use rx_reply::Lost;
use rx_schema::Schema;
use rx_wire::{Reply, WireFault};
use rx_world::World;
use std::alloc::{AllocError, Global};

/// What was heard of a master that was asked.
#[derive(Debug, Drop)]
pub enum Heard {
    /// No wire was got.
    NoDial,
    /// The wire failed.
    NoWire,
    /// The master ended, or sent too much, before a line did.
    NoLine,
    /// A line, without its end.
    Line(Vec<u8>),
}

/// The schema of the fork of a replication, by which its requests are written and replies are read.
pub fn fork_schema<'a, H: Holder + Drop>(world: &'a World<H>, name: &str) -> &'a Schema
    requires { IsSome (named (world_in H.held world.now).replications name.now) }
    ensures { schema_in (world_in H.held world.now) name.now ≡ Some result.now }
{
    let replication = find_replication(world, name);
    find_fork(world, replication).schema()
}

/// What is made of what was heard after a request that the fork of a replication has just made.
/// Nothing is changed: the records are to be kept, and applied.
pub fn hear<H: Holder + Drop>(
    alloc: Global,
    world: &World<H>,
    name: &str,
    asked: &Asked,
    heard: &Heard,
    handlers: &Handlers,
    now: u64,
) -> Result<Planned, AllocError>
    requires ready { IsReadyElsewhere (world_in H.held world.now) name.now (kinds_of handlers.now) }
    requires asked { IsDueIn (world_in H.held world.now) name.now asked.now }
    ensures exact { IfOk result (λ planned.
        heard_exchange (record { name = name.now; now = now; kinds = kinds_of handlers.now })
        asked.now (heard_of heard.now) (world_in H.held world.now) ≡ planned_of planned) }
    // The records may come, and leave a sound world.
    ensures next { IfOk result
        (λ planned. ComeSoundly (world_in H.held world.now) (map content planned.records.items)) }
{
    let planned = match heard {
        Heard::NoDial => lose(alloc, Lost::Dial, asked)?,
        Heard::NoWire => lose(alloc, Lost::Wire, asked)?,
        Heard::NoLine => lose(alloc, Lost::Reply, asked)?,
        Heard::Line(line) => {
            hear_line(alloc, world, name, asked, line.as_slice(), handlers, now)?
        }
    };
    Ok(planned)
}

// A line was heard, which is a reply or isn't.
fn hear_line<H: Holder + Drop>(
    alloc: Global,
    world: &World<H>,
    name: &str,
    asked: &Asked,
    line: &[u8],
    handlers: &Handlers,
    now: u64,
) -> Result<Planned, AllocError>
    requires ready { IsReadyElsewhere (world_in H.held world.now) name.now (kinds_of handlers.now) }
    requires asked { IsDueIn (world_in H.held world.now) name.now asked.now }
    ensures { IfOk result (λ planned.
        once_heard (record { name = name.now; now = now; kinds = kinds_of handlers.now }) asked.now
        (world_in H.held world.now) line.now (schema_in (world_in H.held world.now) name.now)
        ≡ planned_of planned) }
{
    match Reply::read(alloc, line, fork_schema(world, name)) {
        Ok(reply) => take_heard(alloc, world, name, asked, &reply, handlers, now),
        Err(WireFault::Memory) => Err(AllocError),
        Err(_) => lose(alloc, Lost::Reply, asked),
    }
}

// The fork takes the reply, or the exchange is lost.
fn take_heard<H: Holder + Drop>(
    alloc: Global,
    world: &World<H>,
    name: &str,
    asked: &Asked,
    reply: &Reply,
    handlers: &Handlers,
    now: u64,
) -> Result<Planned, AllocError>
    requires ready { IsReadyElsewhere (world_in H.held world.now) name.now (kinds_of handlers.now) }
    requires asked { IsDueIn (world_in H.held world.now) name.now asked.now }
    requires reply { IsLawfulReplyIn (world_in H.held world.now) name.now reply.now }
    ensures { IfOk result (λ planned. once_taken asked.now.request.ask reply.now.body
        (taken (world_in H.held world.now) (kinds_of handlers.now) name.now asked.now reply.now now)
        ≡ planned_of planned) }
{
    match take(alloc, world, name, asked, reply, handlers, now) {
        Ok(record) => Ok(Planned {
            records: record_list(alloc, record)?,
            came: Some(taken_as(alloc, &asked.request.ask, &reply.body)?),
        }),
        Err(TakeFault::Foreign(_, _)) => lose(alloc, Lost::Foreign, asked),
        Err(TakeFault::BadReply(_)) => lose(alloc, Lost::BadReply, asked),
        Err(TakeFault::Memory) => Err(AllocError),
        Err(TakeFault::Moved(_, _) | TakeFault::ClockEnd) => Ok(no_time(alloc)),
    }
}

// The exchange is lost.
fn lose(alloc: Global, why: Lost, asked: &Asked) -> Result<Planned, AllocError>
    ensures { IfOk result
        (λ planned. planned_of planned ≡ comes_to (lost_by why asked.now.request.ask)) }
{
    Ok(Planned {
        records: Vec::new(alloc),
        came: Some(lost_by(alloc, why, &asked.request.ask)?),
    })
}
