// One exchange of a turn, by what the link does to it.
ghost use Rattle.std.specs.Prelude.{◌≡◌, map, IfOk, option_map};
ghost use Rattle.rx_handler.specs.Shown.{kinds_of};
ghost use Rattle.rx_record.specs.Shown.{content};
ghost use Rattle.rx_world.specs.Holders.{world_in};
ghost use Rattle.rx_sync.specs.Exchange.{behind, exchange, handled_and_taken, if_taken, lost_by, no_time, once_handled, reply_lost, taken_as, when_taken};
ghost use Rattle.rx_sync.specs.Handling.{handled_for};
ghost use Rattle.rx_sync.specs.Laws.{ComeSoundly, HasMasterHere, IsAskedIn, IsDueIn, IsLawfulIn, IsLawfulReplyIn, IsReady, PullLeavesNone};
ghost use Rattle.rx_sync.specs.Shown.{handled_of, planned_of, record_in};
ghost use Rattle.rx_sync.specs.Taking.{taken};

use crate::copies::{copy_of_place, row_keys, state_keys};
use crate::fault::TakeFault;
use crate::handling::{Handled, handle_for};
use crate::taking::take;
use rx_collection::Holder;
use rx_fork::Asked;
use rx_handler::Handlers;
use rx_record::Record;
use rx_reply::{Exchanged, Lost};
use rx_script::Happening;
use rx_wire::{AskKind, Body, Reply, Request};
use rx_world::{StepFault, World};
use std::alloc::{AllocError, Global};

/// What an exchange comes to.
#[derive(Debug, Drop)]
pub struct Planned {
    /// The master's record and the fork's, in the order in which they are to be written.
    pub records: Vec<Record>,
    /// Nothing, where a commit found no write time.
    pub came: Option<Exchanged>,
}

/// What the link makes of a request that the fork of a replication has just made. Nothing is
/// changed: the records are to be kept, and applied one after another.
pub fn exchange<H: Holder + Drop>(
    alloc: Global,
    world: &World<H>,
    name: &str,
    asked: &Asked,
    happening: Happening,
    handlers: &Handlers,
    now: u64,
) -> Result<Planned, AllocError>
    requires ready { IsReady (world_in H.held world.now) name.now (kinds_of handlers.now) }
    requires asked { IsAskedIn (world_in H.held world.now) name.now asked.now }
    ensures exact { IfOk result (λ planned.
        exchange (record { name = name.now; now = now; kinds = kinds_of handlers.now }) asked.now
        happening (world_in H.held world.now) ≡ planned_of planned) }
    // The records may come one after another, and each leaves a sound world.
    ensures next { IfOk result
        (λ planned. ComeSoundly (world_in H.held world.now) (map content planned.records.items)) }
    // After a pull the next request is one too.
    ensures pulled { IfOk result (λ planned. PullLeavesNone (world_in H.held world.now) name.now
        (map content planned.records.items) planned.came) }
{
    let planned = match happening {
        Happening::LoseRequest => Planned {
            records: Vec::new(alloc),
            came: Some(lost_by(alloc, Lost::LoseRequest, &asked.request.ask)?),
        },
        Happening::LoseReply => reply_lost(alloc, world, name, asked, Lost::LoseReply, now)?,
        Happening::Stale => reply_lost(alloc, world, name, asked, Lost::Stale, now)?,
        Happening::Ok | Happening::Late(_) => {
            reply_taken(alloc, world, name, asked, handlers, now)?
        }
        // A second handling writes nothing.
        Happening::Twice => reply_taken(alloc, world, name, asked, handlers, now)?,
    };
    Ok(planned)
}

// The request is handled, and the reply is lost.
fn reply_lost<H: Holder + Drop>(
    alloc: Global,
    world: &World<H>,
    name: &str,
    asked: &Asked,
    why: Lost,
    now: u64,
) -> Result<Planned, AllocError>
    requires master { HasMasterHere (world_in H.held world.now) name.now }
    requires lawful { IsLawfulIn (world_in H.held world.now) name.now asked.now.request }
    ensures exact { IfOk result (λ planned.
        once_handled (reply_lost why asked.now) (world_in H.held world.now)
        (handled_for (world_in H.held world.now) name.now asked.now.request now)
        ≡ planned_of planned) }
{
    let Some(handled) = handled_for(alloc, world, name, &asked.request, now)? else {
        return Ok(no_time(alloc));
    };
    Ok(Planned {
        records: record_list(alloc, handled.written)?,
        came: Some(lost_by(alloc, why, &asked.request.ask)?),
    })
}

// The request is handled, and the reply is taken.
fn reply_taken<H: Holder + Drop>(
    alloc: Global,
    world: &World<H>,
    name: &str,
    asked: &Asked,
    handlers: &Handlers,
    now: u64,
) -> Result<Planned, AllocError>
    requires ready { IsReady (world_in H.held world.now) name.now (kinds_of handlers.now) }
    requires asked { IsAskedIn (world_in H.held world.now) name.now asked.now }
    ensures exact { IfOk result (λ planned. handled_and_taken
        (record { name = name.now; now = now; kinds = kinds_of handlers.now }) asked.now
        (world_in H.held world.now) ≡ planned_of planned) }
{
    let Some(Handled { written, reply }) = handled_for(alloc, world, name, &asked.request, now)?
    else {
        return Ok(no_time(alloc));
    };
    let taken = taken(alloc, world, name, asked, &reply, handlers, now)?;
    when_taken(alloc, written, taken, &asked.request.ask, &reply.body)
}

// The master's record, and those of a reply that is taken.
fn when_taken(
    alloc: Global,
    written: Option<Record>,
    taken: Option<Vec<Record>>,
    ask: &AskKind,
    body: &Body,
) -> Result<Planned, AllocError>
    ensures { IfOk result (λ planned. planned_of planned ≡ behind (record_in written)
        (when_taken ask.now body.now (option_map (λ rs. map content rs.items) taken))) }
{
    let mut records = record_list(alloc, written)?;
    let Some(mut more) = taken else {
        return Ok(Planned {
            records,
            came: None,
        });
    };
    records.append(&mut more)?;
    Ok(Planned {
        records,
        came: Some(taken_as(alloc, ask, body)?),
    })
}

// The records of a reply that is taken, none where no write time is left.
fn taken<H: Holder + Drop>(
    alloc: Global,
    world: &World<H>,
    name: &str,
    asked: &Asked,
    reply: &Reply,
    handlers: &Handlers,
    now: u64,
) -> Result<Option<Vec<Record>>, AllocError>
    requires ready { IsReady (world_in H.held world.now) name.now (kinds_of handlers.now) }
    requires asked { IsDueIn (world_in H.held world.now) name.now asked.now }
    requires reply { IsLawfulReplyIn (world_in H.held world.now) name.now reply.now }
    ensures { IfOk result (λ records. option_map (λ rs. map content rs.items) records
        ≡ if_taken (taken (world_in H.held world.now) (kinds_of handlers.now) name.now asked.now
        reply.now now)) }
{
    match take(alloc, world, name, asked, reply, handlers, now) {
        Ok(record) => Ok(Some(record_list(alloc, record)?)),
        Err(TakeFault::Memory) => Err(AllocError),
        Err(_) => Ok(None),
    }
}

// What the master of a replication does with a request; nothing where no write time is left.
fn handled_for<H: Holder + Drop>(
    alloc: Global,
    world: &World<H>,
    name: &str,
    request: &Request,
    now: u64,
) -> Result<Option<Handled>, AllocError>
    requires master { HasMasterHere (world_in H.held world.now) name.now }
    requires lawful { IsLawfulIn (world_in H.held world.now) name.now request.now }
    ensures { IfOk result (λ handled. option_map handled_of handled
        ≡ handled_for (world_in H.held world.now) name.now request.now now) }
{
    match handle_for(alloc, world, name, request, now) {
        Ok(handled) => Ok(Some(handled)),
        Err(StepFault::ClockEnd) => Ok(None),
        Err(StepFault::Memory) => Err(AllocError),
    }
}

pub(crate) fn no_time(alloc: Global) -> Planned
    ensures { planned_of result ≡ no_time }
{
    Planned {
        records: Vec::new(alloc),
        came: None,
    }
}

// The record that there is, as a list.
pub(crate) fn record_list(alloc: Global, entry: Option<Record>) -> Result<Vec<Record>, AllocError>
    ensures { IfOk result (λ records. map content records.items ≡ record_in entry) }
{
    let mut records = Vec::new(alloc);
    if let Some(entry) = entry {
        records.push(entry)?;
    }
    Ok(records)
}

/// A request that found no reply which was taken.
pub fn lost_by(alloc: Global, why: Lost, ask: &AskKind) -> Result<Exchanged, AllocError>
    ensures { IfOk result (λ exchanged. exchanged ≡ lost_by why ask.now) }
{
    match ask {
        AskKind::Push(rows) => Ok(Exchanged::PushLost {
            rows: row_keys(alloc, rows.as_slice())?,
            why,
        }),
        AskKind::Pull { .. } => Ok(Exchanged::PullLost { why }),
    }
}

// A request and the reply to it that was taken.
pub(crate) fn taken_as(alloc: Global, ask: &AskKind, body: &Body) -> Result<Exchanged, AllocError>
    ensures { IfOk result (λ exchanged. exchanged ≡ taken_as ask.now body.now) }
{
    match (ask, body) {
        (AskKind::Push(rows), Body::Conflicts(states) | Body::Docs { states, .. }) => {
            Ok(Exchanged::Pushed {
                rows: row_keys(alloc, rows.as_slice())?,
                conflicts: state_keys(alloc, states.as_slice())?,
            })
        }
        (AskKind::Pull { place, .. }, Body::Conflicts(states)) => Ok(Exchanged::Pulled {
            rows: state_keys(alloc, states.as_slice())?,
            place: copy_of_place(alloc, place.as_ref())?,
        }),
        (AskKind::Pull { .. }, Body::Docs { states, place }) => Ok(Exchanged::Pulled {
            rows: state_keys(alloc, states.as_slice())?,
            place: copy_of_place(alloc, place.as_ref())?,
        }),
    }
}
