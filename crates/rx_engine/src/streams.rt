// The lines that open and close a stream, and the one that delivers what it has queued.
ghost use Rattle.std.specs.Prelude.{◌≡◌, Some, IfOk, IsSome, option_map};
ghost use Rattle.rx_value.specs.Due.{DueBy};
ghost use Rattle.rx_value.specs.Named.{named};
ghost use Rattle.rx_session.specs.Doing.{MayDo};
ghost use Rattle.rx_session.specs.Session.{stream_of};
ghost use Rattle.rx_sync.specs.Handling.{local_name};
ghost use Rattle.rx_world.specs.Linked.{IsLinked};
ghost use Rattle.rx_world.specs.Sound.{IsSoundWorld};
ghost use Rattle.rx_engine.specs.Lines.{deliver_line};
ghost use Rattle.rx_engine.specs.Shown.{doing_of, outcome_of, task_of, MayDoTask};
ghost use Rattle.rx_engine.specs.Streams.{replication_at, stream_at, stream_line, unstream_line};
ghost use Rattle.rx_writes.specs.declared.fault.Fault.TheVariants.{Memory};

use crate::outcome::{LineDoing, Outcome, Task};
use rx_record::MasterName;
use rx_reply::{Refusal, Reply};
use rx_script::Delivery;
use rx_session::{Doing, Opening, Session};
use rx_stream::Stream;
use rx_value::RxText;
use rx_world::Replication;
use rx_writes::Fault;
use std::alloc::Global;

/// What the stream of a replication has queued is to be delivered, over such a link.
#[derive(Drop)]
pub(crate) struct Deliver {
    pub name: RxText,
    pub link: Vec<Delivery>,
}

/// Opens the stream of a replication, whose master is of this journal.
pub(crate) fn stream_line<'a>(
    alloc: Global,
    session: &Session,
    name: RxText,
) -> Result<Outcome<'a>, Fault>
    requires sound { IsSoundWorld session.now.world }
    ensures exact { DueBy Memory outcome_of result (stream_line name session.now) }
    ensures may { IfOk result (λ p. MayDo (doing_of p.doing) session.now) }
{
    let replication = find_replication(session, &name)?;
    let Some(master) = local_name(&replication.master) else {
        return Err(Fault::Refused(Refusal::Remote));
    };
    if session.stream(name.as_str()).is_some() {
        return Err(Fault::Refused(Refusal::Exists));
    }
    let master = master.copy(alloc)?;
    Ok(Outcome {
        doing: LineDoing::InSession(Doing::OpenStream(Opening { name, master })),
        reply: Reply::Stream,
    })
}

/// Closes the stream of a replication.
pub(crate) fn unstream_line<'a>(session: &Session, name: RxText) -> Result<Outcome<'a>, Fault>
    ensures exact { DueBy Memory outcome_of result (unstream_line name session.now) }
    ensures may { IfOk result (λ p. MayDo (doing_of p.doing) session.now) }
{
    find_stream(session, &name)?;
    Ok(Outcome {
        doing: LineDoing::InSession(Doing::CloseStream(name)),
        reply: Reply::Unstream,
    })
}

/// The delivery that a line asks for: its stream is open.
pub(crate) fn deliver_line<'a>(
    alloc: Global,
    session: &Session,
    name: RxText,
    link: Option<Vec<Delivery>>,
) -> Result<Task<'a>, Fault>
    ensures exact { DueBy Memory task_of result
        (deliver_line name (option_map (λ l. l.items) link) session.now) }
    ensures may { IfOk result (λ t. MayDoTask t session.now) }
{
    find_stream(session, &name)?;
    let link = match link {
        Some(link) => link,
        None => Vec::new(alloc),
    };
    Ok(Task::Delivers(Deliver { name, link }))
}

// The replication of a name, which is to be held.
fn find_replication<'a>(session: &'a Session, name: &RxText) -> Result<&'a Replication, Fault>
    ensures exact { DueBy Memory (λ r. r.now) result (replication_at name.now session.now) }
    ensures held { IfOk result
        (λ r. named session.now.world.replications name.now ≡ Some r.now) }
    ensures linked { IfOk result
        (λ r. IsLinked session.now.world.collections name.now r.now) }
{
    match session.world().replication(name.as_str()) {
        Some(replication) => Ok(replication),
        None => Err(Fault::Refused(Refusal::NoReplication)),
    }
}

// Its stream, which is to be open.
fn find_stream<'a>(session: &'a Session, name: &RxText) -> Result<&'a Stream, Fault>
    ensures exact { DueBy Memory (λ st. st.now) result (stream_at name.now session.now) }
    ensures open { IfOk result (λ st. IsSome (stream_of name.now session.now)) }
{
    find_replication(session, name)?;
    match session.stream(name.as_str()) {
        Some(stream) => Ok(stream),
        None => Err(Fault::Refused(Refusal::NoStream)),
    }
}

// The name of a master of the same journal.
fn local_name(master: &MasterName) -> Option<&RxText>
    ensures { option_map (λ t. t.now) result ≡ local_name master.now }
{
    match master {
        MasterName::Local(name) => Some(name),
        MasterName::Port(_) => None,
    }
}
