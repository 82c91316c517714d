// The line that makes a turn.
ghost use Rattle.std.specs.Prelude.{◌≡◌, ◌≤◌, option_map, IfOk};
ghost use Rattle.rx_value.specs.Due.{DueBy};
ghost use Rattle.rx_handler.specs.Shown.{kinds_of};
ghost use Rattle.rx_session.specs.Session.{Session as Definition};
ghost use Rattle.rx_engine.specs.Lines.{turn_line, turn_to};
ghost use Rattle.rx_engine.specs.Shown.{task_of, MayDoTask};
ghost use Rattle.rx_engine.specs.Turning.{is_handled, turned_at};
ghost use Rattle.rx_writes.specs.declared.fault.Fault.TheVariants.{Memory};

use crate::outcome::Task;
use crate::remote::Call;
use crate::replicate::has_handler;
use crate::turning::Turn;
use rx_collection::Holder;
use rx_handler::Handlers;
use rx_record::MasterName;
use rx_reply::Refusal;
use rx_script::{Happening, LineFault};
use rx_session::Session;
use rx_value::RxText;
use rx_world::Replication;
use rx_writes::Fault;
use std::alloc::Global;

/// The turn that a line asks for: its replication is there, and so is its handler.
pub(crate) fn turn_line<'a>(
    alloc: Global,
    session: &Session,
    handlers: &Handlers,
    name: RxText,
    batch: u32,
    budget: u32,
    link: Option<Vec<Happening>>,
) -> Result<Task<'a>, Fault>
    requires batch { 1 ≤ batch }
    requires budget { 1 ≤ budget }
    ensures exact { DueBy Memory task_of result (turn_line (kinds_of handlers.now) name batch budget
        (option_map (λ l. l.items) link) session.now) }
    ensures may { IfOk result (λ t. MayDoTask t session.now) }
{
    let replication = find_turned(session, handlers, &name)?;
    turn_to(alloc, &replication.master, name, batch, budget, link)
}

// The turn to a master. Nothing may be said of the link to one elsewhere.
fn turn_to<'a>(
    alloc: Global,
    master: &MasterName,
    name: RxText,
    batch: u32,
    budget: u32,
    link: Option<Vec<Happening>>,
) -> Result<Task<'a>, Fault>
    requires batch { 1 ≤ batch }
    requires budget { 1 ≤ budget }
    ensures may { (s : Definition) → IfOk result (λ t. MayDoTask t s) }
    ensures exact { DueBy Memory task_of result
        (turn_to master.now name batch budget (option_map (λ l. l.items) link)) }
{
    match master {
        MasterName::Local(_) => {
            let link = match link {
                Some(link) => link,
                None => Vec::new(alloc),
            };
            Ok(Task::Turns(Turn {
                name,
                batch,
                budget,
                link,
            }))
        }
        MasterName::Port(port) => {
            if link.is_some() {
                return Err(Fault::Refused(Refusal::Line(LineFault::Unexpected(RxText::new(
                    alloc, "link",
                )?))));
            }
            Ok(Task::Calls(Call {
                name,
                port: *port,
                batch,
                budget,
            }))
        }
    }
}

// The replication of a name, which is to be held, as its handler is.
fn find_turned<'a>(
    session: &'a Session,
    handlers: &Handlers,
    name: &RxText,
) -> Result<&'a Replication, Fault>
    ensures exact { DueBy Memory (λ r. r.now) result
        (turned_at (kinds_of handlers.now) name.now session.now) }
{
    let Some(replication) = session.world().replication(name.as_str()) else {
        return Err(Fault::Refused(Refusal::NoReplication));
    };
    if !is_handled(session, handlers, replication) {
        return Err(Fault::Refused(Refusal::NoHandler));
    }
    Ok(replication)
}

// Whether its handler is there, and takes its field.
fn is_handled(session: &Session, handlers: &Handlers, replication: &Replication) -> bool
    ensures { result ≡ is_handled (kinds_of handlers.now) session.now replication.now }
{
    match session.holder(replication.fork.as_str()) {
        Some(fork) => has_handler(
            handlers,
            fork.collection().schema(),
            &replication.handler,
            &replication.field,
        ),
        None => false,
    }
}
