// The line that makes a collection the fork of a master.
ghost use Rattle.std.specs.Prelude.{◌≡◌, true, option_map, IfOk};
ghost use Rattle.rx_value.specs.Due.{DueBy};
ghost use Rattle.rx_value.specs.Name.{is_name};
ghost use Rattle.rx_handler.specs.Shown.{kinds_of};
ghost use Rattle.rx_record.specs.Content.{replication};
ghost use Rattle.rx_record.specs.Shown.{content};
ghost use Rattle.rx_script.specs.Target.{IsTarget};
ghost use Rattle.rx_session.specs.Doing.{MayDo};
ghost use Rattle.rx_engine.specs.Replicate.{has_handler, has_schema, master_at, master_of, replicate_line, takes_field, HasPort};
ghost use Rattle.rx_engine.specs.Shown.{doing_of, outcome_of};
ghost use Rattle.rx_writes.specs.declared.fault.Fault.TheVariants.{Memory};

use crate::lookup::find_collection;
use crate::outcome::{LineDoing, Outcome};
use rx_collection::Collection;
use rx_handler::{HandlerKind, Handlers};
use rx_record::{MasterName, Record};
use rx_reply::{Refusal, Reply};
use rx_schema::Schema;
use rx_script::Target;
use rx_session::{Doing, Session};
use rx_value::{Kind, RxText};
use rx_world::MAX_REPLICATIONS;
use rx_writes::Fault;
use std::alloc::Global;

/// A replication as a line asks for it.
#[derive(Drop)]
pub(crate) struct Wanted {
    pub(crate) name: RxText,
    pub(crate) fork: RxText,
    pub(crate) master: MasterName,
    pub(crate) handler: RxText,
    pub(crate) field: Option<RxText>,
}

/// A master as a record has it.
pub(crate) fn master_of(target: Target) -> MasterName
    ensures exact { result ≡ master_of target }
    ensures port { IsTarget target → HasPort result }
{
    match target {
        Target::Local(name) => MasterName::Local(name),
        Target::Port(port) => MasterName::Port(port),
    }
}

/// A replication that begins: its name is free, its fork may follow its master, and its handler is
/// there.
pub(crate) fn replicate_line<'a>(
    alloc: Global,
    session: &'a Session,
    handlers: &Handlers,
    wanted: Wanted,
) -> Result<Outcome<'a>, Fault>
    requires name { is_name wanted.name ≡ true }
    requires port { HasPort wanted.master }
    ensures exact { DueBy Memory outcome_of result
        (replicate_line (kinds_of handlers.now) wanted.name wanted.fork wanted.master
        wanted.handler wanted.field session.now) }
    ensures may { IfOk result (λ p. MayDo (doing_of p.doing) session.now) }
{
    let world = session.world();
    if world.replication(wanted.name.as_str()).is_some() {
        return Err(Fault::Refused(Refusal::Exists));
    }
    let fork = find_collection(alloc, session, &wanted.fork)?;
    let master = find_master(alloc, session, &wanted.master)?;
    if !has_handler(handlers, fork.schema(), &wanted.handler, &wanted.field) {
        return Err(Fault::Refused(Refusal::NoHandler));
    }
    if !world.may_follow(wanted.fork.as_str(), &wanted.master) {
        return Err(Fault::Refused(Refusal::Chain));
    }
    if !has_schema(fork, master) {
        return Err(Fault::Refused(Refusal::SchemaDiffers));
    }
    if world.replications() >= MAX_REPLICATIONS {
        return Err(Fault::Refused(Refusal::TooMany));
    }
    Ok(Outcome {
        doing: LineDoing::InSession(Doing::Write(record_of(wanted))),
        reply: Reply::Replicate,
    })
}

fn record_of(wanted: Wanted) -> Record
    ensures { content result
        ≡ replication wanted.name wanted.fork wanted.master wanted.handler wanted.field }
{
    let Wanted {
        name,
        fork,
        master,
        handler,
        field,
    } = wanted;
    Record::Replication {
        name,
        fork,
        master,
        handler,
        field,
    }
}

// The master, where it is named; it is to be held then.
fn find_master<'a>(
    alloc: Global,
    session: &'a Session,
    master: &MasterName,
) -> Result<Option<&'a Collection>, Fault>
    ensures exact { DueBy Memory (option_map (λ c. c.now)) result
        (master_at master.now session.now) }
{
    match master {
        MasterName::Local(name) => Ok(Some(find_collection(alloc, session, name)?)),
        MasterName::Port(_) => Ok(None),
    }
}

fn has_schema(fork: &Collection, master: Option<&Collection>) -> bool
    ensures { result ≡ has_schema fork.now (option_map (λ c. c.now) master.entry) }
{
    match master {
        Some(master) => master.schema().canonical() == fork.schema().canonical(),
        None => true,
    }
}

/// Whether there is a handler of that name, which takes the field.
pub(crate) fn has_handler(
    handlers: &Handlers,
    schema: &Schema,
    handler: &RxText,
    field: &Option<RxText>,
) -> bool
    ensures { result ≡ has_handler (kinds_of handlers.now) schema.now handler.now field.now }
{
    match handlers.find(handler.as_str()) {
        Some(handler) => takes_field(schema, field, handler.kind()),
        None => false,
    }
}

// Whether a handler of that kind takes the field: `Greater` goes by a property of whole numbers.
fn takes_field(schema: &Schema, field: &Option<RxText>, kind: HandlerKind) -> bool
    ensures { result ≡ takes_field schema.now field.now kind }
{
    match (kind, field) {
        (HandlerKind::Greater, Some(field)) => {
            matches!(schema.kinds().kind(field.as_str()), Some(Kind::Int))
        }
        (HandlerKind::Greater, None) => false,
        (_, field) => field.is_none(),
    }
}
