// What the fork of a replication makes of a reply.
ghost use Rattle.std.specs.Prelude.{◌≡◌, map, Some, IfOk, IsSome, option_map};
ghost use Rattle.std.specs.List.{list_all, IsDistinct};
ghost use Rattle.std.specs.Option.{ForSome};
ghost use Rattle.std.specs.Str.{bytes_eq};
ghost use Rattle.rx_value.specs.Due.{DueBy};
ghost use Rattle.rx_value.specs.Named.{named};
ghost use Rattle.rx_handler.specs.Shown.{kinds_of};
ghost use Rattle.rx_world.specs.Holders.{world_in};
ghost use Rattle.rx_world.specs.Sound.{IsSoundWorld};
ghost use Rattle.rx_sync.specs.Exchange.{taken_as};
ghost use Rattle.rx_sync.specs.Laws.{ComeSoundly, IsAnsweredIn, IsDueIn, IsLawfulReplyIn, KeepsPendingIn, PullLeavesNone};
ghost use Rattle.rx_sync.specs.Shown.{record_in};
ghost use Rattle.rx_sync.specs.Taking.{changes_nothing, is_known, is_same_place, recorded, taken, write_time};
ghost use Rattle.rx_sync.specs.declared.fault.TakeFault.TheVariants.{Memory};

use crate::fault::TakeFault;
use crate::lookup::{field_of, find_fork, find_handler, find_replication};
use rx_collection::{Collection, Holder};
use rx_document::Place;
use rx_fork::{Asked, ExchangePlan, Fork};
use rx_handler::Handlers;
use rx_meta::Meta;
use rx_record::Record;
use rx_value::{RxList, RxText, State};
use rx_wire::Reply;
use rx_world::{World, rows_out};
use std::alloc::Global;

/// What a reply to a request comes to: the record that takes it, where anything changes. Nothing is
/// changed here: the record is to be kept, and then applied.
pub fn take<H: Holder + Drop>(
    alloc: Global,
    world: &World<H>,
    name: &str,
    asked: &Asked,
    reply: &Reply,
    handlers: &Handlers,
    now: u64,
) -> Result<Option<Record>, TakeFault>
    requires held { IsSome (named (world_in H.held world.now).replications name.now) }
    requires handler { ForSome (named (world_in H.held world.now).replications name.now)
        (λ r. IsSome (named (kinds_of handlers.now) r.handler)) }
    requires sound { IsSoundWorld (world_in H.held world.now) }
    requires asked { IsDueIn (world_in H.held world.now) name.now asked.now }
    requires reply { IsLawfulReplyIn (world_in H.held world.now) name.now reply.now }
    ensures taken { ForSome (taken (world_in H.held world.now) (kinds_of handlers.now) name.now
        asked.now reply.now now) (DueBy Memory record_in result) }
    // The record may come next, and keeps the world sound, where the master has answered or is
    // elsewhere.
    ensures next { IsAnsweredIn (world_in H.held world.now) name.now asked.now reply.now
        → IfOk result (λ entry. ComeSoundly (world_in H.held world.now) (record_in entry)) }
    // It changes no document that is to be pushed but by the handler's answer on its conflict.
    ensures keeps { IfOk result (λ entry. KeepsPendingIn (world_in H.held world.now)
        (kinds_of handlers.now) name.now reply.now (record_in entry)) }
    // After a pull the next request is one too.
    ensures pulled { IfOk result (λ entry. PullLeavesNone (world_in H.held world.now) name.now
        (record_in entry) (Some (taken_as asked.now.request.ask reply.now.body))) }
{
    let replication = find_replication(world, name);
    let fork = find_fork(world, replication);
    let handler = find_handler(handlers, replication.handler.as_str());
    let field = field_of(replication);
    let side = Fork {
        meta: &replication.side,
    };
    let plan = side.accept(alloc, fork, asked, reply, handler, field)?;
    record_of(alloc, name, fork, &replication.side, plan, now)
}

// The record of a taking, where anything changes.
pub(crate) fn record_of(
    alloc: Global,
    name: &str,
    fork: &Collection,
    side: &Meta,
    plan: ExchangePlan,
    now: u64,
) -> Result<Option<Record>, TakeFault>
    requires apart { IsDistinct bytes_eq (map (λ s. s.key) plan.rows) }
    ensures { DueBy Memory record_in result (recorded name.now now fork.now side.now plan) }
{
    if changes_nothing(side, &plan) {
        return Ok(None);
    }
    let Some(lwt) = write_time(fork, &plan.rows, now) else {
        return Err(TakeFault::ClockEnd);
    };
    let ExchangePlan {
        rows,
        known,
        up,
        down,
    } = plan;
    let documents = fork.rows(alloc, rows.into_vec(), lwt)?;
    Ok(Some(Record::Exchange {
        name: RxText::new(alloc, name)?,
        lwt,
        rows: rows_out(alloc, documents)?,
        known: known.into_vec(),
        up,
        down,
    }))
}

// The write time of a taking, 0 where no row is written.
fn write_time(fork: &Collection, rows: &RxList<State>, now: u64) -> Option<u64>
    ensures { result ≡ write_time now fork.now rows.now }
{
    if rows.len() == 0 {
        return Some(0);
    }
    fork.stamp(now)
}

fn changes_nothing(side: &Meta, plan: &ExchangePlan) -> bool
    ensures { result ≡ changes_nothing side.now plan.now }
{
    // Places tell most that change something, and cost less than states.
    plan.rows.len() == 0
        && is_same_place(side.up(), plan.up.as_ref())
        && is_same_place(side.down(), plan.down.as_ref())
        && are_known(side, plan.known.as_slice())
}

fn are_known(side: &Meta, states: &[State]) -> bool
    ensures { result ≡ list_all (is_known side.now.known) states.now }
{
    states.iter().all(|state| is_known(side, state))
}

fn is_known(side: &Meta, state: &State) -> bool
    ensures { result ≡ is_known side.now.known state.now }
{
    match side.known(state.key.as_str()) {
        Some(known) => *known == *state,
        None => false,
    }
}

pub(crate) fn is_same_place(this: Option<&Place>, that: Option<&Place>) -> bool
    ensures { result ≡ is_same_place (option_map (λ p. p.now) this.entry)
        (option_map (λ p. p.now) that.entry) }
{
    match (this, that) {
        (None, None) => true,
        (Some(this), Some(that)) => *this == *that,
        _ => false,
    }
}
