ghost use Rattle.std.specs.Prelude.{◌≡◌, map, IfOk, option_map};
ghost use Rattle.std.specs.List.{IsDistinct};
ghost use Rattle.std.specs.Str.{bytes_eq};
ghost use Rattle.rx_value.specs.Due.{Due};
ghost use Rattle.rx_wire.specs.declared.message.AskKind.TheVariants.{Push};
ghost use Rattle.rx_wire.specs.declared.message.Body.TheVariants.{Conflicts};
ghost use Rattle.rx_handler.specs.Resolve.{resolve};
ghost use Rattle.rx_replication.specs.Taking.{conflict_at, real_state, resolutions, pushed_place};
ghost use Rattle.rx_fork.specs.Accept.{answered};
ghost use Rattle.rx_fork.specs.declared.fault.AcceptFault.TheVariants.{Memory};

use crate::accept::ExchangePlan;
use crate::fault::AcceptFault;
use crate::fitting::{conflicts_left, first_foreign};
use crate::fork::Fork;
use crate::lists::{copy_of_place, in_order};
use rx_collection::Collection;
use rx_document::Place;
use rx_handler::Handler;
use rx_value::{RxList, RxText, State};
use rx_wire::PushRow;
use std::alloc::{AllocError, Global};

impl Fork<'_> {
    // What the answer to a push comes to.
    pub(crate) fn pushed(
        &self,
        alloc: Global,
        collection: &Collection,
        rows: &[PushRow],
        conflicts: &[State],
        handler: &Handler,
        field: &str,
    ) -> Result<ExchangePlan, AcceptFault>
        requires { IsDistinct bytes_eq (map (λ row. row.new.key) rows.now) }
        ensures exact { Due Memory result (answered (resolve handler.now.kind field.now)
            collection.now.documents self.now.meta.now (Push rows.now) (Conflicts conflicts.now)) }
    {
        if let Some(at) = first_foreign(rows, conflicts) {
            return Err(AcceptFault::BadReply(at));
        }
        Ok(ExchangePlan {
            rows: resolutions(alloc, handler, field, conflicts, rows)?,
            known: in_order(alloc, real_states(alloc, conflicts, rows)?)?,
            up: pushed_place(alloc, collection, self.meta.up(), rows)?,
            down: copy_of_place(alloc, self.meta.down())?,
        })
    }
}

// The handler's answers, one for each row whose real state is another. Conflicts come in the order
// of their rows, so that the first one left is looked at first.
fn resolutions(
    alloc: Global,
    handler: &Handler,
    field: &str,
    conflicts: &[State],
    rows: &[PushRow],
) -> Result<RxList<State>, AllocError>
    requires { IsDistinct bytes_eq (map (λ row. row.new.key) rows.now) }
    ensures { IfOk result (λ list. list
        ≡ resolutions (resolve handler.now.kind field.now) conflicts.now rows.now) }
{
    let mut list = RxList::new(alloc);
    let mut left = conflicts;
    for row in rows {
        let real = real_state(left, row);
        if *real != row.new {
            list.push(handler.resolve(alloc, field, real, &row.new)?)?;
        }
        left = conflicts_left(left, row);
    }
    Ok(list)
}

// The real state of each row.
fn real_states(
    alloc: Global,
    conflicts: &[State],
    rows: &[PushRow],
) -> Result<Vec<State>, AllocError>
    requires { IsDistinct bytes_eq (map (λ row. row.new.key) rows.now) }
    ensures { IfOk result (λ states. states.items ≡ map (real_state conflicts.now) rows.now) }
{
    let mut states = Vec::with_capacity(alloc, rows.len())?;
    let mut left = conflicts;
    for row in rows {
        states.push(real_state(left, row).copy(alloc)?)?;
        left = conflicts_left(left, row);
    }
    Ok(states)
}

// The row's conflict, or else its new state, which the master has taken.
fn real_state<'a>(conflicts: &'a [State], row: &'a PushRow) -> &'a State
    ensures { result.now ≡ real_state conflicts.now row.now }
{
    match conflict_at(&row.new.key, conflicts) {
        Some(real) => real,
        None => &row.new,
    }
}

fn conflict_at<'a>(key: &RxText, conflicts: &'a [State]) -> Option<&'a State>
    ensures { option_map (λ s. s.now) result ≡ conflict_at key.now conflicts.now }
{
    for conflict in conflicts {
        if conflict.key == *key {
            return Some(conflict);
        }
    }
    None
}

// The place that the last row has in the fork.
fn pushed_place(
    alloc: Global,
    collection: &Collection,
    up: Option<&Place>,
    rows: &[PushRow],
) -> Result<Option<Place>, AllocError>
    ensures { IfOk result (λ place. place
        ≡ pushed_place collection.now.documents (option_map (λ p. p.now) up.entry) rows.now) }
{
    for i in (0..rows.len()).rev() {
        if let Some(held) = collection.get(rows[i].new.key.as_str()) {
            return Ok(Some(Place {
                lwt: held.lwt,
                id: held.state.key.copy(alloc)?,
            }));
        }
    }
    copy_of_place(alloc, up)
}
