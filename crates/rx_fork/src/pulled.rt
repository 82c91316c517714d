ghost use Rattle.std.specs.Prelude.{◌≡◌, map, Option, IfOk, option_map};
ghost use Rattle.std.specs.List.{IsDistinct};
ghost use Rattle.std.specs.Str.{bytes_eq};
ghost use Rattle.rx_value.specs.Due.{Due};
ghost use Rattle.rx_document.specs.declared.place.Place.{Place as SeenPlace};
ghost use Rattle.rx_wire.specs.declared.message.AskKind.TheVariants.{Pull};
ghost use Rattle.rx_wire.specs.declared.message.Body.TheVariants.{Docs};
ghost use Rattle.rx_replication.specs.Known.{is_state};
ghost use Rattle.rx_replication.specs.Taking.{Resolve, differences};
ghost use Rattle.rx_replication.specs.Write.{state_at};
ghost use Rattle.rx_fork.specs.Accept.{answered, page_plan};
ghost use Rattle.rx_fork.specs.declared.fault.AcceptFault.TheVariants.{Memory};

use crate::accept::ExchangePlan;
use crate::fault::AcceptFault;
use crate::fitting::is_fit;
use crate::fork::Fork;
use crate::lists::{copy_of_place, in_order};
use rx_collection::Collection;
use rx_document::Place;
use rx_value::{RxList, State};
use std::alloc::{AllocError, Global};

impl Fork<'_> {
    /// What a page of the master's states, which leads to a place, comes to.
    pub fn page_plan(
        &self,
        alloc: Global,
        collection: &Collection,
        states: &[State],
        to: Option<&Place>,
    ) -> Result<ExchangePlan, AllocError>
        requires { IsDistinct bytes_eq (map (λ s. s.key) states.now) }
        ensures exact { IfOk result (λ plan. plan ≡ page_plan collection.now.documents
            self.now.meta.now states.now (option_map (λ p. p.now) to.entry)) }
        // No two of the rows have one key.
        ensures apart { IfOk result (λ plan. IsDistinct bytes_eq (map (λ s. s.key) plan.rows)) }
    {
        Ok(ExchangePlan {
            rows: differences(alloc, collection, states)?,
            known: in_order(alloc, copies(alloc, states)?)?,
            up: copy_of_place(alloc, self.meta.up())?,
            down: copy_of_place(alloc, to)?,
        })
    }

    // What the answer to a pull comes to.
    pub(crate) fn pulled(
        &self,
        alloc: Global,
        collection: &Collection,
        batch: u32,
        states: &[State],
        to: Option<&Place>,
    ) -> Result<ExchangePlan, AcceptFault>
        requires { IsDistinct bytes_eq (map (λ s. s.key) states.now) }
        ensures exact { (resolve : Resolve) (place : Option SeenPlace) → Due Memory result
            (answered resolve collection.now.documents self.now.meta.now (Pull place batch)
            (Docs states.now (option_map (λ p. p.now) to.entry))) }
    {
        if states.len() > batch as usize {
            return Err(AcceptFault::BadReply(batch as usize));
        }
        if !is_fit(self.meta.down(), states, to) {
            return Err(AcceptFault::BadReply(states.len()));
        }
        Ok(self.page_plan(alloc, collection, states, to)?)
    }
}

// The states that the collection doesn't hold.
fn differences(
    alloc: Global,
    collection: &Collection,
    states: &[State],
) -> Result<RxList<State>, AllocError>
    ensures { IfOk result (λ list. list ≡ differences collection.now.documents states.now) }
{
    let mut list = RxList::new(alloc);
    for state in states {
        if !is_held(collection, state) {
            list.push(state.copy(alloc)?)?;
        }
    }
    Ok(list)
}

fn is_held(collection: &Collection, state: &State) -> bool
    ensures { result ≡ is_state (state_at collection.now.documents state.now.key) state.now }
{
    match collection.get(state.key.as_str()) {
        Some(held) => held.state == *state,
        None => false,
    }
}

fn copies(alloc: Global, states: &[State]) -> Result<Vec<State>, AllocError>
    ensures { IfOk result (λ copies. copies.items ≡ states.now) }
{
    let mut copies = Vec::with_capacity(alloc, states.len())?;
    for state in states {
        copies.push(state.copy(alloc)?)?;
    }
    Ok(copies)
}
