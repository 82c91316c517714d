ghost use Rattle.std.specs.Prelude.{IfOk, map};
ghost use Rattle.std.specs.List.{IsDistinct};
ghost use Rattle.std.specs.Str.{bytes_eq};
ghost use Rattle.rx_value.specs.Due.{Due};
ghost use Rattle.rx_handler.specs.Resolve.{resolve};
ghost use Rattle.rx_replication.specs.Throughout.{AllPass, AskPasses, BodyPasses};
ghost use Rattle.rx_fork.specs.Accept.{accepted, answered};
ghost use Rattle.rx_fork.specs.Asked.{HasRowsApart, HasStatesApart};
ghost use Rattle.rx_fork.specs.Valid.{is_valid};
ghost use Rattle.rx_fork.specs.declared.fault.AcceptFault.TheVariants.{Memory};

use crate::ask::Asked;
use crate::fault::AcceptFault;
use crate::fork::Fork;
use rx_collection::Collection;
use rx_document::Place;
use rx_handler::Handler;
use rx_value::{RxList, State};
use rx_wire::{AskKind, Body, Reply};
use std::alloc::Global;

/// What taking a reply comes to.
#[derive(Debug, Drop)]
pub struct ExchangePlan {
    /// The states that the fork writes, in the order of the rows or of the reply.
    pub rows: RxList<State>,
    /// The states that are known from now on, by rising key.
    pub known: RxList<State>,
    pub up: Option<Place>,
    pub down: Option<Place>,
}

impl Fork<'_> {
    /// What the reply to a request comes to. The field is the handler's.
    pub fn accept(
        &self,
        alloc: Global,
        collection: &Collection,
        asked: &Asked,
        reply: &Reply,
        handler: &Handler,
        field: &str,
    ) -> Result<ExchangePlan, AcceptFault>
        requires rows { HasRowsApart asked.now.request.ask }
        requires states { HasStatesApart reply.now.body }
        ensures exact { Due Memory result (accepted (resolve handler.now.kind field.now)
            collection.now.documents self.now.meta.now asked.now reply.now) }
        // No two of the rows have one key.
        ensures apart { IfOk result (λ plan. IsDistinct bytes_eq (map (λ s. s.key) plan.rows)) }
        // States that are valid give states that are.
        ensures valid { AskPasses (is_valid collection.now.schema) asked.now.request.ask
            → BodyPasses (is_valid collection.now.schema) reply.now.body
            → IfOk result (λ plan. AllPass (is_valid collection.now.schema) plan.rows
            × AllPass (is_valid collection.now.schema) plan.known) }
    {
        self.plan(alloc, collection, asked, reply, handler, field)
    }

    fn plan(
        &self,
        alloc: Global,
        collection: &Collection,
        asked: &Asked,
        reply: &Reply,
        handler: &Handler,
        field: &str,
    ) -> Result<ExchangePlan, AcceptFault>
        requires rows { HasRowsApart asked.now.request.ask }
        requires states { HasStatesApart reply.now.body }
        ensures exact { Due Memory result (accepted (resolve handler.now.kind field.now)
            collection.now.documents self.now.meta.now asked.now reply.now) }
    {
        if reply.epoch != asked.request.epoch || reply.n != asked.request.n {
            return Err(AcceptFault::Foreign(reply.epoch, reply.n));
        }
        let now = collection.last_lwt();
        if now != asked.lwt {
            return Err(AcceptFault::Moved(asked.lwt, now));
        }
        self.answered(
            alloc,
            collection,
            &asked.request.ask,
            &reply.body,
            handler,
            field,
        )
    }

    // What an answer to the request comes to.
    fn answered(
        &self,
        alloc: Global,
        collection: &Collection,
        ask: &AskKind,
        body: &Body,
        handler: &Handler,
        field: &str,
    ) -> Result<ExchangePlan, AcceptFault>
        requires rows { HasRowsApart ask.now }
        requires states { HasStatesApart body.now }
        ensures exact { Due Memory result (answered (resolve handler.now.kind field.now)
            collection.now.documents self.now.meta.now ask.now body.now) }
    {
        match (ask, body) {
            (AskKind::Push(rows), Body::Conflicts(conflicts)) => self.pushed(
                alloc,
                collection,
                rows.as_slice(),
                conflicts.as_slice(),
                handler,
                field,
            ),
            (AskKind::Pull { batch, .. }, Body::Docs { states, place }) => {
                self.pulled(alloc, collection, *batch, states.as_slice(), place.as_ref())
            }
            _ => Err(AcceptFault::BadReply(0)),
        }
    }
}
