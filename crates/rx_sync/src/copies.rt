// Copies of the parts of messages.
ghost use Rattle.std.specs.Prelude.{◌≡◌, IfOk, option_map};
ghost use Rattle.rx_collection.specs.Since.{place_of};
ghost use Rattle.rx_sync.specs.Exchange.{row_keys, state_keys};

use rx_document::{Place, Stored};
use rx_value::{RxList, RxText, State};
use rx_wire::{AskKind, PushRow, Request};
use std::alloc::{AllocError, Global};

pub(crate) fn copy_of_place(
    alloc: Global,
    place: Option<&Place>,
) -> Result<Option<Place>, AllocError>
    ensures { IfOk result (λ p. p ≡ option_map (λ p. p.now) place.entry) }
{
    match place {
        Some(place) => Ok(Some(Place {
            lwt: place.lwt,
            id: place.id.copy(alloc)?,
        })),
        None => Ok(None),
    }
}

// Where a document stands.
pub(crate) fn place_of(alloc: Global, held: &Stored) -> Result<Place, AllocError>
    ensures { IfOk result (λ place. place ≡ place_of held.now) }
{
    Ok(Place {
        lwt: held.lwt,
        id: held.state.key.copy(alloc)?,
    })
}

/// A copy of a request, as one is remembered that is still to be sent.
pub fn copy_of_request(alloc: Global, request: &Request) -> Result<Request, AllocError>
    ensures { IfOk result (λ q. q ≡ request.now) }
{
    Ok(Request {
        epoch: request.epoch,
        n: request.n,
        ask: copy_of_ask(alloc, &request.ask)?,
    })
}

fn copy_of_ask(alloc: Global, ask: &AskKind) -> Result<AskKind, AllocError>
    ensures { IfOk result (λ copy. copy ≡ ask.now) }
{
    match ask {
        AskKind::Push(rows) => Ok(AskKind::Push(copy_of_rows(alloc, rows.as_slice())?)),
        AskKind::Pull { place, batch } => Ok(AskKind::Pull {
            place: copy_of_place(alloc, place.as_ref())?,
            batch: *batch,
        }),
    }
}

fn copy_of_rows(alloc: Global, rows: &[PushRow]) -> Result<RxList<PushRow>, AllocError>
    ensures { IfOk result (λ list. list ≡ rows.now) }
{
    let mut list = RxList::new(alloc);
    for row in rows {
        list.push(copy_of_row(alloc, row)?)?;
    }
    Ok(list)
}

fn copy_of_row(alloc: Global, row: &PushRow) -> Result<PushRow, AllocError>
    ensures { IfOk result (λ copy. copy ≡ row.now) }
{
    let assumed = match &row.assumed {
        Some(state) => Some(state.copy(alloc)?),
        None => None,
    };
    Ok(PushRow {
        assumed,
        new: row.new.copy(alloc)?,
    })
}

// The keys of the rows of a push.
pub(crate) fn row_keys(alloc: Global, rows: &[PushRow]) -> Result<RxList<RxText>, AllocError>
    ensures { IfOk result (λ keys. keys ≡ row_keys rows.now) }
{
    let mut keys = RxList::new(alloc);
    for row in rows {
        keys.push(row.new.key.copy(alloc)?)?;
    }
    Ok(keys)
}

pub(crate) fn state_keys(alloc: Global, states: &[State]) -> Result<RxList<RxText>, AllocError>
    ensures { IfOk result (λ keys. keys ≡ state_keys states.now) }
{
    let mut keys = RxList::new(alloc);
    for state in states {
        keys.push(state.key.copy(alloc)?)?;
    }
    Ok(keys)
}
