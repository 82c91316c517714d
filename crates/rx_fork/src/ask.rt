ghost use Rattle.std.specs.Prelude.{◌≡◌, [], true, false, map, take, IfOk, IfSome, IfNone, option_map};
ghost use Rattle.rx_replication.specs.Known.{is_pending, pending, NonePendingBelow};
ghost use Rattle.rx_replication.specs.Request.{push_row, push_or_pull};
ghost use Rattle.rx_fork.specs.Asked.{asked_of, HasRowsApart};

use crate::fork::{Fork, is_state};
use crate::lists::copy_of_place;
use rx_collection::Collection;
use rx_document::{Place, Stored};
use rx_meta::Meta;
use rx_value::{RxList, State};
use rx_wire::{AskKind, PushRow, Request};
use std::alloc::{AllocError, Global};

/// A request, and the fork's last write time when it was made.
#[derive(Debug, Drop)]
pub struct Asked {
    pub request: Request,
    pub lwt: u64,
}

impl Fork<'_> {
    /// The request that is due: a push of the first `batch` documents to be pushed, by place, or a
    /// pull where there is none.
    pub fn ask(
        &self,
        alloc: Global,
        collection: &Collection,
        epoch: u64,
        n: u64,
        batch: u32,
    ) -> Result<Asked, AllocError>
        requires { NonePendingBelow collection.now.documents self.now.meta.now.known
            self.now.meta.now.up }
        ensures asked { IfOk result (λ asked. asked
            ≡ asked_of collection.now.documents self.now.meta.now epoch n batch) }
        ensures apart { IfOk result (λ asked. HasRowsApart asked.request.ask) }
    {
        let rows = self.rows(alloc, collection, batch)?;
        self.ask_for(alloc, collection, rows, epoch, n, batch)
    }

    /// The same where nothing is to be pushed, so that it is a pull: no document is looked at.
    pub fn ask_to_pull(
        &self,
        alloc: Global,
        collection: &Collection,
        epoch: u64,
        n: u64,
        batch: u32,
    ) -> Result<Asked, AllocError>
        requires { pending collection.now.documents self.now.meta.now.known ≡ [] }
        ensures asked { IfOk result (λ asked. asked
            ≡ asked_of collection.now.documents self.now.meta.now epoch n batch) }
        ensures apart { IfOk result (λ asked. HasRowsApart asked.request.ask) }
    {
        self.ask_for(alloc, collection, RxList::new(alloc), epoch, n, batch)
    }

    // The request of the rows that are to be pushed.
    fn ask_for(
        &self,
        alloc: Global,
        collection: &Collection,
        rows: RxList<PushRow>,
        epoch: u64,
        n: u64,
        batch: u32,
    ) -> Result<Asked, AllocError>
        requires { rows ≡ map (push_row self.now.meta.now.known)
            (take batch (pending collection.now.documents self.now.meta.now.known)) }
        ensures asked { IfOk result (λ asked. asked
            ≡ asked_of collection.now.documents self.now.meta.now epoch n batch) }
        ensures apart { IfOk result (λ asked. HasRowsApart asked.request.ask) }
    {
        let ask = push_or_pull(alloc, rows, self.meta.down(), batch)?;
        Ok(Asked {
            request: Request { epoch, n, ask },
            lwt: collection.last_lwt(),
        })
    }

    // The first rows to be pushed, at most so many.
    fn rows(
        &self,
        alloc: Global,
        collection: &Collection,
        most: u32,
    ) -> Result<RxList<PushRow>, AllocError>
        requires { NonePendingBelow collection.now.documents self.now.meta.now.known
            self.now.meta.now.up }
        ensures { IfOk result (λ rows. rows ≡ map (push_row self.now.meta.now.known)
            (take most (pending collection.now.documents self.now.meta.now.known))) }
    {
        let mut rows = RxList::new(alloc);
        let mut left = most;
        for held in collection.page(self.meta.up(), collection.len()) {
            if left == 0 {
                break;
            }
            if let Some(row) = pending_row(alloc, &self.meta, held)? {
                rows.push(row)?;
                left -= 1;
            }
        }
        Ok(rows)
    }
}

// A push of the rows, or a pull where there is none.
fn push_or_pull(
    alloc: Global,
    rows: RxList<PushRow>,
    down: Option<&Place>,
    batch: u32,
) -> Result<AskKind, AllocError>
    ensures { IfOk result (λ ask. ask
        ≡ push_or_pull rows (option_map (λ p. p.now) down.entry) batch) }
{
    if rows.len() > 0 {
        return Ok(AskKind::Push(rows));
    }
    Ok(AskKind::Pull {
        place: copy_of_place(alloc, down)?,
        batch,
    })
}

// The document as a row of a push, where it is to be pushed. What is known of it is looked up once.
fn pending_row(alloc: Global, meta: &Meta, held: &Stored) -> Result<Option<PushRow>, AllocError>
    ensures some { IfOk result (λ row. IfSome row
        (λ r. (is_pending meta.now.known held.now ≡ true)
        × (r ≡ push_row meta.now.known held.now))) }
    ensures none { IfOk result
        (λ row. IfNone row (is_pending meta.now.known held.now ≡ false)) }
{
    let known = meta.known(held.state.key.as_str());
    if is_state(known, &held.state) {
        return Ok(None);
    }
    Ok(Some(push_row(alloc, known, held)?))
}

// The document as a row of a push: its known state is the assumed one.
fn push_row(alloc: Global, known: Option<&State>, held: &Stored) -> Result<PushRow, AllocError>
    ensures assumed { IfOk result
        (λ row. row.assumed ≡ option_map (λ s. s.now) known.entry) }
    ensures new { IfOk result (λ row. row.new ≡ held.now.state) }
{
    let assumed = match known {
        Some(known) => Some(known.copy(alloc)?),
        None => None,
    };
    Ok(PushRow {
        assumed,
        new: held.state.copy(alloc)?,
    })
}
