// The lines that list the changes of a collection, and tell its digest.
ghost use Rattle.std.specs.Prelude.{◌≡◌, map, IfOk, option_map};
ghost use Rattle.rx_value.specs.Due.{DueBy};
ghost use Rattle.rx_session.specs.Doing.{MayDo};
ghost use Rattle.rx_engine.specs.Listing.{place_named, place_after, changes_line, digest_line};
ghost use Rattle.rx_engine.specs.Shown.{doing_of, outcome_of};
ghost use Rattle.rx_writes.specs.declared.fault.Fault.TheVariants.{Memory};

use crate::lookup::find_collection;
use crate::outcome::Outcome;
use crate::queries::answer_alone;
use rx_collection::Page;
use rx_digest::digest;
use rx_document::{Place, Stored};
use rx_reply::Reply;
use rx_script::Since;
use rx_session::Session;
use rx_value::RxText;
use rx_writes::Fault;
use std::alloc::{AllocError, Global};

pub(crate) fn changes_line<'a>(
    alloc: Global,
    session: &'a Session,
    coll: &RxText,
    since: Option<Since>,
    batch: u32,
) -> Result<Outcome<'a>, Fault>
    ensures exact { DueBy Memory outcome_of result (changes_line coll.now since batch session.now) }
    ensures may { IfOk result (λ p. MayDo (doing_of p.doing) session.now) }
{
    let collection = find_collection(alloc, session, coll)?;
    let asked = asked_place(since);
    let docs = lend_page(alloc, collection.page(asked.as_ref(), batch as usize))?;
    let place = place_after(alloc, asked, docs.as_slice())?;
    Ok(answer_alone(Reply::Changes { docs, place }))
}

pub(crate) fn digest_line<'a>(
    alloc: Global,
    session: &'a Session,
    coll: &RxText,
) -> Result<Outcome<'a>, Fault>
    ensures exact { DueBy Memory outcome_of result (digest_line coll.now session.now) }
    ensures may { IfOk result (λ p. MayDo (doing_of p.doing) session.now) }
{
    let collection = find_collection(alloc, session, coll)?;
    let count = collection.len() as u64;
    let digest = digest(alloc, collection)?;
    Ok(answer_alone(Reply::Digest { count, digest }))
}

// The place that a line names, if it names one.
fn asked_place(since: Option<Since>) -> Option<Place>
    ensures { result ≡ option_map place_named since }
{
    match since {
        Some(Since { id, lwt }) => Some(Place { lwt, id }),
        None => None,
    }
}

// The documents of a page, lent.
fn lend_page<'a>(alloc: Global, page: Page<'a>) -> Result<Vec<&'a Stored>, AllocError>
    ensures { IfOk result (λ docs. map (λ d. d.now) docs.items ≡ page.entry) }
{
    let mut docs = Vec::new(alloc);
    for document in page {
        docs.push(document)?;
    }
    Ok(docs)
}

// The place of the last document, or else the one asked from.
fn place_after(
    alloc: Global,
    asked: Option<Place>,
    docs: &[&Stored],
) -> Result<Option<Place>, AllocError>
    ensures { IfOk result (λ place. place ≡ place_after asked (map (λ d. d.now) docs.now)) }
{
    let Some(last) = docs.last() else {
        return Ok(asked);
    };
    let id = last.state.key.copy(alloc)?;
    Ok(Some(Place { lwt: last.lwt, id }))
}
