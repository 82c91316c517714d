ghost use Rattle.std.specs.Prelude.{◌≡◌, length, Some, IfSome, IfOk, OnOk, option_map};
ghost use Rattle.rx_value.specs.Named.{named};
ghost use Rattle.rx_document.specs.Change.{before_of};
ghost use Rattle.rx_document.specs.Documents.{live};
ghost use Rattle.rx_collection.specs.Commit.{IsNext, with_row};
ghost use Rattle.rx_collection.specs.Lawful.{IsLawful};
ghost use Rattle.rx_query.specs.QuerySpec.{asked};
ghost use Rattle.rx_states.specs.Matches.{TellMatches};
ghost use Rattle.rx_observe.specs.Applied.{answer_for};
ghost use Rattle.rx_observe.specs.Following.{Follows, AllFollow};
ghost use Rattle.rx_observe.specs.Front.{IsFront, AreFronts};
ghost use Rattle.rx_observe.specs.Indexes.{AreIndexesOf};
ghost use Rattle.rx_observe.specs.Observing.{AllRight, each, change_by, queries_after};
ghost use Rattle.rx_observe.specs.Watched.{unknown, action_at, applied, IsReady, stepped};

use crate::deciding::Memo;
use crate::front::{Front, align};
use crate::indexes::put_in_each;
use crate::observed::{Applied, Observed};
use rx_collection::Collection;
use rx_diagram::Diagram;
use rx_document::{Before, Change, Stored};
use rx_index::Index;
use rx_states::Matches;
use rx_value::{Fields, RxText};
use std::alloc::{AllocError, Global};

// Writes a row, and brings each index and each query up to date.
pub(crate) fn put_row(
    alloc: Global,
    diagram: &Diagram,
    collection: &mut Collection,
    indexes: &mut Vec<Index>,
    queries: &mut Vec<(RxText, Observed)>,
    fronts: &mut Vec<Front>,
    row: Stored,
) -> Result<(), AllocError>
    requires next { IsNext collection.old row }
    requires indexed { AreIndexesOf collection.old indexes.old.items }
    requires right { AllRight collection.old queries.old.items }
    requires fronts { AreFronts collection.old queries.old.items fronts.old.items }
    ensures collection { OnOk result (collection.new ≡ with_row collection.old row) }
    ensures indexed { OnOk result (AreIndexesOf collection.new indexes.new.items) }
    ensures queries { OnOk result
        (queries.new.items ≡ queries_after collection.old row queries.old.items) }
    ensures fronts { OnOk result (AreFronts collection.new queries.new.items fronts.new.items) }
{
    let old = held_before(collection, &row);
    put_in_each(collection, indexes, old, &row)?;
    if queries.is_empty() {
        return collection.put(row);
    }
    let change = change_by(alloc, collection, old, &row)?;
    collection.put(row)?;
    align(alloc, fronts, queries.len())?;
    step_all(
        alloc,
        diagram,
        queries,
        fronts,
        collection,
        indexes.as_slice(),
        &change,
    )
}

// The document of the row's key. A first row has none, so it needn't be looked up.
fn held_before<'a>(collection: &'a Collection, row: &Stored) -> Option<&'a Stored>
    requires next { IsNext collection.now row.now }
    requires lawful { IsLawful collection.now }
    ensures { option_map (λ d. d.now) result ≡ named collection.now.documents row.now.state.key }
{
    if row.rev.height == 1 {
        return None;
    }
    collection.get(row.state.key.as_str())
}

// The change that a row is about to make, in the place of its key's document.
fn change_by(
    alloc: Global,
    collection: &Collection,
    old: Option<&Stored>,
    row: &Stored,
) -> Result<Change, AllocError>
    requires { option_map (λ d. d.now) old ≡ named collection.now.documents row.now.state.key }
    ensures { IfOk result (λ c. c ≡ change_by collection.now row.now) }
{
    Ok(Change {
        id: row.state.key.copy(alloc)?,
        before: before(alloc, old)?,
        after: live(alloc, row)?,
    })
}

fn before(alloc: Global, document: Option<&Stored>) -> Result<Before, AllocError>
    ensures { IfOk result (λ b. b ≡ before_of (live (option_map (λ d. d.now) document.entry))) }
{
    let Some(document) = document else {
        return Ok(Before::Absent);
    };
    match live(alloc, document)? {
        Some(fields) => Ok(Before::Live(fields)),
        None => Ok(Before::Absent),
    }
}

fn live(alloc: Global, document: &Stored) -> Result<Option<Fields>, AllocError>
    ensures { IfOk result (λ fields. fields ≡ live (Some document.now)) }
{
    if document.state.deleted {
        return Ok(None);
    }
    Ok(Some(document.state.fields.copy(alloc)?))
}

fn step_all(
    alloc: Global,
    diagram: &Diagram,
    queries: &mut Vec<(RxText, Observed)>,
    fronts: &mut Vec<Front>,
    collection: &Collection,
    indexes: &[Index],
    change: &Change,
) -> Result<(), AllocError>
    requires follow { AllFollow change.now queries.old.items fronts.old.items collection.now }
    requires aligned { length fronts.old.items ≡ length queries.old.items }
    requires indexed { AreIndexesOf collection.now indexes.now }
    ensures queries { OnOk result (queries.new.items
        ≡ each (stepped collection.now.documents change.now) queries.old.items) }
    ensures fronts { OnOk result (AreFronts collection.now queries.new.items fronts.new.items) }
{
    let mut memo = Memo::new(change);
    for i in 0..queries.len() {
        let query = &mut queries[i];
        let front = &mut fronts[i];
        step(
            alloc,
            diagram,
            &mut query.1,
            front,
            collection,
            indexes,
            change,
            &mut memo,
        )?;
    }
    Ok(())
}

// A query after a change that the collection has already.
fn step(
    alloc: Global,
    diagram: &Diagram,
    observed: &mut Observed,
    front: &mut Front,
    collection: &Collection,
    indexes: &[Index],
    change: &Change,
    memo: &mut Memo<'_>,
) -> Result<(), AllocError>
    requires memo { memo.old.sides ≡ change.now }
    requires follows { Follows change.now observed.old front.old collection.now }
    requires indexed { AreIndexesOf collection.now indexes.now }
    ensures observed { OnOk result
        (observed.new ≡ stepped collection.now.documents change.now observed.old) }
    ensures front { OnOk result
        (IsFront observed.old.query collection.now.documents front.new) }
    ensures memo { memo.new.sides ≡ memo.old.sides }
{
    let query = observed.query();
    let matches = Matches::by_sides(query, change, &mut memo.sides);
    front.follow(alloc, query, change, matches)?;
    match apply(alloc, diagram, observed, change, matches, memo)? {
        Applied::Patched => Ok(()),
        Applied::NeedsFull => {
            let rows = observed.run(collection, indexes, front)?;
            observed.fill(rows);
            Ok(())
        }
    }
}

// A cold query isn't told what was before.
fn apply(
    alloc: Global,
    diagram: &Diagram,
    observed: &mut Observed,
    change: &Change,
    matches: Matches,
    memo: &mut Memo<'_>,
) -> Result<Applied, AllocError>
    requires memo { memo.old.sides ≡ change.now }
    requires matches { TellMatches observed.old.query change.now matches }
    requires ready { IfSome observed.old.rows (IsReady observed.old.query change.now) }
    ensures answer { IfOk result (λ a. a
        ≡ answer_for (action_at observed.old.query change.now observed.old.rows)) }
    ensures value { OnOk result (observed.new ≡ applied change.now observed.old) }
    ensures memo { memo.new.sides ≡ memo.old.sides }
{
    if observed.rows().is_none() {
        return observed.apply(diagram, &unknown(alloc, change)?);
    }
    observed.hear(diagram, change, matches, memo)
}

// The change as a cold query gets it.
fn unknown(alloc: Global, change: &Change) -> Result<Change, AllocError>
    ensures { IfOk result (λ c. c ≡ unknown change.now) }
{
    let after = match &change.after {
        Some(fields) => Some(fields.copy(alloc)?),
        None => None,
    };
    Ok(Change {
        id: change.id.copy(alloc)?,
        before: Before::Unknown,
        after,
    })
}
