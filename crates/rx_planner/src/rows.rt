ghost use Rattle.std.specs.Prelude.{◌≡◌, ◌++◌, ◌∷◌, List, length, map, take, IfOk, OnOk, option_map, nat_le};
ghost use Rattle.std.specs.List.{IsDistinct};
ghost use Rattle.std.specs.List.Sorted.{IsStrictlySortedBy};
ghost use Rattle.std.specs.Ordering.{eq_by_cmp};
ghost use Rattle.rx_value.specs.Named.{named};
ghost use Rattle.rx_document.specs.declared.stored.Stored.{Stored};
ghost use Rattle.rx_query.specs.QuerySpec.{asked};
ghost use Rattle.rx_query.specs.Lists.{sorted, some_passes};
ghost use Rattle.rx_query.specs.Result.{stored_before, stored_cmp};
ghost use Rattle.rx_planner.specs.Rows.{if_due, due_among, IsFull, StandsFor};

use rx_document::{Lookup, Stored};
use rx_index::{Entry, Range};
use rx_query::Query;
use std::alloc::{AllocError, Global};

// The document of an index's key: the one in the key's slot, if it is that one. So a slot is no
// more than a hint, of which nothing has to be known.
pub(crate) fn document_of<'a, T: Lookup>(
    alloc: Global,
    docs: &'a T,
    entry: &Entry<'_>,
) -> Result<Option<&'a Stored>, AllocError>
    ensures { IfOk result
        (λ o. option_map (λ d. d.now) o ≡ named (T.documents docs.now) entry.now) }
{
    if let Some(document) = docs.at(entry.slot()) {
        if entry.is_of(document.state.key.as_str()) {
            return Ok(Some(document));
        }
    }
    let id = entry.id(alloc)?;
    Ok(docs.lookup(id.as_str()))
}

// The document, if it is due.
pub(crate) fn only_due<'a>(query: &Query, document: Option<&'a Stored>) -> Option<&'a Stored>
    ensures { option_map (λ d. d.now) result
        ≡ if_due (asked query.now) (option_map (λ d. d.now) document.entry) }
{
    let document = document?;
    if !document.state.deleted && query.matches(&document.state.fields) {
        Some(document)
    } else {
        None
    }
}

// The document of an index's key, if it is due.
pub(crate) fn due<'a, T: Lookup>(
    alloc: Global,
    query: &Query,
    docs: &'a T,
    entry: &Entry<'_>,
) -> Result<Option<&'a Stored>, AllocError>
    ensures { IfOk result (λ o. option_map (λ d. d.now) o
        ≡ if_due (asked query.now) (named (T.documents docs.now) entry.now)) }
{
    Ok(only_due(query, document_of(alloc, docs, entry)?))
}

fn is_full(most: Option<u128>, len: usize) -> bool
    ensures { result ≡ some_passes (λ most. nat_le most len) most }
{
    match most {
        Some(most) => most <= len as u128,
        None => false,
    }
}

// The first due documents, as many as are wanted.
pub(crate) fn first_due<'a, T: Lookup>(
    alloc: Global,
    query: &Query,
    docs: &'a T,
    ids: &mut Range<'_>,
    most: Option<u128>,
) -> Result<Vec<&'a Stored>, AllocError>
    ensures split { IfOk result (λ rows. map (λ r. r.now) rows.items
        ++ due_among (asked query.now) (T.documents docs.now) ids.new
        ≡ due_among (asked query.now) (T.documents docs.now) ids.old) }
    ensures full { IfOk result (λ rows. IsFull most (length rows.items) ids.new) }
{
    let mut rows = Vec::new(alloc);
    'rows: while !is_full(most, rows.len()) {
        let Some(entry) = ids.next() else {
            return Ok(rows);
        };
        if let Some(document) = due(alloc, query, docs, &entry)? {
            rows.push(document)?;
        }
    }
    Ok(rows)
}

// Puts rows, of which none tie, in the order of the query.
pub(crate) fn put_in_order(query: &Query, rows: &mut Vec<&Stored>)
    requires { IsDistinct (eq_by_cmp (stored_cmp (asked query.now)))
        (map (λ r. r.now) rows.old.items) }
    ensures { map (λ r. r.now) rows.new.items
        ≡ sorted (stored_before (asked query.now)) (map (λ r. r.now) rows.old.items) }
{
    rows.sort_unstable_by(|a, b| query.before(&a.state.fields, &b.state.fields));
}

// Of these rows and of the due documents that are left, as many first ones as there are rows.
pub(crate) fn improve<'a, T: Lookup>(
    alloc: Global,
    query: &Query,
    docs: &'a T,
    ids: Range<'_>,
    rows: &mut Vec<&'a Stored>,
) -> Result<(), AllocError>
    requires in_order { IsStrictlySortedBy (stored_cmp (asked query.now))
        (map (λ r. r.now) rows.old.items) }
    requires apart { IsDistinct (eq_by_cmp (stored_cmp (asked query.now)))
        (map (λ r. r.now) rows.old.items
        ++ due_among (asked query.now) (T.documents docs.now) ids) }
    ensures { OnOk result (map (λ r. r.now) rows.new.items ≡ take (length rows.old.items)
        (sorted (stored_before (asked query.now)) (map (λ r. r.now) rows.old.items
        ++ due_among (asked query.now) (T.documents docs.now) ids.entry))) }
{
    let wanted = rows.len();
    for entry in ids {
        if let Some(document) = due(alloc, query, docs, &entry)? {
            consider(query, rows, wanted, document)?;
        }
    }
    settle(query, rows, wanted);
    Ok(())
}

// Adds a document behind rows of which the first ones are in order, unless it comes after those.
// Where as many wait behind them all are put in order, so that a row costs its part of a sort and
// moves no others.
fn consider<'a>(
    query: &Query,
    rows: &mut Vec<&'a Stored>,
    wanted: usize,
    document: &'a Stored,
) -> Result<(), AllocError>
    requires { (all : List Stored) × ((rest : List Stored) × StandsFor (asked query.now) wanted all
        (map (λ r. r.now) rows.old.items) (document.now ∷ rest)) }
    ensures { OnOk result ((all rest : List Stored)
        → StandsFor (asked query.now) wanted all (map (λ r. r.now) rows.old.items)
        (document.now ∷ rest)
        → StandsFor (asked query.now) wanted all (map (λ r. r.now) rows.new.items) rest) }
{
    if wanted == 0 {
        return Ok(());
    }
    let last = rows[wanted - 1];
    if !precedes(query, document, last) {
        return Ok(());
    }
    rows.push(document)?;
    if rows.len() - wanted < wanted {
        return Ok(());
    }
    settle(query, rows, wanted);
    Ok(())
}

fn precedes(query: &Query, document: &Stored, other: &Stored) -> bool
    ensures { result ≡ stored_before (asked query.now) document.now other.now }
{
    query
        .before(&document.state.fields, &other.state.fields)
        .is_lt()
}

// Puts rows, of which none tie, in order, and keeps the first ones.
fn settle(query: &Query, rows: &mut Vec<&Stored>, wanted: usize)
    requires { IsDistinct (eq_by_cmp (stored_cmp (asked query.now)))
        (map (λ r. r.now) rows.old.items) }
    ensures { map (λ r. r.now) rows.new.items
        ≡ take wanted (sorted (stored_before (asked query.now)) (map (λ r. r.now) rows.old.items)) }
{
    put_in_order(query, rows);
    rows.truncate(wanted);
}
