ghost use Rattle.std.specs.Prelude.{◌≡◌, codes, is_some, option_map, []};
ghost use Rattle.serde_json.specs.Find.{get};
ghost use Rattle.serde_json.specs.View.{view, items_view};
ghost use Rattle.rx_value.specs.Due.{Due, DueBy};
ghost use Rattle.rx_value.specs.Named.{named};
ghost use Rattle.rx_selector.specs.Tree.{selector_clauses};
ghost use Rattle.rx_query.specs.QuerySpec.{asked};
ghost use Rattle.rx_query.specs.Reading.{selector_in, is_desc, only_member, sort_of, items_sorts, sorts_in, count_at, query_of};
ghost use Rattle.rx_query.specs.declared.fault.QueryFault.TheVariants.{Memory};

use crate::fault::QueryFault;
use crate::query::Query;
use rx_selector::Selector;
use rx_value::{Kinds, RxText, first_unexpected, whole_within};
use serde_json::Value as Json;
use std::alloc::Global;

/// The most rows that may be skipped or left.
const MOST_ROWS: u64 = 1_000_000_000;

impl Query {
    /// The query that a JSON value says, over documents of these properties, of which one is the
    /// primary key. Members are tested in the order unknown, selector, sort, skip, limit.
    pub fn read(
        alloc: Global,
        json: &Json,
        kinds: &Kinds,
        primary: &str,
    ) -> Result<Query, QueryFault>
        ensures { DueBy Memory asked result (query_of kinds.now primary.now (view json.now)) }
    {
        if json.as_object().is_none() {
            return Err(QueryFault::NotObject);
        }
        if let Some(name) = first_unexpected(json, &[], &["selector", "sort", "skip", "limit"]) {
            return Err(QueryFault::Member(RxText::new(alloc, name)?));
        }
        let selector = read_selector(alloc, json, kinds)?;
        let sorts = read_sorts(alloc, json, kinds)?;
        let Some(skip) = read_count(json, "skip") else {
            return Err(QueryFault::Skip);
        };
        let Some(limit) = read_count(json, "limit") else {
            return Err(QueryFault::Limit);
        };
        Ok(Query {
            selector,
            sorts,
            skip,
            limit: if limit > 0 { Some(limit) } else { None },
            primary: RxText::new(alloc, primary)?,
        })
    }
}

fn read_selector(alloc: Global, json: &Json, kinds: &Kinds) -> Result<Selector, QueryFault>
    ensures { DueBy Memory selector_clauses result
        (selector_in kinds.now (get (codes "selector") (view json.now))) }
{
    match json.get("selector") {
        None => Ok(Selector::any(alloc)),
        Some(member) => Ok(Selector::read(alloc, member, kinds)?),
    }
}

fn is_desc(json: &Json) -> Option<bool>
    ensures { result ≡ is_desc (view json.now) }
{
    let word = json.as_str()?;
    if word == "asc" {
        Some(false)
    } else if word == "desc" {
        Some(true)
    } else {
        None
    }
}

// The member of an object of one member.
fn only_member(json: &Json) -> Option<(&str, &Json)>
    ensures { option_map (λ m. (m.0.now, view m.1.now)) result ≡ only_member (view json.now) }
{
    let mut members = json.as_object()?.iter();
    match (members.next(), members.next()) {
        (Some((name, member)), None) => Some((name.as_str(), member)),
        _ => None,
    }
}

fn has_name(sorts: &[(RxText, bool)], name: &str) -> bool
    ensures { result ≡ is_some (named sorts.now name.now) }
{
    for (known, _desc) in sorts {
        if name == known.as_str() {
            return true;
        }
    }
    false
}

fn read_sort(
    alloc: Global,
    json: &Json,
    kinds: &Kinds,
    done: &[(RxText, bool)],
) -> Result<(RxText, bool), QueryFault>
    ensures { Due Memory result (sort_of kinds.now done.now (view json.now)) }
{
    let Some((name, member)) = only_member(json) else {
        return Err(QueryFault::Sort(RxText::new(alloc, "sort")?));
    };
    let name = RxText::new(alloc, name)?;
    if kinds.kind(name.as_str()).is_none() || has_name(done, name.as_str()) {
        return Err(QueryFault::Sort(name));
    }
    match is_desc(member) {
        Some(desc) => Ok((name, desc)),
        None => Err(QueryFault::Sort(name)),
    }
}

fn read_items(
    alloc: Global,
    items: &[Json],
    kinds: &Kinds,
) -> Result<Vec<(RxText, bool)>, QueryFault>
    ensures { DueBy Memory (λ ss. ss.items) result
        (items_sorts kinds.now [] (items_view items.now)) }
{
    let mut sorts = Vec::with_capacity(alloc, items.len())?;
    for item in items {
        let sort = read_sort(alloc, item, kinds, sorts.as_slice())?;
        sorts.push(sort)?;
    }
    Ok(sorts)
}

fn read_sorts(alloc: Global, json: &Json, kinds: &Kinds) -> Result<Vec<(RxText, bool)>, QueryFault>
    ensures { DueBy Memory (λ ss. ss.items) result
        (sorts_in kinds.now (get (codes "sort") (view json.now))) }
{
    match json.get("sort") {
        None => Ok(Vec::new(alloc)),
        Some(member) => match member.as_array() {
            None => Err(QueryFault::Sort(RxText::new(alloc, "sort")?)),
            Some(items) => Ok(read_items(alloc, items.as_slice(), kinds)?),
        },
    }
}

fn read_count(json: &Json, name: &str) -> Option<u64>
    ensures { result ≡ count_at name.now (view json.now) }
{
    match json.get(name) {
        None => Some(0),
        Some(_) => whole_within(json, name, 0, MOST_ROWS),
    }
}
