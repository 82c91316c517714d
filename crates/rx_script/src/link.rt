ghost use Rattle.std.specs.Prelude.{◌≡◌, ◌≤◌, [], IfOk, IfSome, option_map};
ghost use Rattle.std.specs.List.{AllByRecursion};
ghost use Rattle.serde_json.specs.View.{view, items_view};
ghost use Rattle.rx_value.specs.Due.{Due, DueBy};
ghost use Rattle.rx_script.specs.Link.{happening_of, late_of, happenings_after, link_of, maybe_link, IsHappening, max_late};
ghost use Rattle.rx_script.specs.declared.fault.LineFault.TheVariants.{Memory};

use crate::fault::LineFault;
use crate::happening::Happening;
use rx_value::{RxText, first_unexpected, whole_within};
use serde_json::Value as Json;
use std::alloc::{AllocError, Global};

// How many requests back a late one may be.
const MAX_LATE: u64 = 16;

pub(crate) fn read_maybe_link(
    alloc: Global,
    json: &Json,
    name: &str,
) -> Result<Option<Vec<Happening>>, LineFault>
    ensures exact { DueBy Memory (option_map (λ l. l.items)) result
        (maybe_link name.now (view json.now)) }
    ensures late { IfOk result (λ link. IfSome link (λ l. AllByRecursion IsHappening l.items)) }
{
    let Some(member) = json.get(name) else {
        return Ok(None);
    };
    match link_in(alloc, member)? {
        Some(link) => Ok(Some(link)),
        None => Err(LineFault::WrongType(RxText::new(alloc, name)?)),
    }
}

// The happenings of a list, where each item is one.
fn link_in(alloc: Global, json: &Json) -> Result<Option<Vec<Happening>>, AllocError>
    ensures exact { IfOk result (λ link. option_map (λ l. l.items) link ≡ link_of (view json.now)) }
    ensures late { IfOk result (λ link. IfSome link (λ l. AllByRecursion IsHappening l.items)) }
{
    match json.as_array() {
        Some(items) => happenings_in(alloc, items.as_slice()),
        None => Ok(None),
    }
}

fn happenings_in(alloc: Global, items: &[Json]) -> Result<Option<Vec<Happening>>, AllocError>
    ensures exact { IfOk result (λ link. option_map (λ l. l.items) link
        ≡ happenings_after [] (items_view items.now)) }
    ensures late { IfOk result (λ link. IfSome link (λ l. AllByRecursion IsHappening l.items)) }
{
    let mut link = Vec::new(alloc);
    for item in items {
        let Some(happening) = happening_in(item) else {
            return Ok(None);
        };
        link.push(happening)?;
    }
    Ok(Some(link))
}

fn happening_in(json: &Json) -> Option<Happening>
    ensures exact { result ≡ happening_of (view json.now) }
    ensures late { IfSome result IsHappening }
{
    match json.as_str() {
        Some("ok") => Some(Happening::Ok),
        Some("lose_request") => Some(Happening::LoseRequest),
        Some("lose_reply") => Some(Happening::LoseReply),
        Some("twice") => Some(Happening::Twice),
        Some("stale") => Some(Happening::Stale),
        Some(_) => None,
        None => Some(Happening::Late(late_in(json)?)),
    }
}

// The number of an object of exactly the member `late`.
fn late_in(json: &Json) -> Option<u8>
    ensures exact { result ≡ late_of (view json.now) }
    ensures limits { IfSome result (λ back. (1 ≤ back) × (back ≤ max_late)) }
{
    if first_unexpected(json, &["late"], &[]).is_some() {
        return None;
    }
    let back = whole_within(json, "late", 1, MAX_LATE)?;
    Some(back as u8)
}
