ghost use Rattle.std.specs.Prelude.{◌≡◌, [], IfOk, option_map};
ghost use Rattle.serde_json.specs.View.{view, items_view};
ghost use Rattle.rx_value.specs.Due.{DueBy};
ghost use Rattle.rx_script.specs.Delivery.{delivery_of, deliveries_after, deliveries_of, maybe_deliveries};
ghost use Rattle.rx_script.specs.declared.fault.LineFault.TheVariants.{Memory};

use crate::fault::LineFault;
use rx_value::RxText;
use serde_json::Value as Json;
use std::alloc::{AllocError, Global};

/// What the link does to one queued event.
#[derive(Debug, Clone, Copy)]
pub enum Delivery {
    /// The event is given once.
    Ok,
    /// The event is dropped.
    Lose,
    /// The event is given twice.
    Twice,
    /// The event is put off, to the end of the queue.
    Later,
}

pub(crate) fn read_maybe_deliveries(
    alloc: Global,
    json: &Json,
    name: &str,
) -> Result<Option<Vec<Delivery>>, LineFault>
    ensures { DueBy Memory (option_map (λ l. l.items)) result
        (maybe_deliveries name.now (view json.now)) }
{
    let Some(member) = json.get(name) else {
        return Ok(None);
    };
    match link_in(alloc, member)? {
        Some(link) => Ok(Some(link)),
        None => Err(LineFault::WrongType(RxText::new(alloc, name)?)),
    }
}

// The deliveries of a list, where each item is one.
fn link_in(alloc: Global, json: &Json) -> Result<Option<Vec<Delivery>>, AllocError>
    ensures { IfOk result (λ link. option_map (λ l. l.items) link
        ≡ deliveries_of (view json.now)) }
{
    match json.as_array() {
        Some(items) => deliveries_in(alloc, items.as_slice()),
        None => Ok(None),
    }
}

fn deliveries_in(alloc: Global, items: &[Json]) -> Result<Option<Vec<Delivery>>, AllocError>
    ensures { IfOk result (λ link. option_map (λ l. l.items) link
        ≡ deliveries_after [] (items_view items.now)) }
{
    let mut link = Vec::new(alloc);
    for item in items {
        let Some(delivery) = delivery_in(item) else {
            return Ok(None);
        };
        link.push(delivery)?;
    }
    Ok(Some(link))
}

fn delivery_in(json: &Json) -> Option<Delivery>
    ensures { result ≡ delivery_of (view json.now) }
{
    match json.as_str()? {
        "ok" => Some(Delivery::Ok),
        "lose" => Some(Delivery::Lose),
        "twice" => Some(Delivery::Twice),
        "later" => Some(Delivery::Later),
        _ => None,
    }
}
