// The members of a message: which there are, and the numbers and the place among them.
ghost use Rattle.std.specs.Prelude.{◌≡◌, ◌≤◌, IfOk, option_map};
ghost use Rattle.serde_json.specs.View.{view};
ghost use Rattle.rx_value.specs.Due.{Due};
ghost use Rattle.rx_value.specs.Form.{texts};
ghost use Rattle.rx_wire.specs.Form.{has_needed, has_form, number_at, count_at, place_of, maybe_place, place_at};
ghost use Rattle.rx_wire.specs.declared.fault.WireFault.TheVariants.{Memory};

use crate::fault::WireFault;
use rx_document::Place;
use rx_value::{LARGEST, RxText, first_missing, first_unexpected, text_at, whole_within};
use serde_json::Value as Json;
use std::alloc::{AllocError, Global};

pub(crate) fn check_needed(alloc: Global, json: &Json, needed: &[&str]) -> Result<(), WireFault>
    ensures { Due Memory result (has_needed (texts needed.now) (view json.now)) }
{
    match first_missing(json, needed) {
        Some(name) => Err(WireFault::Missing(RxText::new(alloc, name)?)),
        None => Ok(()),
    }
}

pub(crate) fn check_form(
    alloc: Global,
    json: &Json,
    needed: &[&str],
    optional: &[&str],
) -> Result<(), WireFault>
    ensures { Due Memory result (has_form (texts needed.now) (texts optional.now) (view json.now)) }
{
    check_needed(alloc, json, needed)?;
    match first_unexpected(json, needed, optional) {
        Some(name) => Err(WireFault::Unexpected(RxText::new(alloc, name)?)),
        None => Ok(()),
    }
}

pub(crate) fn read_number(
    alloc: Global,
    json: &Json,
    name: &str,
    most: u64,
) -> Result<u64, WireFault>
    ensures due { Due Memory result (number_at name.now most (view json.now)) }
    ensures most { IfOk result (λ n. n ≤ most) }
{
    match whole_within(json, name, 1, most) {
        Some(number) => Ok(number),
        None => Err(WireFault::WrongType(RxText::new(alloc, name)?)),
    }
}

pub(crate) fn read_count(alloc: Global, json: &Json, name: &str) -> Result<u64, WireFault>
    ensures { Due Memory result (count_at name.now (view json.now)) }
{
    read_number(alloc, json, name, LARGEST as u64)
}

pub(crate) fn read_place(alloc: Global, json: &Json) -> Result<Option<Place>, WireFault>
    ensures { Due Memory result (place_at (view json.now)) }
{
    maybe_place(alloc, json.get("place"))
}

fn maybe_place(alloc: Global, json: Option<&Json>) -> Result<Option<Place>, WireFault>
    ensures { Due Memory result (maybe_place (option_map (λ j. view j.now) json.entry)) }
{
    let Some(json) = json else {
        return Ok(None);
    };
    match place_of(alloc, json)? {
        Some(place) => Ok(Some(place)),
        None => Err(WireFault::WrongType(RxText::new(alloc, "place")?)),
    }
}

fn place_of(alloc: Global, json: &Json) -> Result<Option<Place>, AllocError>
    ensures { IfOk result (λ o. o ≡ place_of (view json.now)) }
{
    let Some(id) = text_at(json, "id") else {
        return Ok(None);
    };
    let Some(lwt) = whole_within(json, "lwt", 1, LARGEST as u64) else {
        return Ok(None);
    };
    if first_unexpected(json, &["id", "lwt"], &[]).is_some() {
        return Ok(None);
    }
    let id = RxText::new(alloc, id)?;
    Ok(Some(Place { lwt, id }))
}
