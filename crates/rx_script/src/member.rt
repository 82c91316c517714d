// The members of a line, and their kinds.
ghost use Rattle.std.specs.Prelude.{◌≡◌, ◌≤◌, true, map, option_map, IfOk, OnOk};
ghost use Rattle.std.specs.List.{list_all};
ghost use Rattle.serde_json.specs.View.{view};
ghost use Rattle.rx_value.specs.Due.{Due};
ghost use Rattle.rx_value.specs.Form.{texts};
ghost use Rattle.rx_value.specs.Name.{is_name};
ghost use Rattle.rx_value.specs.Value.{largest};
ghost use Rattle.rx_script.specs.Member.{has_needed, has_form, is_object, a_text, maybe_text, an_object, objects, a_moment, maybe_whole, a_count, a_name, a_when, when_of, some_steps, json_at, items_of, are_objects};
ghost use Rattle.rx_script.specs.declared.fault.LineFault.TheVariants.{Memory};

use crate::fault::LineFault;
use rx_migrate::{Steps, StepsFault};
use rx_update::When;
use rx_value::{
    LARGEST, RxText, first_missing, first_unexpected, is_name, text_at, whole_at, whole_within,
};
use serde_json::Value as Json;
use std::alloc::Global;

pub(crate) fn check_needed(alloc: Global, json: &Json, needed: &[&str]) -> Result<(), LineFault>
    ensures { Due Memory result (has_needed (texts needed.now) (view json.now)) }
{
    match first_missing(json, needed) {
        Some(name) => Err(LineFault::Missing(RxText::new(alloc, name)?)),
        None => Ok(()),
    }
}

pub(crate) fn check_form(
    alloc: Global,
    json: &Json,
    needed: &[&str],
    optional: &[&str],
) -> Result<(), LineFault>
    ensures { Due Memory result (has_form (texts needed.now) (texts optional.now) (view json.now)) }
{
    check_needed(alloc, json, needed)?;
    match first_unexpected(json, needed, optional) {
        Some(name) => Err(LineFault::Unexpected(RxText::new(alloc, name)?)),
        None => Ok(()),
    }
}

pub(crate) fn read_text(alloc: Global, json: &Json, name: &str) -> Result<RxText, LineFault>
    ensures { Due Memory result (a_text name.now (view json.now)) }
{
    match text_at(json, name) {
        Some(text) => Ok(RxText::new(alloc, text)?),
        None => Err(LineFault::WrongType(RxText::new(alloc, name)?)),
    }
}

pub(crate) fn read_maybe_text(
    alloc: Global,
    json: &Json,
    name: &str,
) -> Result<Option<RxText>, LineFault>
    ensures { Due Memory result (maybe_text name.now (view json.now)) }
{
    if json.get(name).is_none() {
        return Ok(None);
    }
    Ok(Some(read_text(alloc, json, name)?))
}

pub(crate) fn check_object(alloc: Global, json: &Json, name: &str) -> Result<(), LineFault>
    ensures exact { Due Memory result (an_object name.now (view json.now)) }
    ensures object { OnOk result (is_object (json_at name.now (view json.now)) ≡ true) }
{
    match json.get(name) {
        Some(member) if member.is_object() => Ok(()),
        _ => Err(LineFault::WrongType(RxText::new(alloc, name)?)),
    }
}

pub(crate) fn check_objects(alloc: Global, json: &Json, name: &str) -> Result<(), LineFault>
    ensures exact { Due Memory result (objects name.now (view json.now)) }
    ensures objects { OnOk result
        (list_all is_object (items_of (json_at name.now (view json.now))) ≡ true) }
{
    match json.get(name) {
        Some(member) if are_objects(member) => Ok(()),
        _ => Err(LineFault::WrongType(RxText::new(alloc, name)?)),
    }
}

fn are_objects(json: &Json) -> bool
    ensures { result ≡ are_objects (view json.now) }
{
    match json.as_array() {
        Some(items) => each_object(items.as_slice()),
        None => false,
    }
}

fn each_object(items: &[Json]) -> bool
    ensures { result ≡ list_all (λ j. is_object (view j)) items.now }
{
    items.iter().all(|item| item.is_object())
}

pub(crate) fn read_moment(alloc: Global, json: &Json, name: &str) -> Result<u64, LineFault>
    ensures exact { Due Memory result (a_moment name.now (view json.now)) }
    ensures most { IfOk result (λ at. at ≤ largest) }
{
    match whole_within(json, name, 0, LARGEST as u64) {
        Some(at) => Ok(at),
        None => Err(LineFault::WrongType(RxText::new(alloc, name)?)),
    }
}

// A whole number, however great, or none.
pub(crate) fn check_maybe_whole(alloc: Global, json: &Json, name: &str) -> Result<(), LineFault>
    ensures { Due Memory result (maybe_whole name.now (view json.now)) }
{
    if json.get(name).is_none() || whole_at(json, name).is_some() {
        Ok(())
    } else {
        Err(LineFault::WrongType(RxText::new(alloc, name)?))
    }
}

// The whole number of that member, from 1 to the most; where it is missing, the one that is meant.
pub(crate) fn read_count(
    alloc: Global,
    json: &Json,
    name: &str,
    most: u32,
    meant: u32,
) -> Result<u32, LineFault>
    ensures exact { Due Memory result (a_count name.now most meant (view json.now)) }
    ensures limits { 1 ≤ meant → meant ≤ most → IfOk result (λ n. (1 ≤ n) × (n ≤ most)) }
{
    if json.get(name).is_none() {
        return Ok(meant);
    }
    match whole_within(json, name, 1, most as u64) {
        Some(number) => Ok(number as u32),
        None => Err(LineFault::Batch(RxText::new(alloc, name)?)),
    }
}

// The writes before which a hook stands.
pub(crate) fn read_when(alloc: Global, json: &Json, name: &str) -> Result<When, LineFault>
    ensures { Due Memory result (a_when name.now (view json.now)) }
{
    match when_by_word(text_at(json, name)) {
        Some(when) => Ok(when),
        None => Err(LineFault::WrongType(RxText::new(alloc, name)?)),
    }
}

fn when_by_word(word: Option<&str>) -> Option<When>
    ensures { result ≡ when_of (option_map (λ t. t.now) word.entry) }
{
    match word? {
        "insert" => Some(When::Insert),
        "save" => Some(When::Save),
        "remove" => Some(When::Remove),
        _ => None,
    }
}

// The steps of a migration.
pub(crate) fn read_steps(alloc: Global, json: &Json, name: &str) -> Result<Steps, LineFault>
    ensures { Due Memory result (some_steps name.now (view json.now)) }
{
    let Some(member) = json.get(name) else {
        return Err(LineFault::WrongType(RxText::new(alloc, name)?));
    };
    match Steps::read(alloc, member) {
        Ok(steps) => Ok(steps),
        Err(StepsFault::NotSteps) => Err(LineFault::WrongType(RxText::new(alloc, name)?)),
        Err(StepsFault::Memory) => Err(LineFault::Memory),
    }
}

// The text of that member is a name.
pub(crate) fn check_name(alloc: Global, member: &str, text: &RxText) -> Result<(), LineFault>
    ensures exact { Due Memory result (a_name member.now text.now) }
    ensures name { OnOk result (is_name text.now ≡ true) }
{
    if is_name(text.as_str()) {
        Ok(())
    } else {
        Err(LineFault::Name(RxText::new(alloc, member)?))
    }
}

// Moves a member out of an object: null, where there is none.
pub(crate) fn take_json(json: &mut Json, name: &str) -> Json
    ensures { view result ≡ json_at name.now (view json.old) }
{
    match json.as_object_mut() {
        Some(members) => members.remove(name).unwrap_or(Json::Null),
        None => Json::Null,
    }
}

// Moves the items of a list out of an object: none, where there is no list.
pub(crate) fn take_items(alloc: Global, json: &mut Json, name: &str) -> Vec<Json>
    ensures { map view result.items ≡ items_of (json_at name.now (view json.old)) }
{
    match take_json(json, name) {
        Json::Array(items) => items,
        _ => Vec::new(alloc),
    }
}
