ghost use Rattle.std.specs.Prelude.{◌≡◌, codes, option_map, IfOk};
ghost use Rattle.std.specs.List.{list_all};
ghost use Rattle.serde_json.specs.View.{view, items_view};
ghost use Rattle.rx_value.specs.Due.{Due};
ghost use Rattle.rx_value.specs.Form.{is_among};
ghost use Rattle.rx_value.specs.Name.{is_field_name};
ghost use Rattle.rx_schema.specs.Names.{texts_of, property_at, first_stranger, required_of, are_distinct, is_index, given_names, listed_of, index_of, each_index, index_list_of, is_bounded, is_bounded_if, first_unbounded, first_unbounded_in, indexes_of};
ghost use Rattle.rx_schema.specs.declared.fault.SchemaFault.TheVariants.{Memory};

use crate::fault::SchemaFault;
use crate::property::says;
use rx_value::{RxList, RxText, is_field_name};
use serde_json::Value as Json;
use std::alloc::{AllocError, Global};

/// The most fields of an index.
pub const MOST_INDEX_FIELDS: usize = 8;

// The texts of a list, or none where it holds anything else.
fn read_texts(alloc: Global, items: &[Json]) -> Result<Option<RxList<RxText>>, AllocError>
    ensures { IfOk result (λ texts. texts ≡ texts_of (items_view items.now)) }
{
    let mut texts = RxList::new(alloc);
    for item in items {
        let Some(text) = item.as_str() else {
            return Ok(None);
        };
        texts.push(RxText::new(alloc, text)?)?;
    }
    Ok(Some(texts))
}

pub(crate) fn property_at<'a>(json: &'a Json, name: &str) -> Option<&'a Json>
    ensures { option_map (λ p. view p.now) result ≡ property_at name.now (view json.now) }
{
    json.get("properties")?.get(name)
}

fn read_list(alloc: Global, json: &Json) -> Result<Option<RxList<RxText>>, AllocError>
    ensures { IfOk result (λ names. names ≡ listed_of (view json.now)) }
{
    match json.as_array() {
        Some(items) => read_texts(alloc, items.as_slice()),
        None => Ok(None),
    }
}

// The required names as they are listed, each a property.
pub(crate) fn read_required(alloc: Global, json: &Json) -> Result<RxList<RxText>, SchemaFault>
    ensures { Due Memory result (required_of (view json.now)) }
{
    let Some(member) = json.get("required") else {
        return Ok(RxList::new(alloc));
    };
    let Some(names) = read_list(alloc, member)? else {
        return Err(SchemaFault::Required(RxText::new(alloc, "required")?));
    };
    if let Some(name) = first_stranger(json, names.as_slice()) {
        return Err(SchemaFault::Required(RxText::new(alloc, name)?));
    }
    Ok(names)
}

fn first_stranger<'a>(json: &Json, names: &'a [RxText]) -> Option<&'a str>
    ensures { option_map (λ s. s.now) result ≡ first_stranger (view json.now) names.now }
{
    for name in names {
        if property_at(json, name.as_str()).is_none() {
            return Some(name.as_str());
        }
    }
    None
}

// The fields of each index: first all forms are tested, then all names.
pub(crate) fn read_indexes(
    alloc: Global,
    json: &Json,
) -> Result<RxList<RxList<RxText>>, SchemaFault>
    ensures { Due Memory result (indexes_of (view json.now)) }
{
    let Some(member) = json.get("indexes") else {
        return Ok(RxList::new(alloc));
    };
    let Some(indexes) = read_index_list(alloc, member)? else {
        return Err(SchemaFault::Index(RxText::new(alloc, "indexes")?));
    };
    if let Some(name) = first_unbounded_in(json, indexes.as_slice()) {
        return Err(SchemaFault::Index(RxText::new(alloc, name)?));
    }
    Ok(indexes)
}

fn read_index_list(alloc: Global, json: &Json) -> Result<Option<RxList<RxList<RxText>>>, AllocError>
    ensures { IfOk result (λ indexes. indexes ≡ index_list_of (view json.now)) }
{
    match json.as_array() {
        Some(items) => read_each_index(alloc, items.as_slice()),
        None => Ok(None),
    }
}

fn read_each_index(
    alloc: Global,
    items: &[Json],
) -> Result<Option<RxList<RxList<RxText>>>, AllocError>
    ensures { IfOk result (λ indexes. indexes ≡ each_index (items_view items.now)) }
{
    let mut indexes = RxList::new(alloc);
    for item in items {
        let Some(index) = read_index(alloc, item)? else {
            return Ok(None);
        };
        indexes.push(index)?;
    }
    Ok(Some(indexes))
}

fn read_index(alloc: Global, json: &Json) -> Result<Option<RxList<RxText>>, AllocError>
    ensures { IfOk result (λ index. index ≡ index_of (view json.now)) }
{
    let Some(names) = given_names(alloc, json)? else {
        return Ok(None);
    };
    if !is_index(names.as_slice()) {
        return Ok(None);
    }
    Ok(Some(names))
}

fn given_names(alloc: Global, json: &Json) -> Result<Option<RxList<RxText>>, AllocError>
    ensures { IfOk result (λ names. names ≡ given_names (view json.now)) }
{
    match json {
        Json::String(name) => {
            let mut names = RxList::new(alloc);
            names.push(RxText::new(alloc, name.as_str())?)?;
            Ok(Some(names))
        }
        Json::Array(items) => read_texts(alloc, items.as_slice()),
        _ => Ok(None),
    }
}

fn is_index(names: &[RxText]) -> bool
    ensures { result ≡ is_index names.now }
{
    !names.is_empty()
        && names.len() <= MOST_INDEX_FIELDS
        && are_field_names(names)
        && are_distinct(names)
}

fn are_field_names(names: &[RxText]) -> bool
    ensures { result ≡ list_all is_field_name names.now }
{
    names.iter().all(|name| is_field_name(name.as_str()))
}

fn are_distinct(names: &[RxText]) -> bool
    ensures { result ≡ are_distinct names.now }
{
    match names.split_first() {
        None => true,
        Some((first, rest)) => !is_listed(rest, first.as_str()) && are_distinct(rest),
    }
}

pub(crate) fn is_listed(names: &[RxText], name: &str) -> bool
    ensures { result ≡ is_among names.now name.now }
{
    for known in names {
        if known.as_str() == name {
            return true;
        }
    }
    false
}

fn first_unbounded_in<'a>(json: &Json, indexes: &'a [RxList<RxText>]) -> Option<&'a str>
    ensures { option_map (λ s. s.now) result ≡ first_unbounded_in (view json.now) indexes.now }
{
    for index in indexes {
        if let Some(name) = first_unbounded(json, index.as_slice()) {
            return Some(name);
        }
    }
    None
}

fn first_unbounded<'a>(json: &Json, names: &'a [RxText]) -> Option<&'a str>
    ensures { option_map (λ s. s.now) result ≡ first_unbounded (view json.now) names.now }
{
    for name in names {
        if !is_bounded_if(property_at(json, name.as_str())) {
            return Some(name.as_str());
        }
    }
    None
}

fn is_bounded_if(property: Option<&Json>) -> bool
    ensures { result ≡ is_bounded_if (option_map (λ p. view p.now) property.entry) }
{
    match property {
        Some(property) => is_bounded(property),
        None => false,
    }
}

// Whether a text has its length, and a number all its bounds.
fn is_bounded(property: &Json) -> bool
    ensures { result ≡ is_bounded (view property.now) }
{
    if says(property, "type", "boolean") {
        true
    } else if says(property, "type", "string") {
        property.get("maxLength").is_some()
    } else {
        property.get("minimum").is_some()
            && property.get("maximum").is_some()
            && property.get("multipleOf").is_some()
    }
}
