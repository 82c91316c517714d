ghost use Rattle.std.specs.Prelude.{◌≡◌, ◌∷◌, [], codes, option_map, IfOk, IfSome, ◌≤◌, sum_by, nat_le};
ghost use Rattle.serde_json.specs.Find.{get};
ghost use Rattle.serde_json.specs.View.{view, members_view};
ghost use Rattle.rx_value.specs.Due.{Due, DueBy};
ghost use Rattle.rx_value.specs.Form.{unexpected};
ghost use Rattle.rx_value.specs.Named.{AreRising};
ghost use Rattle.rx_schema.specs.Names.{property_at};
ghost use Rattle.rx_schema.specs.Property.{most_code_points};
ghost use Rattle.rx_schema.specs.Reading.{schema_words, is_off, known_schema, version_of, properties_of, is_key, primary_of, code_points_of, few_enough, required_names, schema_of};
ghost use Rattle.rx_schema.specs.declared.fault.SchemaFault.TheVariants.{Memory};

use crate::fault::SchemaFault;
use crate::names::{is_listed, property_at, read_indexes, read_required};
use crate::property::{MOST_CODE_POINTS, check_text, check_word, read_property, says};
use crate::rule::Rule;
use crate::shape::Shape;
use rx_value::{RxList, RxText, first_unexpected, text_at, whole_within};
use serde_json::{Map, Value as Json};
use std::alloc::{AllocError, Global};

/// The most properties of a schema.
pub const MOST_PROPERTIES: usize = 64;

/// The most indexes of a schema.
pub const MOST_INDEXES: usize = 16;

/// The greatest version.
pub const MOST_VERSION: u64 = 65_535;

// What a JSON value says as a schema, or the first fault.
pub(crate) fn read_shape(alloc: Global, json: &Json) -> Result<Shape, SchemaFault>
    ensures exact { Due Memory result (schema_of (view json.now)) }
    ensures rising { IfOk result (λ s. AreRising s.properties) }
{
    if !json.is_object() {
        return Err(SchemaFault::NotObject);
    }
    let members = read_words(alloc, json)?;
    let version = read_version(json)?;
    let properties = read_properties(alloc, members)?;
    let primary = read_primary(alloc, json)?;
    let listed = read_required(alloc, json)?;
    let indexes = read_indexes(alloc, json)?;
    check_counts(properties.as_slice(), indexes.as_slice())?;
    Ok(Shape {
        version,
        required: required_names(alloc, &primary, &listed, &properties)?,
        primary,
        properties,
        indexes,
    })
}

// The words are known and in their form. Lends the members of `properties`.
fn read_words(alloc: Global, json: &Json) -> Result<&Map<String, Json>, SchemaFault>
    ensures { DueBy Memory (λ m. members_view m.now.entries) result (known_schema (view json.now)) }
{
    check_word(alloc, foreign_word(json))?;
    if !says(json, "type", "object") {
        return Err(SchemaFault::Keyword(RxText::new(alloc, "type")?));
    }
    let Some(members) = json.get("properties").and_then(Json::as_object) else {
        return Err(SchemaFault::Keyword(RxText::new(alloc, "properties")?));
    };
    if !is_off(json.get("keyCompression")) {
        return Err(SchemaFault::Keyword(RxText::new(alloc, "keyCompression")?));
    }
    check_text(alloc, json, "title")?;
    check_text(alloc, json, "description")?;
    Ok(members)
}

fn foreign_word(json: &Json) -> Option<&str>
    ensures { option_map (λ s. s.now) result ≡ unexpected [] schema_words (view json.now) }
{
    first_unexpected(
        json,
        &[],
        &[
            "version",
            "primaryKey",
            "type",
            "properties",
            "required",
            "indexes",
            "title",
            "description",
            "keyCompression",
        ],
    )
}

fn is_off(json: Option<&Json>) -> bool
    ensures { result ≡ is_off (option_map (λ j. view j.now) json.entry) }
{
    match json {
        None => true,
        Some(json) => match json.as_bool() {
            Some(on) => !on,
            None => false,
        },
    }
}

fn read_version(json: &Json) -> Result<u16, SchemaFault>
    ensures { result ≡ version_of (view json.now) }
{
    match whole_within(json, "version", 0, MOST_VERSION) {
        Some(version) => Ok(version as u16),
        None => Err(SchemaFault::Version),
    }
}

// The properties by rising name, with their rules.
fn read_properties(
    alloc: Global,
    members: &Map<String, Json>,
) -> Result<RxList<(RxText, Rule)>, SchemaFault>
    ensures exact { Due Memory result (properties_of (members_view members.now.entries)) }
    ensures rising { IfOk result (λ ps. AreRising ps) }
{
    let mut properties = RxList::new(alloc);
    for (name, member) in members.iter() {
        let rule = read_property(alloc, name.as_str(), member)?;
        properties.push((RxText::new(alloc, name.as_str())?, rule))?;
    }
    Ok(properties)
}

fn read_primary(alloc: Global, json: &Json) -> Result<RxText, SchemaFault>
    ensures { Due Memory result (primary_of (view json.now)) }
{
    let Some(key) = text_at(json, "primaryKey") else {
        return Err(SchemaFault::Primary);
    };
    if !is_key(property_at(json, key)) {
        return Err(SchemaFault::Primary);
    }
    Ok(RxText::new(alloc, key)?)
}

// Whether that is a text property with a length.
fn is_key(property: Option<&Json>) -> bool
    ensures { result ≡ is_key (option_map (λ p. view p.now) property.entry) }
{
    match property {
        Some(property) => says(property, "type", "string") && property.get("maxLength").is_some(),
        None => false,
    }
}

fn check_counts(
    properties: &[(RxText, Rule)],
    indexes: &[RxList<RxText>],
) -> Result<(), SchemaFault>
    ensures { result ≡ few_enough properties.now indexes.now }
{
    let few = properties.len() <= MOST_PROPERTIES && indexes.len() <= MOST_INDEXES;
    if few && are_short(properties) {
        Ok(())
    } else {
        Err(SchemaFault::TooMany)
    }
}

fn are_short(properties: &[(RxText, Rule)]) -> bool
    ensures { result ≡ nat_le (sum_by (λ p. code_points_of p.1) properties.now) most_code_points }
{
    let mut left = MOST_CODE_POINTS;
    for property in properties {
        let taken = code_points_of(property.1);
        if left < taken {
            return false;
        }
        left -= taken;
    }
    true
}

fn code_points_of(rule: Rule) -> u32
    ensures { result ≡ code_points_of rule }
{
    match rule {
        Rule::Flag | Rule::Int(_) => 0,
        Rule::Text(most) => most,
    }
}

// The names of the properties that are required: the primary key and those listed.
fn required_names(
    alloc: Global,
    primary: &RxText,
    listed: &RxList<RxText>,
    properties: &RxList<(RxText, Rule)>,
) -> Result<RxList<RxText>, AllocError>
    ensures { IfOk result (λ names. names ≡ required_names primary.now listed.now properties.now) }
{
    let mut names = RxList::new(alloc);
    for (name, _rule) in properties.as_slice() {
        if name == primary || is_listed(listed.as_slice(), name.as_str()) {
            names.push(name.copy(alloc)?)?;
        }
    }
    Ok(names)
}
