ghost use Rattle.std.specs.Prelude.{◌≡◌, ◌≤◌, IfOk, OnOk, Some, string_bytes, map};
ghost use Rattle.hex.specs.Hex.{encode_lower};
ghost use Rattle.serde_json.specs.Data.{array, number, object, put, string, unsigned};
ghost use Rattle.serde_json.specs.Find.{of_integer};
ghost use Rattle.serde_json.specs.Read.{read};
ghost use Rattle.serde_json.specs.View.{view, members_view, items_view, items_of};
ghost use Rattle.sha2.specs.Sha256.{sha256};
ghost use Rattle.rx_value.specs.Named.{AreRising};
ghost use Rattle.rx_schema.specs.declared.rule.Rule.TheVariants.{Int};
ghost use Rattle.rx_schema.specs.Writing.{names_data, rule_members, properties_members, schema_data, canonical_text, kind_of_rule, kinds_of};

use crate::rule::{Bounds, Rule};
use crate::shape::Shape;
use rx_value::{Kind, Kinds, RxList, RxText};
use serde_json::{Map, Value as Json};
use sha2::{Digest, Sha256};
use std::alloc::{AllocError, Global};

// The canonical text of a schema.
pub(crate) fn canonical_text(alloc: Global, shape: &Shape) -> Result<RxText, AllocError>
    requires { AreRising shape.now.properties }
    ensures text { IfOk result (λ t. t ≡ canonical_text shape.now) }
    ensures reads_back { IfOk result (λ t. read t ≡ Some (schema_data shape.now)) }
{
    let json = schema_json(alloc, shape)?;
    Ok(RxText::from_string(alloc, json.to_string(alloc)?)?)
}

// The SHA-256 of a text in lower-case hex.
pub(crate) fn hash_text(alloc: Global, text: &str) -> Result<RxText, AllocError>
    ensures { IfOk result (λ t. t ≡ encode_lower (sha256 text.now)) }
{
    let digest: [u8; 32] = Sha256::digest(text.as_bytes());
    Ok(RxText::from_string(alloc, hex::encode(alloc, digest)?)?)
}

// The kind of each property.
pub(crate) fn kinds_of(alloc: Global, properties: &[(RxText, Rule)]) -> Result<Kinds, AllocError>
    requires { AreRising properties.now }
    ensures { IfOk result (λ k. k ≡ kinds_of properties.now) }
{
    let mut pairs = Vec::with_capacity(alloc, properties.len())?;
    for (name, rule) in properties {
        pairs.push((name.copy(alloc)?, kind_of_rule(*rule)))?;
    }
    Ok(Kinds::new(pairs))
}

fn kind_of_rule(rule: Rule) -> Kind
    ensures { result ≡ kind_of_rule rule }
{
    match rule {
        Rule::Flag => Kind::Flag,
        Rule::Int(_) => Kind::Int,
        Rule::Text(_) => Kind::Text,
    }
}

fn schema_json(alloc: Global, shape: &Shape) -> Result<Json, AllocError>
    requires { AreRising shape.now.properties }
    ensures { IfOk result (λ j. view j ≡ schema_data shape.now) }
{
    let properties = properties_json(alloc, shape.properties.as_slice())?;
    let mut members = Map::new(alloc);
    put(
        alloc,
        &mut members,
        "indexes",
        indexes_json(alloc, shape.indexes.as_slice())?,
    )?;
    put(
        alloc,
        &mut members,
        "primaryKey",
        text(alloc, shape.primary.as_str())?,
    )?;
    put(alloc, &mut members, "properties", object(properties))?;
    put(
        alloc,
        &mut members,
        "required",
        names_json(alloc, shape.required.as_slice())?,
    )?;
    put(alloc, &mut members, "type", text(alloc, "object")?)?;
    put(alloc, &mut members, "version", whole(shape.version as u64))?;
    Ok(object(members))
}

fn properties_json(
    alloc: Global,
    properties: &[(RxText, Rule)],
) -> Result<Map<String, Json>, AllocError>
    requires { AreRising properties.now }
    ensures { IfOk result (λ m. members_view m.entries ≡ properties_members properties.now) }
{
    let mut members = Map::new(alloc);
    for (name, rule) in properties {
        put(
            alloc,
            &mut members,
            name.as_str(),
            object(rule_json(alloc, *rule)?),
        )?;
    }
    Ok(members)
}

fn rule_json(alloc: Global, rule: Rule) -> Result<Map<String, Json>, AllocError>
    ensures { IfOk result (λ m. members_view m.entries ≡ rule_members rule) }
{
    let mut members = Map::new(alloc);
    match rule {
        Rule::Flag => put(alloc, &mut members, "type", text(alloc, "boolean")?)?,
        Rule::Int(bounds) => return bounds_json(alloc, bounds),
        Rule::Text(most) => {
            put(alloc, &mut members, "maxLength", whole(most as u64))?;
            put(alloc, &mut members, "type", text(alloc, "string")?)?;
        }
    }
    Ok(members)
}

fn bounds_json(alloc: Global, bounds: Bounds) -> Result<Map<String, Json>, AllocError>
    ensures { IfOk result (λ m. members_view m.entries ≡ rule_members (Int bounds)) }
{
    let mut members = Map::new(alloc);
    put(alloc, &mut members, "type", text(alloc, "integer")?)?;
    if let Some(n) = bounds.multiple_of {
        put(alloc, &mut members, "multipleOf", integer(n))?;
    }
    if let Some(n) = bounds.minimum {
        put(alloc, &mut members, "minimum", integer(n))?;
    }
    if let Some(n) = bounds.maximum {
        put(alloc, &mut members, "maximum", integer(n))?;
    }
    Ok(members)
}

fn indexes_json(alloc: Global, indexes: &[RxList<RxText>]) -> Result<Json, AllocError>
    ensures { IfOk result (λ j. view j ≡ array (items_of (map names_data indexes.now))) }
{
    let mut items = Vec::with_capacity(alloc, indexes.len())?;
    for index in indexes {
        items.push(names_json(alloc, index.as_slice())?)?;
    }
    Ok(array(items))
}

fn names_json(alloc: Global, names: &[RxText]) -> Result<Json, AllocError>
    ensures { IfOk result (λ j. view j ≡ names_data names.now) }
{
    let mut items = Vec::with_capacity(alloc, names.len())?;
    for name in names {
        items.push(text(alloc, name.as_str())?)?;
    }
    Ok(array(items))
}

// Puts a member into an object.
fn put(
    alloc: Global,
    members: &mut Map<String, Json>,
    name: &str,
    value: Json,
) -> Result<(), AllocError>
    ensures { OnOk result (members_view members.new.entries
        ≡ put name.now (view value) (members_view members.old.entries)) }
{
    members.insert(String::from_str(alloc, name)?, value)?;
    Ok(())
}

fn text(alloc: Global, text: &str) -> Result<Json, AllocError>
    ensures { IfOk result (λ j. view j ≡ string text.now) }
{
    Ok(Json::String(String::from_str(alloc, text)?))
}

fn whole(n: u64) -> Json
    ensures { view result ≡ number (unsigned n) }
{
    Json::from(n)
}

fn integer(n: i64) -> Json
    ensures { view result ≡ number (of_integer n) }
{
    Json::from(n)
}

fn object(members: Map<String, Json>) -> Json
    ensures { view result ≡ object (members_view members.entries) }
{
    Json::Object(members)
}

fn array(items: Vec<Json>) -> Json
    ensures { view result ≡ array (items_view items.items) }
{
    Json::Array(items)
}
