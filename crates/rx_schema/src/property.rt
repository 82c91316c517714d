ghost use Rattle.std.specs.Prelude.{◌≡◌, ◌∷◌, [], codes, option_map, Ok, IfSome, ◌≤◌};
ghost use Rattle.serde_json.specs.View.{view};
ghost use Rattle.rx_value.specs.Due.{Due};
ghost use Rattle.rx_value.specs.Form.{unexpected};
ghost use Rattle.rx_schema.specs.Property.{no_keyword, says, told, kind_called, kind_of, property_words, known_property, length_of, bound_at, is_range, bounds_of, rule_of, property_of};
ghost use Rattle.rx_schema.specs.declared.fault.SchemaFault.TheVariants.{Memory};

use crate::fault::SchemaFault;
use crate::rule::{Bounds, Rule};
use rx_value::{
    Kind, LARGEST, RxText, first_unexpected, integer_within, is_field_name, text_at, whole_within,
};
use serde_json::Value as Json;
use std::alloc::Global;

/// The most code points of a text, and of all texts of a document together.
pub const MOST_CODE_POINTS: u32 = 131_072;

/// The most code points of a text whose property gives no length.
pub const USUAL_CODE_POINTS: u32 = 8_192;

// The rule of a property, or its first fault.
pub(crate) fn read_property(alloc: Global, name: &str, json: &Json) -> Result<Rule, SchemaFault>
    ensures { Due Memory result (property_of name.now (view json.now)) }
{
    if !is_field_name(name) {
        return Err(SchemaFault::FieldName(RxText::new(alloc, name)?));
    }
    let Some(kind) = kind_of(json) else {
        return Err(SchemaFault::Kind(RxText::new(alloc, name)?));
    };
    check_words(alloc, kind, json)?;
    let Some(rule) = rule_of(kind, json) else {
        return Err(SchemaFault::Bounds(RxText::new(alloc, name)?));
    };
    Ok(rule)
}

fn kind_of(json: &Json) -> Option<Kind>
    ensures { result ≡ kind_of (view json.now) }
{
    kind_called(json, text_at(json, "type")?)
}

fn kind_called(json: &Json, name: &str) -> Option<Kind>
    ensures { result ≡ kind_called (view json.now) name.now }
{
    if name == "string" {
        Some(Kind::Text)
    } else if name == "integer" || name == "number" && json.get("multipleOf").is_some() {
        Some(Kind::Int)
    } else if name == "boolean" {
        Some(Kind::Flag)
    } else {
        None
    }
}

fn check_words(alloc: Global, kind: Kind, json: &Json) -> Result<(), SchemaFault>
    ensures { Due Memory result (known_property kind (view json.now)) }
{
    check_word(alloc, foreign_word(kind, json))?;
    check_text(alloc, json, "title")?;
    check_text(alloc, json, "description")?;
    check_text(alloc, json, "format")
}

fn foreign_word(kind: Kind, json: &Json) -> Option<&str>
    ensures { option_map (λ s. s.now) result
        ≡ unexpected (codes "type" ∷ []) (property_words kind) (view json.now) }
{
    match kind {
        Kind::Flag => first_unexpected(json, &["type"], &["title", "description", "format"]),
        Kind::Int => first_unexpected(
            json,
            &["type"],
            &[
                "title",
                "description",
                "format",
                "minimum",
                "maximum",
                "multipleOf",
            ],
        ),
        Kind::Text => first_unexpected(
            json,
            &["type"],
            &["title", "description", "format", "maxLength"],
        ),
    }
}

// Faults the word that was found, if one was.
pub(crate) fn check_word(alloc: Global, word: Option<&str>) -> Result<(), SchemaFault>
    ensures { Due Memory result (no_keyword (option_map (λ s. s.now) word.entry)) }
{
    match word {
        Some(word) => Err(SchemaFault::Keyword(RxText::new(alloc, word)?)),
        None => Ok(()),
    }
}

// What is given at that name is a text.
pub(crate) fn check_text(alloc: Global, json: &Json, name: &str) -> Result<(), SchemaFault>
    ensures { Due Memory result (told name.now (view json.now)) }
{
    if json.get(name).is_some() && text_at(json, name).is_none() {
        return Err(SchemaFault::Keyword(RxText::new(alloc, name)?));
    }
    Ok(())
}

// Whether the text at a name is that word.
pub(crate) fn says(json: &Json, name: &str, word: &str) -> bool
    ensures { result ≡ says name.now word.now (view json.now) }
{
    match text_at(json, name) {
        Some(text) => text == word,
        None => false,
    }
}

fn rule_of(kind: Kind, json: &Json) -> Option<Rule>
    ensures { result ≡ rule_of kind (view json.now) }
{
    match kind {
        Kind::Flag => Some(Rule::Flag),
        Kind::Int => Some(Rule::Int(bounds_of(json)?)),
        Kind::Text => Some(Rule::Text(length_of(json)?)),
    }
}

fn length_of(json: &Json) -> Option<u32>
    ensures { result ≡ length_of (view json.now) }
{
    if json.get("maxLength").is_none() {
        return Some(USUAL_CODE_POINTS);
    }
    let length = whole_within(json, "maxLength", 1, MOST_CODE_POINTS as u64)?;
    Some(length as u32)
}

fn bounds_of(json: &Json) -> Option<Bounds>
    ensures { result ≡ bounds_of (view json.now) }
{
    let minimum = bound_at(json, "minimum", -LARGEST)?;
    let maximum = bound_at(json, "maximum", -LARGEST)?;
    let multiple_of = bound_at(json, "multipleOf", 1)?;
    if !is_range(minimum, maximum) {
        return None;
    }
    Some(Bounds {
        minimum,
        maximum,
        multiple_of,
    })
}

// A number of at least `low` that may be left out, as the inner option tells.
fn bound_at(json: &Json, name: &str, low: i64) -> Option<Option<i64>>
    ensures { result ≡ bound_at name.now low (view json.now) }
{
    if json.get(name).is_none() {
        return Some(None);
    }
    Some(Some(integer_within(json, name, low, LARGEST)?))
}

fn is_range(low: Option<i64>, high: Option<i64>) -> bool
    ensures { result ≡ is_range low high }
{
    match (low, high) {
        (Some(low), Some(high)) => low <= high,
        _ => true,
    }
}
