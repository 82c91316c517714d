ghost use Rattle.std.specs.Prelude.{◌≡◌, length, option_map, IfOk};
ghost use Rattle.std.specs.Str.{chars};
ghost use Rattle.rx_value.specs.Named.{named, AreRising};
ghost use Rattle.rx_value.specs.State.{mark};
ghost use Rattle.rx_schema.specs.Lent.{value_lent, takes};
ghost use Rattle.rx_schema.specs.Validity.{outcome, is_within, is_multiple, is_long_enough, fault_of, first_missing, first_unknown, first_bad, first_fault, HasKey};

use crate::lent_value::LentValue;
use crate::rule::{Bounds, Rule};
use crate::shape::Shape;
use rx_value::{Fields, RxText, Value};

// So many properties are looked through for a name, and more are searched.
const FEW: usize = 8;

/// What keeps fields from being valid, with the name of the field.
#[derive(Debug, Drop)]
pub enum Invalid<'a> {
    Missing(&'a str),
    Unknown(&'a str),
    Kind(&'a str),
    Bounds(&'a str),
    Length(&'a str),
}

// The first fault of the fields: first the required ones that are missing, then the unknown ones,
// then the values.
#[tactic(auto, using(crate::proofs::Valid::known))]
pub(crate) fn first_fault<'a>(shape: &'a Shape, fields: &'a Fields) -> Result<(), Invalid<'a>>
    requires { AreRising shape.now.properties }
    ensures { outcome result ≡ first_fault shape.now fields.now }
{
    if let Some(name) = first_missing(shape.required.as_slice(), fields) {
        return Err(Invalid::Missing(name));
    }
    // A field that is unknown is bad too, so where none is bad it isn't looked for.
    let Err(bad) = first_bad(shape, fields) else {
        return Ok(());
    };
    match first_unknown(shape.properties.as_slice(), fields) {
        Some(name) => Err(Invalid::Unknown(name)),
        None => Err(bad),
    }
}

fn first_missing<'a>(names: &'a [RxText], fields: &Fields) -> Option<&'a str>
    ensures { option_map (λ n. n.now) result ≡ first_missing names.now fields.now }
{
    for name in names {
        if fields.get(name.as_str()).is_none() {
            return Some(name.as_str());
        }
    }
    None
}

#[tactic(auto, using(rx_value::proofs::Lists::drop_suc))]
fn first_unknown<'a>(rules: &[(RxText, Rule)], fields: &'a Fields) -> Option<&'a str>
    requires { AreRising rules.now }
    ensures { option_map (λ n. n.now) result ≡ first_unknown rules.now fields.now }
{
    for i in 0..fields.len() {
        let (name, _value) = fields.at(i);
        if find_rule(rules, name.as_str()).is_none() {
            return Some(name.as_str());
        }
    }
    None
}

#[tactic(auto, using(rx_value::proofs::Lists::drop_suc))]
fn first_bad<'a>(shape: &Shape, fields: &'a Fields) -> Result<(), Invalid<'a>>
    requires { AreRising shape.now.properties }
    ensures { outcome result ≡ first_bad shape.now fields.now }
{
    for i in 0..fields.len() {
        let (name, value) = fields.at(i);
        let value = lend(value);
        let rule = find_rule(shape.properties.as_slice(), name.as_str());
        if let Err(fault) = check_value(rule, *name == shape.primary, name.as_str(), value) {
            return Err(fault);
        }
    }
    Ok(())
}

// Whether a field of that name may have the value.
pub(crate) fn takes(shape: &Shape, name: &str, value: LentValue<'_>) -> bool
    requires { AreRising shape.now.properties }
    ensures { result ≡ takes shape.now name.now (value_lent value.entry) }
{
    let rule = find_rule(shape.properties.as_slice(), name);
    check_value(rule, name == shape.primary.as_str(), name, value).is_ok()
}

fn lend(value: &Value) -> LentValue<'_>
    ensures { value_lent result ≡ value.now }
{
    match value {
        Value::Flag(flag) => LentValue::Flag(*flag),
        Value::Int(number) => LentValue::Int(*number),
        Value::Text(text) => LentValue::Text(text.as_str()),
    }
}

fn find_rule(rules: &[(RxText, Rule)], name: &str) -> Option<Rule>
    requires { AreRising rules.now }
    ensures { result ≡ named rules.now name.now }
{
    if rules.len() <= FEW {
        return rule_among(rules, name);
    }
    match rules.binary_search_by(|rule| rule.0.as_str().cmp(&name)) {
        Ok(i) => Some(rules[i].1),
        Err(_) => None,
    }
}

fn rule_among(rules: &[(RxText, Rule)], name: &str) -> Option<Rule>
    ensures { result ≡ named rules.now name.now }
{
    for rule in rules {
        if name == rule.0.as_str() {
            return Some(rule.1);
        }
    }
    None
}

fn check_value<'a>(
    rule: Option<Rule>,
    is_key: bool,
    name: &'a str,
    value: LentValue<'_>,
) -> Result<(), Invalid<'a>>
    ensures { outcome result ≡ fault_of rule is_key name.now (value_lent value.entry) }
{
    match (rule, value) {
        (Some(Rule::Flag), LentValue::Flag(_)) => Ok(()),
        (Some(Rule::Int(bounds)), LentValue::Int(n)) => {
            if is_within(bounds, n) {
                Ok(())
            } else {
                Err(Invalid::Bounds(name))
            }
        }
        (Some(Rule::Text(most)), LentValue::Text(text)) => {
            if is_long_enough(most, is_key, text) {
                Ok(())
            } else {
                Err(Invalid::Length(name))
            }
        }
        _ => Err(Invalid::Kind(name)),
    }
}

fn is_within(bounds: Bounds, n: i64) -> bool
    ensures { result ≡ is_within bounds n }
{
    !bounds.minimum.is_some_and(|m| n < m)
        && !bounds.maximum.is_some_and(|m| m < n)
        && is_multiple(bounds.multiple_of, n)
}

fn is_multiple(step: Option<i64>, n: i64) -> bool
    ensures { result ≡ is_multiple step n }
{
    match step {
        None => true,
        Some(step) => step != 0 && n.wrapping_rem(step) == 0,
    }
}

fn is_long_enough(most: u32, is_key: bool, text: &str) -> bool
    ensures { result ≡ is_long_enough most is_key text.now }
{
    let count = code_points(text);
    count <= most as usize && !(is_key && count == 0)
}

fn code_points(text: &str) -> usize
    ensures { result ≡ length (chars text.now) }
{
    text.chars().count()
}
