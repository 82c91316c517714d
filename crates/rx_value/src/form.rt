ghost use Rattle.std.specs.Prelude.{◌≡◌, ◌≤◌, ◌≤ℤ◌, option_map, IfSome};
ghost use Rattle.serde_json.specs.View.{view, members_view};
ghost use Rattle.rx_value.specs.Form.{texts, missing, is_among, unexpected, members_unexpected, text_at, whole_at, whole_within, integer_within};

use crate::comparing::is_same;
use serde_json::{Map, Value as Json};

/// The first of the needed names that the object lacks.
pub fn first_missing<'a>(json: &Json, needed: &[&'a str]) -> Option<&'a str>
    ensures { option_map (λ s. s.now) result ≡ missing (texts needed.now) (view json.now) }
{
    for name in needed {
        if json.get(*name).is_none() {
            return Some(*name);
        }
    }
    None
}

/// The first member by bytes whose name stands in neither list.
pub fn first_unexpected<'a>(json: &'a Json, needed: &[&str], optional: &[&str]) -> Option<&'a str>
    ensures { option_map (λ s. s.now) result
        ≡ unexpected (texts needed.now) (texts optional.now) (view json.now) }
{
    match json.as_object() {
        Some(members) => first_foreign(members, needed, optional),
        None => None,
    }
}

fn first_foreign<'a>(
    members: &'a Map<String, Json>,
    needed: &[&str],
    optional: &[&str],
) -> Option<&'a str>
    ensures { option_map (λ s. s.now) result
        ≡ members_unexpected (texts needed.now) (texts optional.now)
        (members_view members.now.entries) }
{
    for (name, _member) in members.iter() {
        if !is_among(needed, name.as_str()) && !is_among(optional, name.as_str()) {
            return Some(name.as_str());
        }
    }
    None
}

fn is_among(names: &[&str], name: &str) -> bool
    ensures { result ≡ is_among (texts names.now) name.now }
{
    for known in names {
        if is_same(*known, name) {
            return true;
        }
    }
    false
}

/// The text at a name.
pub fn text_at<'a>(json: &'a Json, name: &str) -> Option<&'a str>
    ensures { option_map (λ s. s.now) result ≡ text_at name.now (view json.now) }
{
    json.get(name)?.as_str()
}

/// The whole number at a name, however great.
pub fn whole_at(json: &Json, name: &str) -> Option<i128>
    ensures { result ≡ whole_at name.now (view json.now) }
{
    json.get(name)?.as_number()?.as_i128()
}

/// The whole number at a name, where it lies within the bounds.
pub fn whole_within(json: &Json, name: &str, least: u64, most: u64) -> Option<u64>
    ensures value { result ≡ whole_within name.now least most (view json.now) }
    ensures bounds { IfSome result (λ n. (least ≤ n) × (n ≤ most)) }
{
    let number = json.get(name)?.as_u64()?;
    if least <= number && number <= most {
        Some(number)
    } else {
        None
    }
}

/// The whole number at a name, also below 0, where it lies within the bounds.
pub fn integer_within(json: &Json, name: &str, least: i64, most: i64) -> Option<i64>
    ensures value { result ≡ integer_within name.now least most (view json.now) }
    ensures bounds { IfSome result (λ n. (least ≤ℤ n) × (n ≤ℤ most)) }
{
    let number = json.get(name)?.as_i64()?;
    if least <= number && number <= most {
        Some(number)
    } else {
        None
    }
}
