// Whether a state is valid, told where it is lent, without memory.
ghost use Rattle.std.specs.Prelude.{◌≡◌, true, false, is_none, is_some, option_map, IfSome, IfNone};
ghost use Rattle.std.specs.List.{list_all};
ghost use Rattle.rx_record.specs.Views.{state_in, value_in};
ghost use Rattle.rx_schema.specs.Lent.{takes};
ghost use Rattle.rx_schema.specs.Validity.{first_fault, first_missing};
ghost use Rattle.rx_value.specs.Fields.{Pairs};
ghost use Rattle.rx_value.specs.Named.{named};
ghost use Rattle.rx_value.specs.Value.{is_text};
ghost use Rattle.rx_world.specs.Step.{is_valid_state};

use rx_record::{PairView, StateView, ValueView};
use rx_schema::{LentValue, Schema};
use rx_value::RxText;

pub(crate) fn is_valid_view(schema: &Schema, state: &StateView<'_>) -> bool
    ensures { result ≡ is_valid_state schema.now (state_in state.now) }
{
    has_valid_fields(schema, state) && has_key(schema.primary(), state)
}

#[tactic(auto, using(rx_schema::proofs::Valid::in_parts))]
fn has_valid_fields(schema: &Schema, state: &StateView<'_>) -> bool
    ensures { result ≡ is_none (first_fault schema.now (state_in state.now).fields) }
{
    match names_left(schema, state) {
        Some(names) => has_each(names, state),
        None => false,
    }
}

// The required names that one walk along the fields leaves to be looked for; nothing where a field
// isn't taken. Names and fields both rise, so where none is missing none is left.
#[tactic(auto, using(crate::proofs::LentFields::later, crate::proofs::LentFields::first))]
fn names_left<'a>(schema: &'a Schema, state: &StateView<'_>) -> Option<&'a [RxText]>
    ensures refused { IfNone result
        (list_all (λ p. takes schema.now p.0 p.1) (state_in state.now).fields ≡ false) }
    ensures taken { IfSome result (λ _.
        list_all (λ p. takes schema.now p.0 p.1) (state_in state.now).fields ≡ true) }
    ensures missing { IfSome result (λ names.
        first_missing names.now (state_in state.now).fields
        ≡ first_missing schema.now.required (state_in state.now).fields) }
{
    let mut names = schema.required();
    let mut pairs = state.pairs();
    while let Some(pair) = pairs.next() {
        if !is_taken(schema, &pair) {
            return None;
        }
        names = past(names, pair.name);
    }
    Some(names)
}

fn is_taken(schema: &Schema, pair: &PairView<'_>) -> bool
    ensures { result ≡ takes schema.now pair.now.name.now (value_in pair.now.value) }
{
    let value = match pair.value {
        ValueView::Flag(flag) => LentValue::Flag(flag),
        ValueView::Int(number) => LentValue::Int(number),
        ValueView::Text(text) => LentValue::Text(text),
    };
    schema.takes(pair.name, value)
}

// The names behind the first where that is the name, and else all. Where there is a field of the
// name, none more is missing.
#[tactic(auto, using(crate::proofs::LentFields::past))]
fn past<'a>(names: &'a [RxText], name: &str) -> &'a [RxText]
    ensures { (ps : Pairs) → is_some (named ps name.now) ≡ true
        → first_missing result.now ps ≡ first_missing names.now ps }
{
    match names.split_first() {
        Some((first, rest)) if first.as_str() == name => rest,
        _ => names,
    }
}

fn has_each(names: &[RxText], state: &StateView<'_>) -> bool
    ensures { result ≡ is_none (first_missing names.now (state_in state.now).fields) }
{
    for name in names {
        if field_at(state, name.as_str()).is_none() {
            return false;
        }
    }
    true
}

fn has_key(primary: &str, state: &StateView<'_>) -> bool
    ensures { result
        ≡ is_text state.now.key.now (named (state_in state.now).fields primary.now) }
{
    match field_at(state, primary) {
        Some(ValueView::Text(text)) => text == state.key,
        _ => false,
    }
}

fn field_at<'a>(state: &StateView<'a>, name: &str) -> Option<ValueView<'a>>
    ensures { option_map value_in result ≡ named (state_in state.now).fields name.now }
{
    let mut pairs = state.pairs();
    while let Some(pair) = pairs.next() {
        if pair.name == name {
            return Some(pair.value);
        }
    }
    None
}
