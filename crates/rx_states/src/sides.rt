ghost use Rattle.std.specs.Prelude.{◌≡◌, IfSome, option_map};
ghost use Rattle.std.specs.Option.{ForSome, option_copied};
ghost use Rattle.rx_states.specs.Sides.{value_in, TellBoth, IsLooked};

use crate::answers::live_before;
use rx_document::Change;
use rx_value::{Fields, Value};
use std::marker::Model;

/// What a field holds before a change and after it.
#[derive(Clone, Copy)]
pub(crate) struct Both<'a> {
    pub before: Option<&'a Value>,
    pub after: Option<&'a Value>,
}

/// The same, and the name of the field as it stands in the change.
#[derive(Clone, Copy)]
pub(crate) struct Looked<'a> {
    name: &'a str,
    both: Both<'a>,
}

/// A change, and what it says of the two fields that were looked up last: one that selectors begin
/// with, and one that sorts do. Most queries begin with the same, so that a change is seldom
/// searched for them.
#[derive(Drop)]
pub struct Sides<'a> {
    change: &'a Change,
    selected: Option<Looked<'a>>,
    sorted: Option<Looked<'a>>,
}

impl<'a> Model for Sides<'a> {
    ghost use Rattle.rx_document.specs.declared.change.Change.{Change};
    ghost use Rattle.rx_states.specs.Sides.{AreLooked};

    ghost Value = { Change };

    ghost view = { λ s. s.change.now };

    ghost invariant = { AreLooked };
}

impl<'a> Sides<'a> {
    pub fn new(change: &'a Change) -> Sides<'a>
        ensures { result ≡ change.now }
    {
        Sides {
            change,
            selected: None,
            sorted: None,
        }
    }

    // For the field that a selector begins with.
    pub(crate) fn selected(&mut self, name: &str) -> Both<'a>
        ensures same { self.new ≡ self.old }
        ensures both { TellBoth self.old name.now result }
    {
        both_of(self.change, name, &mut self.selected)
    }

    // For the field that a sort begins with.
    pub(crate) fn sorted(&mut self, name: &str) -> Both<'a>
        ensures same { self.new ≡ self.old }
        ensures both { TellBoth self.old name.now result }
    {
        both_of(self.change, name, &mut self.sorted)
    }
}

fn both_of<'a>(change: &'a Change, name: &str, last: &mut Option<Looked<'a>>) -> Both<'a>
    requires { ForSome last.old (IsLooked change.now) }
    ensures kept { ForSome last.new (IsLooked change.now) }
    ensures both { TellBoth change.now name.now result }
{
    if let Some(looked) = *last {
        if name == looked.name {
            return looked.both;
        }
    }
    let both = look_up(change, name);
    if let Some(name) = name_in(change, name) {
        *last = Some(Looked { name, both });
    }
    both
}

fn look_up<'a>(change: &'a Change, name: &str) -> Both<'a>
    ensures { TellBoth change.now name.now result }
{
    Both {
        before: value_in(live_before(change), name),
        after: value_in(change.after.as_ref(), name),
    }
}

fn value_in<'a>(fields: Option<&'a Fields>, name: &str) -> Option<&'a Value>
    ensures { option_map (λ v. v.now) result ≡ value_in name.now (option_copied fields.entry) }
{
    match fields {
        Some(fields) => fields.get(name),
        None => None,
    }
}

// The name as it stands in a change.
fn name_in<'a>(change: &'a Change, name: &str) -> Option<&'a str>
    ensures { IfSome result (λ own. own.now ≡ name.now) }
{
    match name_among(live_before(change), name) {
        Some(own) => Some(own),
        None => name_among(change.after.as_ref(), name),
    }
}

fn name_among<'a>(fields: Option<&'a Fields>, name: &str) -> Option<&'a str>
    ensures { IfSome result (λ own. own.now ≡ name.now) }
{
    let fields = fields?;
    for i in 0..fields.len() {
        let own = fields.at(i).0.as_str();
        if name == own {
            return Some(own);
        }
    }
    None
}
