// The operands of an update, found once: each operator's name is looked up a single time.
ghost use Rattle.std.specs.Prelude.{◌≡◌, option_map};
ghost use Rattle.serde_json.specs.View.{view};
ghost use Rattle.rx_update.specs.Operands.{seen};
ghost use Rattle.rx_update.specs.Reading.{name_of, operands_of, under};

use serde_json::Value as Json;

/// An operator of an update.
#[derive(Clone, Copy)]
pub(crate) enum Operator {
    Inc,
    Max,
    Min,
    Set,
    Unset,
}

impl Operator {
    pub(crate) fn name(self) -> &'static str
        ensures { result.now ≡ name_of self }
    {
        match self {
            Operator::Inc => "$inc",
            Operator::Max => "$max",
            Operator::Min => "$min",
            Operator::Set => "$set",
            Operator::Unset => "$unset",
        }
    }
}

/// What stands under each operator.
#[derive(Drop)]
pub(crate) struct Operands<'a> {
    inc: Option<&'a Json>,
    max: Option<&'a Json>,
    min: Option<&'a Json>,
    set: Option<&'a Json>,
    unset: Option<&'a Json>,
}

impl<'a> Operands<'a> {
    pub(crate) fn of(json: &'a Json) -> Operands<'a>
        ensures { seen result ≡ operands_of (view json.now) }
    {
        Operands {
            inc: json.get(Operator::Inc.name()),
            max: json.get(Operator::Max.name()),
            min: json.get(Operator::Min.name()),
            set: json.get(Operator::Set.name()),
            unset: json.get(Operator::Unset.name()),
        }
    }

    pub(crate) fn under(&self, operator: Operator) -> Option<&'a Json>
        ensures { option_map (λ j. view j.now) result ≡ under (seen self.now) operator }
    {
        match operator {
            Operator::Inc => self.inc,
            Operator::Max => self.max,
            Operator::Min => self.min,
            Operator::Set => self.set,
            Operator::Unset => self.unset,
        }
    }
}
