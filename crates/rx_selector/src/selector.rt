ghost use Rattle.std.specs.Prelude.{◌≡◌, option_map};
ghost use Rattle.serde_json.specs.View.{view};
ghost use Rattle.rx_value.specs.Due.{DueBy};
ghost use Rattle.rx_selector.specs.Holding.{all_hold};
ghost use Rattle.rx_selector.specs.Operand.{operand_in};
ghost use Rattle.rx_selector.specs.Reading.{selector_of};
ghost use Rattle.rx_selector.specs.Tree.{selector_clauses, clauses_view, no_clauses};
ghost use Rattle.rx_selector.specs.declared.fault.SelectorFault.TheVariants.{Memory};

use crate::fault::SelectorFault;
use crate::holding::all_hold;
use crate::operand::{operand_among, tests_on};
use crate::reading::read_selector;
use crate::tree::{Clause, Compare};
use rx_value::{Fields, Kinds, Value};
use serde_json::Value as Json;
use std::alloc::Global;

/// What fields are asked for.
#[derive(Drop)]
pub struct Selector {
    pub(crate) clauses: Vec<Clause>,
}

impl Selector {
    /// The selector that a JSON value says. The first member at fault, depth first by rising name,
    /// decides.
    pub fn read(alloc: Global, json: &Json, kinds: &Kinds) -> Result<Selector, SelectorFault>
        ensures { DueBy Memory selector_clauses result (selector_of kinds.now (view json.now)) }
    {
        Ok(Selector {
            clauses: read_selector(alloc, json, kinds, 1)?,
        })
    }

    /// `{}`, which all fields match.
    pub fn any(alloc: Global) -> Selector
        ensures { selector_clauses result ≡ no_clauses }
    {
        Selector {
            clauses: Vec::new(alloc),
        }
    }

    /// Its outermost members, which all have to hold.
    pub fn clauses(&self) -> &[Clause]
        ensures { clauses_view result.now ≡ selector_clauses self.now }
    {
        self.clauses.as_slice()
    }

    pub fn matches(&self, fields: &Fields) -> bool
        ensures { result ≡ all_hold (selector_clauses self.now) fields.now }
    {
        all_hold(&self.clauses, fields)
    }

    /// The operand of that operator in the member of the field's name, where it stands directly in
    /// this selector. A plain value is the operand of `$eq`.
    pub fn operand(&self, field: &str, which: Compare) -> Option<&Value>
        ensures { option_map (λ v. v.now) result
            ≡ operand_in field.now which (selector_clauses self.now) }
    {
        operand_among(which, tests_on(field, self.clauses.as_slice())?)
    }
}
