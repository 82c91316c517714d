ghost use Rattle.std.specs.Prelude.{◌≡◌, ◌↔◌, IsTrue, IfOk};
ghost use Rattle.std.specs.Cmp.{partial_equiv_from_equiv};
ghost use Rattle.rx_value.specs.Equal.{state_eq};
ghost use Rattle.rx_value.specs.Equality.{equivalence, state_eq-Decides};

use crate::fields::Fields;
use crate::rx_text::RxText;
use std::alloc::{AllocError, Global};

/// The name of the deletion mark in a state's JSON object.
pub const MARK: &str = "_deleted";

/// A document's state: its key, its fields and the deletion mark.
#[derive(Debug, Drop)]
pub struct State {
    pub key: RxText,
    pub fields: Fields,
    pub deleted: bool,
}

impl State {
    pub fn copy(&self, alloc: Global) -> Result<State, AllocError>
        ensures { IfOk result (λ s. s ≡ self.now) }
    {
        Ok(State {
            key: self.key.copy(alloc)?,
            fields: self.fields.copy(alloc)?,
            deleted: self.deleted,
        })
    }
}

impl PartialEq for State {
    ghost eq = { state_eq };

    ghost laws = { partial_equiv_from_equiv (equivalence state_eq state_eq-Decides) };

    fn eq(&self, other: &State) -> bool
        ensures value { result ≡ state_eq self.now other.now }
        ensures exact { IsTrue result ↔ (self.now ≡ other.now) }
    {
        self.key == other.key && self.fields == other.fields && self.deleted == other.deleted
    }
}

impl Eq for State {
    ghost laws = { equivalence state_eq state_eq-Decides };
}
