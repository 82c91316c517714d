ghost use Rattle.std.specs.Prelude.{IsTrue};
ghost use Rattle.rx_record.specs.Reading.{is_whole};
ghost use Rattle.rx_record.specs.Fields.{fields_of};

use crate::owning::own_fields;
use crate::pair_views::PairViews;
use rx_value::{RxText, State};
use std::alloc::{AllocError, Global};

/// A document's state, lent from the bytes of a record.
#[derive(Clone, Copy, Debug)]
pub struct StateView<'a> {
    pub key: &'a str,
    pub deleted: bool,
    /// The bytes of the fields, from their count on.
    pub fields: &'a [u8],
    pub ghost whole: { IsTrue (is_whole (fields_of fields.now)) },
}

impl<'a> StateView<'a> {
    ghost use Rattle.std.specs.Prelude.{◌≡◌, IfOk};
    ghost use Rattle.rx_record.specs.Views.{pairs_left, state_in};

    /// The fields, lent.
    pub fn pairs(&self) -> PairViews<'a>
        ensures { pairs_left result ≡ (state_in self.now).fields }
    {
        PairViews::new(self.fields)
    }

    /// The state in memory of its own.
    pub fn own(&self, alloc: Global) -> Result<State, AllocError>
        ensures { IfOk result (λ state. state ≡ state_in self.now) }
    {
        let (fields, _) = own_fields(alloc, self.fields)?;
        Ok(State {
            key: RxText::new(alloc, self.key)?,
            fields,
            deleted: self.deleted,
        })
    }
}
