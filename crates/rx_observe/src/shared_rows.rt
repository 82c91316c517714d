ghost use Rattle.std.specs.Prelude.{◌≡◌, IfOk};

use rx_query::Results;
use std::alloc::{AllocError, Global};
use std::marker::Model;
use std::rc::Rc;

/// Rows of a result that several keep, so that no row is copied for each of them.
#[derive(Debug, Drop)]
pub struct SharedRows {
    rows: Rc<Results>,
}

impl Model for SharedRows {
    ghost use Rattle.std.specs.Prelude.{List};
    ghost use Rattle.rx_query.specs.declared.results.Row.{Row};

    ghost Value = { List Row };

    ghost view = { λ s. s.rows.value };
}

impl SharedRows {
    /// A copy of the rows, which nobody else keeps yet.
    pub(crate) fn new(alloc: Global, rows: &Results) -> Result<SharedRows, AllocError>
        ensures { IfOk result (λ s. s ≡ rows.now) }
    {
        Ok(SharedRows {
            rows: Rc::new(alloc, rows.copy(alloc)?)?,
        })
    }

    /// The same rows, for one more to keep.
    pub(crate) fn share(&self) -> Result<SharedRows, AllocError>
        ensures { IfOk result (λ s. s ≡ self.now) }
    {
        Ok(SharedRows {
            rows: self.rows.clone()?,
        })
    }

    pub fn as_results(&self) -> &Results
        ensures { result.now ≡ self.now }
    {
        &self.rows
    }
}
