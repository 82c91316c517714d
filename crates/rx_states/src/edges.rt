ghost use Rattle.std.specs.Prelude.{◌≡◌, IfOk, option_map};
ghost use Rattle.std.specs.Option.{option_copied};
ghost use Rattle.rx_query.specs.QuerySpec.{asked};
ghost use Rattle.rx_states.specs.Edges.{AreEdges};
ghost use Rattle.rx_states.specs.Forms.{leading_in};

use crate::answers::{first, last};
use rx_query::{Query, Results, Row};
use rx_value::Value;
use std::alloc::{AllocError, Global};

/// What the first and the last row of a query hold in the field that its sort begins with.
#[derive(Drop)]
pub struct Edges {
    pub(crate) first: Option<Value>,
    pub(crate) last: Option<Value>,
}

impl Edges {
    pub fn of(alloc: Global, query: &Query, results: &Results) -> Result<Edges, AllocError>
        ensures { IfOk result (AreEdges (asked query.now).sorts results.now) }
    {
        Ok(Edges {
            first: leading_in(alloc, query, first(results))?,
            last: leading_in(alloc, query, last(results))?,
        })
    }
}

fn leading_in(alloc: Global, query: &Query, row: Option<&Row>) -> Result<Option<Value>, AllocError>
    ensures { IfOk result (λ v. v
        ≡ leading_in (asked query.now).sorts
        (option_map (λ r. r.fields) (option_copied row.entry))) }
{
    let Some(row) = row else {
        return Ok(None);
    };
    if query.sorts() == 0 {
        return Ok(None);
    }
    match row.fields.get(query.sort(0).0.as_str()) {
        Some(value) => Ok(Some(value.copy(alloc)?)),
        None => Ok(None),
    }
}
