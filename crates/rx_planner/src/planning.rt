ghost use Rattle.std.specs.Prelude.{◌<◌, length, map, IfOk};
ghost use Rattle.rx_query.specs.QuerySpec.{asked};
ghost use Rattle.rx_planner.specs.Plan.{IsPlan};

use crate::bounds::bound;
use crate::choice::best;
use crate::order::is_ordered;
use crate::path::path;
use crate::planned::Plan;
use rx_index::Indexes;
use rx_query::Query;
use std::alloc::{AllocError, Global};

/// The plan of a query: the index whose first fields the selector fixes or bounds most.
pub fn plan(alloc: Global, query: &Query, indexes: &Indexes<'_>) -> Result<Plan, AllocError>
    requires { 0 < length indexes.now }
    ensures { IfOk result (IsPlan (asked query.now) (map (λ i. i.fields) indexes.now)) }
{
    let index = best(alloc, query, indexes)?;
    let path = path(alloc, query, indexes.at(index).fields())?;
    let path = path.as_slice();
    Ok(Plan {
        index,
        low: bound(alloc, query, path, false)?,
        high: bound(alloc, query, path, true)?,
        ordered: is_ordered(alloc, query, path)?,
    })
}
