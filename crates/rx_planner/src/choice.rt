ghost use Rattle.std.specs.Prelude.{◌≡◌, ◌<◌, ℕ, length, map, IfOk};
ghost use Rattle.rx_query.specs.QuerySpec.{asked};
ghost use Rattle.rx_planner.specs.Choice.{IsBest};
ghost use Rattle.rx_planner.specs.Plan.{path_of, score};

use crate::path::{path, score};
use rx_index::{IndexView, Indexes};
use rx_query::Query;
use std::alloc::{AllocError, Global};

fn score_by(alloc: Global, query: &Query, index: &IndexView<'_>) -> Result<usize, AllocError>
    ensures { IfOk result (λ n. n ≡ score (asked query.now)
        (path_of (asked query.now) index.now.fields)) }
{
    let path = path(alloc, query, index.fields())?;
    Ok(score(query, path.as_slice()))
}

// The first index with the greatest score.
pub(crate) fn best(alloc: Global, query: &Query, indexes: &Indexes<'_>) -> Result<usize, AllocError>
    requires { 0 < length indexes.now }
    ensures { IfOk result (IsBest (asked query.now) (map (λ i. i.fields) indexes.now)
        (length indexes.now)) }
{
    let mut best = 0;
    let mut greatest = score_by(alloc, query, &indexes.at(0))?;
    for i in 1..indexes.len() {
        let score = score_by(alloc, query, &indexes.at(i))?;
        if score > greatest {
            best = i;
            greatest = score;
        }
    }
    Ok(best)
}
