ghost use Rattle.std.specs.Prelude.{◌≡◌, ◌∷◌, ◌++◌, [], OnOk};
ghost use Rattle.rx_observe.specs.Observing.{each};
ghost use Rattle.rx_observe.specs.Rows.{emitted, with_emission, emissions_of, with_place, places_of, unseen_of};

use crate::observed::Observed;
use crate::shared_rows::SharedRows;
use rx_value::RxText;
use std::alloc::{AllocError, Global};

/// The rows of an observed query, to be shown under its name.
#[derive(Debug, Drop)]
pub struct Emission {
    pub name: RxText,
    pub rows: SharedRows,
}

// The emissions, and for each of them the place of its query, with the rows that it is to keep.
#[derive(Drop)]
pub(crate) struct Unseen {
    pub emissions: Vec<Emission>,
    pub places: Vec<(usize, SharedRows)>,
}

// Takes all memory that the emissions need, and changes no query.
pub(crate) fn look_all(
    alloc: Global,
    queries: &mut Vec<(RxText, Observed)>,
    unseen: &mut Unseen,
) -> Result<(), AllocError>
    requires emissions { unseen.old.emissions.items ≡ [] }
    requires places { unseen.old.places.items ≡ [] }
    ensures same { queries.new.items ≡ queries.old.items }
    ensures emissions { OnOk result (unseen.new.emissions.items ≡ emissions_of queries.old.items) }
    ensures places { OnOk result (unseen.new.places.items ≡ places_of 0 queries.old.items) }
{
    for place in 0..queries.len() {
        let query = &mut queries[place];
        look(alloc, place, query, unseen)?;
    }
    Ok(())
}

fn look(
    alloc: Global,
    place: usize,
    query: &mut (RxText, Observed),
    unseen: &mut Unseen,
) -> Result<(), AllocError>
    ensures same { query.new ≡ query.old }
    ensures emissions { OnOk result (unseen.new.emissions.items ≡ unseen.old.emissions.items
        ++ with_emission query.old.0 (unseen_of query.old) []) }
    ensures places { OnOk result (unseen.new.places.items ≡ unseen.old.places.items
        ++ with_place place (unseen_of query.old) []) }
{
    let Some(rows) = query.1.unseen()? else {
        return Ok(());
    };
    let emission = Emission {
        name: query.0.copy(alloc)?,
        rows: rows.share()?,
    };
    unseen.emissions.push(emission)?;
    unseen.places.push((place, rows))?;
    Ok(())
}

// Gives each query its rows.
pub(crate) fn emit_all(queries: &mut Vec<(RxText, Observed)>, places: Vec<(usize, SharedRows)>)
    requires { places.items ≡ places_of 0 queries.old.items }
    ensures { queries.new.items ≡ each emitted queries.old.items }
{
    for (place, rows) in places {
        let query = &mut queries[place];
        query.1.emit(rows);
    }
}
