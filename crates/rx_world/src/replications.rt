// Replications by name.
ghost use Rattle.std.specs.Prelude.{◌≡◌, ◌<◌, Some, OnOk, length, option_map, slice_get};
ghost use Rattle.rx_value.specs.Named.{by_bytes, named, put_named, change_named};
ghost use Rattle.rx_meta.specs.Side.{side_with};
ghost use Rattle.rx_replication.specs.Known.{with_learnt};
ghost use Rattle.rx_world.specs.Replicating.{new_replication, with_exchange};

use crate::replication::Replication;
use indexmap::IndexMap;
use rx_document::Place;
use rx_meta::Meta;
use rx_record::MasterName;
use rx_value::{RxText, State};
use std::alloc::{AllocError, Global};

pub(crate) fn find<'a>(
    replications: &'a IndexMap<String, Replication>,
    name: &str,
) -> Option<&'a Replication>
    ensures { option_map (λ r. r.now) result
        ≡ named (by_bytes replications.now.entries) name.now }
{
    replications.get(name)
}

// The replication at a place in the order of their making.
pub(crate) fn find_at(replications: &IndexMap<String, Replication>, i: usize) -> &Replication
    requires { i < length (by_bytes replications.now.entries) }
    ensures { option_map (λ e. e.1) (slice_get (by_bytes replications.now.entries) i)
        ≡ Some result.now }
{
    let (_, replication) = replications.get_index(i).unwrap();
    replication
}

// Adds a replication that knows nothing yet.
pub(crate) fn add(
    replications: &mut IndexMap<String, Replication>,
    alloc: Global,
    name: RxText,
    fork: RxText,
    master: MasterName,
    handler: RxText,
    field: Option<RxText>,
) -> Result<(), AllocError>
    ensures { OnOk result (by_bytes replications.new.entries
        ≡ put_named (by_bytes replications.old.entries) name
        (new_replication name fork master handler field)) }
{
    let key = String::from_str(alloc, name.as_str())?;
    let replication = Replication {
        name,
        fork,
        master,
        handler,
        field,
        side: Meta::new(alloc),
    };
    replications.insert(key, replication)?;
    Ok(())
}

// The replication of a name learns the states and gets the checkpoints.
pub(crate) fn exchange(
    replications: &mut IndexMap<String, Replication>,
    name: &str,
    known: Vec<State>,
    up: Option<Place>,
    down: Option<Place>,
) -> Result<(), AllocError>
    ensures { OnOk result (by_bytes replications.new.entries
        ≡ change_named (by_bytes replications.old.entries) name.now
        (with_exchange known.items up down)) }
{
    match replications.get_mut(name) {
        Some(replication) => Ok(take(replication, known, up, down)?),
        None => Ok(()),
    }
}

fn take(
    replication: &mut Replication,
    known: Vec<State>,
    up: Option<Place>,
    down: Option<Place>,
) -> Result<(), AllocError>
    ensures { OnOk result (replication.new ≡ with_exchange known.items up down replication.old) }
{
    learn(&mut replication.side, known)?;
    replication.side.advance(up, down);
    Ok(())
}

// A fork learns states, one after another.
fn learn(side: &mut Meta, known: Vec<State>) -> Result<(), AllocError>
    ensures { OnOk result (side.new
        ≡ side_with (with_learnt side.old.known known.items) side.old.up side.old.down) }
{
    for state in known {
        side.learn(state)?;
    }
    Ok(())
}
