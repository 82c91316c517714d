// Where a replication may begin, and what it takes.
ghost use Rattle.std.specs.Prelude.{◌≡◌, option_map};
ghost use Rattle.std.specs.List.{list_all};
ghost use Rattle.rx_value.specs.Named.{by_bytes, by_name};
ghost use Rattle.rx_world.specs.Chain.{IsForest};
ghost use Rattle.rx_world.specs.Holders.{AreWhole, holders_of, world_in};
ghost use Rattle.rx_world.specs.Replicating.{has_schema_of, is_fitting, stays_or_rises};
ghost use Rattle.rx_world.specs.Step.{fork_takes, has_key, is_held_with, may_begin, takes_exchange, takes_rows};

use crate::chain::may_follow;
use crate::legality::{is_valid, takes};
use crate::names::find;
use crate::parts::{MAX_REPLICATIONS, Parts};
use crate::replication::Replication;
use crate::replications::find as find_replication;
use indexmap::IndexMap;
use rx_collection::{Collection, Holder};
use rx_document::Place;
use rx_record::{MasterName, RowOut};
use rx_value::{State, is_name};

pub(crate) fn may_begin<H: Holder>(
    parts: &Parts<H>,
    name: &str,
    fork: &str,
    master: &MasterName,
) -> bool
    requires whole { AreWhole H.held H.is_broken parts.now.holders.entries }
    requires forest { IsForest (by_bytes parts.now.replications.entries) }
    ensures { result ≡ may_begin name.now fork.now master.now
        (world_in H.held (holders_of parts.now)) }
{
    if !is_name(name) || find_replication(&parts.replications, name).is_some() {
        return false;
    }
    let Some(held) = find(&parts.holders, fork) else {
        return false;
    };
    is_fitting(&parts.holders, master, held.collection())
        && may_follow(&parts.replications, fork, master)
        && parts.replications.len() < MAX_REPLICATIONS
}

// Whether the master is held with the fork's schema, or is at a port.
fn is_fitting<H: Holder>(
    holders: &IndexMap<String, H>,
    master: &MasterName,
    fork: &Collection,
) -> bool
    requires { AreWhole H.held H.is_broken holders.now.entries }
    ensures { result ≡ is_fitting (by_name H.held holders.now.entries) master.now fork.now }
{
    match master {
        MasterName::Local(name) => match find(holders, name.as_str()) {
            Some(master) => has_schema_of(fork, master.collection()),
            None => false,
        },
        MasterName::Port(port) => *port > 0,
    }
}

fn has_schema_of(fork: &Collection, master: &Collection) -> bool
    ensures { result ≡ has_schema_of fork.now master.now }
{
    master.schema().canonical() == fork.schema().canonical()
}

// Whether a replication takes an exchange.
pub(crate) fn takes_exchange<H: Holder>(
    holders: &IndexMap<String, H>,
    replication: &Replication,
    lwt: u64,
    rows: &[RowOut],
    known: &[State],
    up: &Option<Place>,
    down: &Option<Place>,
) -> bool
    requires { AreWhole H.held H.is_broken holders.now.entries }
    ensures { result ≡ takes_exchange (by_name H.held holders.now.entries) lwt rows.now known.now
        up.now down.now replication.now }
{
    if !stays_or_rises(replication.side.up(), up)
        || !stays_or_rises(replication.side.down(), down)
    {
        return false;
    }
    match find(holders, replication.fork.as_str()) {
        Some(fork) => fork_takes(fork.collection(), lwt, rows, known),
        None => false,
    }
}

// A checkpoint doesn't fall.
pub(crate) fn stays_or_rises(old: Option<&Place>, new: &Option<Place>) -> bool
    ensures { result ≡ stays_or_rises (option_map (λ p. p.now) old.entry) new.now }
{
    match (old, new) {
        (None, _) => true,
        (Some(_), None) => false,
        (Some(old), Some(new)) => !new.cmp(old).is_lt(),
    }
}

// Whether a fork takes the rows, and then holds the keys of the known states.
fn fork_takes(fork: &Collection, lwt: u64, rows: &[RowOut], known: &[State]) -> bool
    ensures { result ≡ fork_takes lwt rows.now known.now fork.now }
{
    takes_rows(fork, lwt, rows) && are_held(fork, rows, known)
}

fn takes_rows(fork: &Collection, lwt: u64, rows: &[RowOut]) -> bool
    ensures { result ≡ takes_rows lwt rows.now fork.now }
{
    if rows.is_empty() {
        lwt == 0
    } else {
        takes(fork, lwt, rows)
    }
}

fn are_held(fork: &Collection, rows: &[RowOut], known: &[State]) -> bool
    ensures { result ≡ list_all (is_held_with fork.now rows.now) known.now }
{
    known.iter().all(|state| is_held(fork, rows, state))
}

// Whether the state is valid, and its key is held by the fork with the rows.
fn is_held(fork: &Collection, rows: &[RowOut], state: &State) -> bool
    ensures { result ≡ is_held_with fork.now rows.now state.now }
{
    if !is_valid(fork.schema(), state) {
        return false;
    }
    fork.get(state.key.as_str()).is_some() || has_key(state.key.as_str(), rows)
}

fn has_key(key: &str, rows: &[RowOut]) -> bool
    ensures { result ≡ has_key key.now rows.now }
{
    rows.iter().any(|row| row.state.key.as_str() == key)
}
