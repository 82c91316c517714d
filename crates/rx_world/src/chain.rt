// Which collection may follow which master.
ghost use Rattle.std.specs.Prelude.{◌≡◌, [], option_map};
ghost use Rattle.std.specs.Str.{bytes_eq};
ghost use Rattle.rx_tree.specs.Forest.{master_of};
ghost use Rattle.rx_value.specs.Named.{by_bytes};
ghost use Rattle.rx_world.specs.Chain.{IsForest, fork_before, forest_of, is_fork, may_follow, tree_root};
ghost use Rattle.rx_world.specs.Migrating.{is_in_group};

use crate::replication::Replication;
use indexmap::IndexMap;
use rx_record::MasterName;

pub(crate) fn may_follow(
    replications: &IndexMap<String, Replication>,
    fork: &str,
    master: &MasterName,
) -> bool
    requires { IsForest (by_bytes replications.now.entries) }
    ensures { result ≡ may_follow (by_bytes replications.now.entries) fork.now master.now }
{
    if is_fork(replications, fork) {
        return false;
    }
    match master {
        MasterName::Local(name) => tree_root(replications, name.as_str()) != fork,
        MasterName::Port(_) => true,
    }
}

pub(crate) fn is_fork(replications: &IndexMap<String, Replication>, name: &str) -> bool
    ensures { result ≡ is_fork name.now (by_bytes replications.now.entries) }
{
    replications.values().any(|r| r.fork.as_str() == name)
}

// Whether local replications join two collections, over any number of them.
pub(crate) fn is_in_group(
    replications: &IndexMap<String, Replication>,
    name: &str,
    other: &str,
) -> bool
    requires { IsForest (by_bytes replications.now.entries) }
    ensures { result ≡ is_in_group (by_bytes replications.now.entries) name.now other.now }
{
    tree_root(replications, name) == tree_root(replications, other)
}

// Where going from a fork to its master ends. No way up has more steps than there are forks.
fn tree_root<'a>(replications: &'a IndexMap<String, Replication>, name: &'a str) -> &'a str
    requires { IsForest (by_bytes replications.now.entries) }
    ensures { result.now ≡ tree_root (by_bytes replications.now.entries) name.now }
{
    let mut at = name;
    for _step in 0..replications.len() {
        match master_of(replications, at) {
            Some(master) => at = master,
            None => return at,
        }
    }
    at
}

// The master of a fork, where it is in this journal.
fn master_of<'a>(replications: &'a IndexMap<String, Replication>, fork: &str) -> Option<&'a str>
    ensures { option_map (λ m. m.now) result
        ≡ master_of bytes_eq (forest_of (by_bytes replications.now.entries)) fork.now }
{
    for replication in replications.values() {
        if let Some(master) = followed_by(replication, fork) {
            return Some(master);
        }
    }
    None
}

// The master of a replication, where that is its fork.
fn followed_by<'a>(replication: &'a Replication, fork: &str) -> Option<&'a str>
    ensures { option_map (λ m. m.now) result
        ≡ master_of bytes_eq (fork_before replication.now.fork replication.now.master []) fork.now }
{
    match &replication.master {
        MasterName::Local(name) if fork == replication.fork.as_str() => Some(name.as_str()),
        _ => None,
    }
}
