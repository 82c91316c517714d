// The replications of a world, and their collections.
ghost use Rattle.std.specs.Prelude.{◌≡◌, [], Some, IsSome, option_map, unwrap_or};
ghost use Rattle.std.specs.Option.{IsSomeAnd};
ghost use Rattle.rx_value.specs.Named.{named};
ghost use Rattle.rx_collection.specs.Lawful.{IsLawful};
ghost use Rattle.rx_handler.specs.Shown.{kinds_of};
ghost use Rattle.rx_world.specs.Holders.{world_in};
ghost use Rattle.rx_world.specs.Linked.{IsLinked};
ghost use Rattle.rx_world.specs.Made.{IsMadeWorld};
ghost use Rattle.rx_world.specs.Valid.{AreValid};
ghost use Rattle.rx_sync.specs.Handling.{local_name, master_in};

use rx_collection::{Collection, Holder};
use rx_handler::{Handler, Handlers};
use rx_record::MasterName;
use rx_value::RxText;
use rx_world::{Replication, World};

// The replication of a name that is held.
pub(crate) fn find_replication<'a, H: Holder + Drop>(
    world: &'a World<H>,
    name: &str,
) -> &'a Replication
    requires { IsSome (named (world_in H.held world.now).replications name.now) }
    ensures found { named (world_in H.held world.now).replications name.now ≡ Some result.now }
    ensures linked { IsLinked (world_in H.held world.now).collections name.now result.now }
    ensures made { IsMadeWorld (world_in H.held world.now) }
{
    world.replication(name).unwrap()
}

// The fork of a replication of the world.
pub(crate) fn find_fork<'a, H: Holder + Drop>(
    world: &'a World<H>,
    replication: &Replication,
) -> &'a Collection
    requires { IsSome (named (world_in H.held world.now).collections replication.now.fork) }
    ensures found { named (world_in H.held world.now).collections replication.now.fork
        ≡ Some result.now }
    ensures called { result.now.name ≡ replication.now.fork }
    ensures lawful { IsLawful result.now }
    ensures valid { AreValid result.now }
{
    let holder = world.holder(replication.fork.as_str()).unwrap();
    holder.collection()
}

// The master of a replication of the world, which is of the same journal.
pub(crate) fn find_master<'a, H: Holder + Drop>(
    world: &'a World<H>,
    replication: &Replication,
) -> &'a Collection
    requires { IsSomeAnd (local_name replication.now.master)
        (λ at. IsSome (named (world_in H.held world.now).collections at)) }
    ensures { master_in (world_in H.held world.now) replication.now.master ≡ Some result.now }
{
    let at = local_name(&replication.master).unwrap();
    let holder = world.holder(at.as_str()).unwrap();
    holder.collection()
}

// The handler of a name that is there.
pub(crate) fn find_handler<'a>(handlers: &'a Handlers, name: &str) -> &'a Handler
    requires { IsSome (named (kinds_of handlers.now) name.now) }
    ensures { named (kinds_of handlers.now) name.now ≡ Some result.now.kind }
{
    handlers.find(name).unwrap()
}

// The field that a replication's handler goes by, empty where there is none.
pub(crate) fn field_of(replication: &Replication) -> &str
    ensures { result.now ≡ unwrap_or replication.now.field [] }
{
    match &replication.field {
        Some(field) => field.as_str(),
        None => "",
    }
}

// The name of a master of the same journal.
pub(crate) fn local_name(master: &MasterName) -> Option<&RxText>
    ensures { option_map (λ t. t.now) result ≡ local_name master.now }
{
    match master {
        MasterName::Local(name) => Some(name),
        MasterName::Port(_) => None,
    }
}
