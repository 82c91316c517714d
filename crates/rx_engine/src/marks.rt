// Where a fork had nothing to push, so that the next turn need not look for it.
ghost use Rattle.std.specs.Prelude.{◌≡◌, [], true, IfSome, IfOk, OnOk, Some};
ghost use Rattle.rx_session.specs.Emissions.{emissions, settled_session};
ghost use Rattle.rx_session.specs.Placed.{world_of};
ghost use Rattle.rx_sync.specs.Asking.{pending_in};
ghost use Rattle.rx_engine.specs.Marks.{AreMarked, AreMarkedBut, IsLastWrite};

use indexmap::IndexMap;
use rx_collection::Holder;
use rx_observe::{Emission, Live};
use rx_session::{Playing, Session};
use rx_world::World;
use std::alloc::{AllocError, Global};
use std::marker::Model;

/// By the name of a replication, the last write of its fork at which nothing was to be pushed. A
/// turn that ends with a pull tells it, and so does a delivery that found it so. It holds until the
/// fork is written again.
#[derive(Drop)]
pub(crate) struct Marks {
    by_name: IndexMap<String, Option<u64>>,
}

impl Model for Marks {
    ghost use Rattle.std.specs.Prelude.{ℕ, List, Option};
    ghost use Rattle.rx_value.specs.Named.{by_bytes};

    ghost Value = { List (List ℕ × Option ℕ) };

    ghost view = { λ m. by_bytes m.by_name.entries };
}

impl Marks {
    pub(crate) fn new(alloc: Global) -> Marks
        ensures { result ≡ [] }
    {
        Marks {
            by_name: IndexMap::new(alloc),
        }
    }

    /// Whether a mark tells that nothing is to be pushed.
    pub(crate) fn tell_none(&self, world: &World<Live>, name: &str) -> bool
        requires marked { AreMarked (world_of world.now) self.now }
        ensures { result ≡ true → pending_in (world_of world.now) name.now ≡ Some 0 }
    {
        match self.by_name.get(name) {
            Some(Some(lwt)) => was_last(world, name, *lwt),
            Some(None) => false,
            None => false,
        }
    }

    /// Marks the last write of the fork, where nothing is to be pushed, and takes its mark away
    /// where that isn't known.
    pub(crate) fn set(
        &mut self,
        alloc: Global,
        world: &World<Live>,
        name: &str,
        none: bool,
    ) -> Result<(), AllocError>
        requires none { none ≡ true → pending_in (world_of world.now) name.now ≡ Some 0 }
        requires others { AreMarkedBut name.now (world_of world.now) self.old }
        ensures { OnOk result (AreMarked (world_of world.now) self.new) }
    {
        let mark = if none { last_write(world, name) } else { None };
        self.by_name.insert(String::from_str(alloc, name)?, mark)?;
        Ok(())
    }
}

/// Ends a line in play that made a turn or a delivery, and marks its replication.
pub(crate) fn settle_turn(
    alloc: Global,
    playing: Playing,
    marks: &mut Marks,
    name: &str,
    none: bool,
) -> Result<(Session, Vec<Emission>), AllocError>
    requires none { none ≡ true → pending_in playing.world name.now ≡ Some 0 }
    requires others { AreMarkedBut name.now playing.world marks.old }
    ensures session { IfOk result (λ p. p.0 ≡ settled_session playing) }
    ensures emissions { IfOk result (λ p. p.1.items ≡ emissions playing) }
    ensures marked { IfOk result (λ p. AreMarked p.0.world marks.new) }
{
    marks.set(alloc, playing.world(), name, none)?;
    let (session, emissions) = playing.settle(alloc)?;
    Ok((session, emissions))
}

// Whether the fork's last write was at that time.
fn was_last(world: &World<Live>, name: &str, lwt: u64) -> bool
    ensures { result ≡ true → IsLastWrite (world_of world.now) name.now lwt }
{
    last_write(world, name) == Some(lwt)
}

// When the fork of a replication was written last.
fn last_write(world: &World<Live>, name: &str) -> Option<u64>
    ensures { IfSome result (IsLastWrite (world_of world.now) name.now) }
{
    let replication = world.replication(name)?;
    let fork = world.holder(replication.fork.as_str())?;
    Some(fork.collection().last_lwt())
}
