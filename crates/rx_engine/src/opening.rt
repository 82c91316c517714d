// Opening a journal for a run, at its start and again.
ghost use Rattle.std.specs.Prelude.{◌≡◌, ◌≤◌, ◌<◌, ◌+◌, ◌^◌, ℕ, List, [], ◌∷◌, IfOk, IsErrOf};
ghost use Rattle.std.specs.Bool.{Decides};
ghost use Rattle.rx_journal.specs.Reading.{IsUntouched};
ghost use Rattle.rx_outside.specs.declared.stop.Stop.TheVariants as Stop;
ghost use Rattle.rx_record.specs.Content.{epoch};
ghost use Rattle.rx_record.specs.Shown.{content};
ghost use Rattle.rx_session.specs.Placed.{AreUnwatched, world_of};
ghost use Rattle.rx_store.specs.Holds.{Holds, IsIllegalFile, IsJournalOfSome, IsLegalFile};
ghost use Rattle.rx_store.specs.Safe.{HasDiskCause, IsCrashSafe};
ghost use Rattle.rx_world.specs.Holders.{holders_in};
ghost use Rattle.rx_world.specs.Made.{IsMadeWorld};
ghost use Rattle.rx_world.specs.Sound.{IsSoundWorld};
ghost use Rattle.rx_world.specs.Step.{step};
ghost use Rattle.rx_world.specs.Valid.{AreDistinct};
ghost use Rattle.rx_world.specs.World as worlds;
ghost use Rattle.rx_engine.specs.Opening.{epoch_body, next_epoch};

use crate::lives;
use rx_diagram::Diagram;
use rx_disk::Disk;
use rx_journal::Journal;
use rx_observe::Live;
use rx_outside::Stop;
use rx_record::Record;
use rx_session::Session;
use rx_store::keep;
use rx_world::World;
use std::alloc::{AllocError, Global};
use std::rc::Rc;

/// A journal that was opened, and the world in its new epoch.
#[derive(Drop)]
pub(crate) struct Opened {
    pub journal: Journal,
    pub world: World<Live>,
}

/// Opens a journal, and begins a new epoch.
pub(crate) fn open<D: Disk>(
    alloc: Global,
    disk: &mut D,
    limit: u64,
    diagram: &Rc<Diagram>,
) -> Result<Opened, Stop>
    requires low { 9 ≤ limit }
    requires high { limit < 2 ^ 32 }
    ensures stood { D.tells → IfOk result (λ _. IsJournalOfSome (D.content disk.old)) }
    ensures full_stood { D.tells → (would most : ℕ) → IsErrOf result (Stop.Full would most)
        → IsJournalOfSome (D.content disk.old) }
    ensures opened { D.tells → (bodies : List (List ℕ)) (w : worlds.World)
        → IsLegalFile (D.content disk.old) bodies w
        → IfOk result (λ o. world_of o.world ≡ next_epoch w) }
    ensures begun { IfOk result (λ o. (w : worlds.World) × (world_of o.world ≡ next_epoch w)) }
    ensures unwatched { IfOk result (λ o. AreUnwatched (holders_in o.world)) }
    ensures distinct { IfOk result (λ o. AreDistinct (world_of o.world)) }
    ensures made { IfOk result (λ o. IsMadeWorld (world_of o.world)) }
    ensures sound { IfOk result (λ o. IsSoundWorld (world_of o.world)) }
    ensures limit { IfOk result (λ o. o.journal.limit ≡ limit) }
    ensures safe { D.tells → (bodies : List (List ℕ)) (w : worlds.World)
        → IsLegalFile (D.content disk.old) bodies w
        → IsCrashSafe D.Disk disk.old disk.new bodies (epoch_body w ∷ []) limit
        (λ o all. Holds D.Disk disk.new o.journal all (next_epoch w)) result }
    ensures illegal { D.tells → IsIllegalFile (D.content disk.old)
        → IsUntouched D.Disk disk.old disk.new }
    ensures cause { HasDiskCause (D.faults disk.old) (D.faults disk.new) result }
{
    let opened = lives::open(alloc, disk, limit, diagram)?;
    let (journal, world) = opened;
    let entry = Record::Epoch {
        number: world.epoch() + 1,
    };
    let journal = keep(alloc, journal, disk, &entry)?;
    let world = next_epoch(alloc, world, entry, diagram)?;
    Ok(Opened { journal, world })
}

// The world after the record of its next epoch.
fn next_epoch(
    alloc: Global,
    world: World<Live>,
    entry: Record,
    diagram: &Rc<Diagram>,
) -> Result<World<Live>, AllocError>
    requires next { content entry ≡ epoch ((world_of world).epoch + 1) }
    requires unwatched { AreUnwatched (holders_in world) }
    ensures world { IfOk result (λ w. world_of w ≡ next_epoch (world_of world)) }
    ensures unwatched { IfOk result (λ w. AreUnwatched (holders_in w)) }
    ensures distinct { IfOk result (λ w. AreDistinct (world_of w)) }
    ensures made { IfOk result (λ w. IsMadeWorld (world_of w)) }
{
    match rx_session::apply(world, alloc, entry, diagram) {
        Ok(world) => Ok(world),
        Err(_) => Err(AllocError),
    }
}

/// Whether a world is that of the session in an epoch.
pub(crate) fn is_next(session: &Session, world: &World<Live>, number: u64) -> bool
    ensures { Decides result (world_of world.now ≡ step (epoch number) session.now.world) }
{
    world.epoch() == number && session.has_same(world)
}
