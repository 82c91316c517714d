// Opening a journal, whose collections come to be observed only once all of it is read.
ghost use Rattle.std.specs.Prelude.{◌≡◌, ◌≤◌, ◌<◌, ◌^◌, ℕ, List, [], IfOk, IsErrOf};
ghost use Rattle.rx_journal.specs.Reading.{IsUntouched};
ghost use Rattle.rx_outside.specs.declared.stop.Stop.TheVariants as Stop;
ghost use Rattle.rx_session.specs.Placed.{AreUnwatched, world_of};
ghost use Rattle.rx_store.specs.Holds.{Holds, IsIllegalFile, IsJournalOfSome, IsLegalFile};
ghost use Rattle.rx_store.specs.Safe.{HasDiskCause, IsCrashSafe};
ghost use Rattle.rx_world.specs.Holders.{holders_in};
ghost use Rattle.rx_world.specs.Sound.{IsSoundWorld};
ghost use Rattle.rx_world.specs.World as worlds;

use rx_collection::Plain;
use rx_diagram::Diagram;
use rx_disk::Disk;
use rx_journal::Journal;
use rx_observe::Live;
use rx_outside::Stop;
use rx_world::{World, with_holders};
use std::alloc::Global;
use std::rc::Rc;

/// Opens a journal. Its rows are put into plain collections, and the indexes of each are made at
/// the end, from the documents that are left.
pub(crate) fn open<D: Disk>(
    alloc: Global,
    disk: &mut D,
    limit: u64,
    diagram: &Rc<Diagram>,
) -> Result<(Journal, World<Live>), Stop>
    requires low { 9 ≤ limit }
    requires high { limit < 2 ^ 32 }
    ensures stood { D.tells → IfOk result (λ _. IsJournalOfSome (D.content disk.old)) }
    ensures world { D.tells → (bodies : List (List ℕ)) (w : worlds.World)
        → IsLegalFile (D.content disk.old) bodies w → IfOk result (λ p. world_of p.1 ≡ w) }
    ensures sound { IfOk result (λ p. IsSoundWorld (world_of p.1)) }
    ensures unwatched { IfOk result (λ p. AreUnwatched (holders_in p.1)) }
    ensures safe { D.tells → (bodies : List (List ℕ)) (w : worlds.World)
        → IsLegalFile (D.content disk.old) bodies w
        → IsCrashSafe D.Disk disk.old disk.new bodies [] limit
        (λ p all. Holds D.Disk disk.new p.0 all w) result }
    ensures limit { IfOk result (λ p. p.0.limit ≡ limit) }
    ensures epoch { IfOk result (λ p. p.1.epoch < 2 ^ 53) }
    ensures illegal { D.tells → IsIllegalFile (D.content disk.old)
        → IsUntouched D.Disk disk.old disk.new }
    ensures no_full { (would most : ℕ) → IsErrOf result (Stop.Full would most) → ⊥ }
    ensures cause { HasDiskCause (D.faults disk.old) (D.faults disk.new) result }
{
    let opened = rx_store::open(alloc, disk, limit, &|collection| Ok(Plain::new(collection)))?;
    let (journal, plain) = opened;
    let world = with_holders(
        alloc,
        plain,
        &|collection| { Live::new(alloc, collection, diagram.clone()?) },
    )?;
    Ok((journal, world))
}
