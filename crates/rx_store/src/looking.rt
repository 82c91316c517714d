// Reads a journal and leaves it as it is.
ghost use Rattle.std.specs.Prelude.{◌≡◌, ℕ, List, length, false, IfOk, IsErrOf};
ghost use Rattle.rx_disk.specs.Calls.{OnlyReads};
ghost use Rattle.rx_frame.specs.File.{end_of};
ghost use Rattle.rx_journal.specs.Reading.{IsUntouched};
ghost use Rattle.rx_outside.specs.declared.stop.Stop.TheVariants as Stop;
ghost use Rattle.rx_store.specs.Holds.{IsIllegalFile, IsJournalOfSome, IsLegalFile};
ghost use Rattle.rx_store.specs.Safe.{HasDiskCause};
ghost use Rattle.rx_world.specs.Holders.{world_in};
ghost use Rattle.rx_world.specs.Sound.{IsSoundWorld};
ghost use Rattle.rx_world.specs.World as worlds;

use crate::replaying::replay;
use crate::stopping::of_open;
use rx_collection::{Collection, Holder};
use rx_disk::Disk;
use rx_journal::{SHORTEST, Windows};
use rx_outside::Stop;
use rx_world::World;
use std::alloc::{AllocError, Global};

/// What there is to see of a journal: the world that its records make, how many they are, and where
/// the file ends with its closed gate.
#[derive(Drop)]
pub struct Looked<H: Holder + Drop> {
    pub world: World<H>,
    pub records: u64,
    pub end: u64,
}

/// Reads a journal of either version and plays its records as an opening does, and writes nothing.
pub fn look<H: Holder + Drop, D: Disk, F: Fn(Collection) -> Result<H, AllocError>>(
    alloc: Global,
    disk: &mut D,
    make: &F,
) -> Result<Looked<H>, Stop>
    requires callable { F.IsAlwaysCallable make.now }
    requires makes { (c : _) (r : _) → F.post make.now c r
        → IfOk r (λ h. (H.held h ≡ c) × (H.is_broken h ≡ false)) }

    // A file that is legal is shown, and no other.
    ensures shown { D.tells → (bodies : List (List ℕ)) (w : worlds.World)
        → IsLegalFile (D.content disk.old) bodies w → IfOk result (λ l.
        (world_in H.held l.world ≡ w) × (l.records ≡ length bodies) × (l.end ≡ end_of bodies)) }
    ensures stood { D.tells → IfOk result (λ _. IsJournalOfSome (D.content disk.old)) }
    ensures not_journal { D.tells → IsErrOf result Stop.NotJournal
        → IsIllegalFile (D.content disk.old) }

    ensures sound { IfOk result (λ l. IsSoundWorld (world_in H.held l.world)) }
    ensures untouched { D.tells → IsUntouched D.Disk disk.old disk.new }
    ensures only_reads { D.tells → OnlyReads D.Disk disk.old disk.new }
    ensures no_full { (would most : ℕ) → IsErrOf result (Stop.Full would most) → ⊥ }
    ensures cause { HasDiskCause (D.faults disk.old) (D.faults disk.new) result }
{
    let mut windows = match Windows::look(alloc, disk) {
        Ok(windows) => windows,
        Err(fault) => return Err(of_open(fault)),
    };
    let replayed = replay(alloc, disk, &mut windows, make)?;
    if !replayed.world.sound() {
        return Err(Stop::NotJournal);
    }
    Ok(Looked {
        world: replayed.world,
        records: replayed.records,
        end: SHORTEST + replayed.bytes,
    })
}
