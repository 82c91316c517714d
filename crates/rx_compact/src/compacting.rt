// Makes the copy of a journal.
ghost use Rattle.std.specs.Prelude.{◌≡◌, ◌≢◌, ◌⊎◌, ◌≤◌, ◌<◌, ℕ, List, [], true, IfOk, IsErrOf};
ghost use Rattle.std.specs.Bool.{Decides};
ghost use Rattle.rx_compact.specs.Compacting.{Fills, IsEmptyDisk};
ghost use Rattle.rx_compact.specs.Plan.{plan};
ghost use Rattle.rx_compact.specs.Writing.{IsCopied, IsPast, IsSafeCopy};
ghost use Rattle.rx_compact.specs.declared.compacting.CompactFault.TheVariants as fault;
ghost use Rattle.rx_disk.specs.Disk.{HasCause};
ghost use Rattle.rx_disk.specs.Moments.{LeavesOnly};
ghost use Rattle.rx_frame.specs.File.{end_of};
ghost use Rattle.rx_journal.specs.Reading.{IsUntouched};
ghost use Rattle.rx_outside.specs.Failed.{Rises};
ghost use Rattle.rx_outside.specs.declared.stop.Stop.TheVariants as Stop;
ghost use Rattle.rx_store.specs.Holds.{IsIllegalFile, IsLegalFile};
ghost use Rattle.rx_world.specs.Copy.{most_copied_epoch};
ghost use Rattle.rx_world.specs.Holders.{world_in};
ghost use Rattle.rx_world.specs.Sound.{IsSoundWorld};
ghost use Rattle.rx_world.specs.World as worlds;

use crate::copying::{Copied, write_copy};
use rx_collection::{Holder, Plain};
use rx_disk::Disk;
use rx_journal::{LONGEST, SHORTEST};
use rx_outside::{Failed, Stop};
use rx_store::{Looked, look};
use rx_world::MOST_COPIED_EPOCH;
use std::alloc::Global;
use thiserror::Error;

/// What came of a copy: how many bytes the journal has, and what the copy has.
#[derive(Drop)]
pub struct Compacted {
    pub from: u64,
    pub copied: Copied,
}

/// Why no copy was made.
#[derive(Debug, Drop, Error)]
pub enum CompactFault {
    /// The journal's epoch is above 2^52.
    #[error("the epoch is too great for a copy")]
    Epoch,
    /// The file for the copy holds a byte.
    #[error("the file exists")]
    Exists,
    #[error("the work on a journal stopped")]
    Stopped(Stop),
}

impl From<Stop> for CompactFault {
    ghost from_gives = { λ stop e. e ≡ fault.Stopped stop };

    fn from(stop: Stop) -> Self {
        CompactFault::Stopped(stop)
    }
}

impl From<Failed> for CompactFault {
    ghost from_gives = { λ _ e. e ≡ fault.Stopped Stop.Disk };

    fn from(_: Failed) -> Self {
        CompactFault::Stopped(Stop::Disk)
    }
}

/// Copies what a journal holds into an empty file. The journal is synced first, so that no run
/// writes to it meanwhile: a copy of less than it holds would be no copy.
pub fn compact<D: Disk, E: Disk>(
    alloc: Global,
    disk: &mut D,
    copy: &mut E,
    limit: u64,
) -> Result<Compacted, CompactFault>
    requires low { SHORTEST ≤ limit }
    requires high { limit ≤ LONGEST }

    // At `Ok` the copy makes the journal's world, now and after a crash.
    ensures copied { D.tells → E.tells → IsEmptyDisk E.Disk copy.old → (bodies : List (List ℕ))
        (w : worlds.World) → IsLegalFile (D.content disk.old) bodies w → IfOk result (λ made.
        IsCopied E.Disk copy.new w made.copied × (made.from ≡ end_of bodies)) }

    // At each moment an image of it has no record, is no journal, or makes that world.
    ensures moments { D.tells → E.tells → IsEmptyDisk E.Disk copy.old → (bodies : List (List ℕ))
        (w : worlds.World) → IsLegalFile (D.content disk.old) bodies w
        → LeavesOnly E.Disk copy.old copy.new (IsSafeCopy w) }

    // The journal is left as it is.
    ensures untouched { D.tells → IsUntouched D.Disk disk.old disk.new }

    // Only an epoch above 2^52 is too great, and only a file with a byte exists.
    ensures epoch { D.tells → IsErrOf result fault.Epoch → (bodies : List (List ℕ))
        (w : worlds.World) → IsLegalFile (D.content disk.old) bodies w
        → most_copied_epoch < w.epoch }
    ensures exists { E.tells → IsErrOf result fault.Exists → E.content copy.old ≢ [] }

    // Where there is to be no copy, nothing is written for it.
    ensures unmade { IsErrOf result fault.Epoch ⊎ IsErrOf result (fault.Stopped Stop.NotJournal)
        → copy.new ≡ copy.old }
    ensures kept { E.tells → E.content copy.old ≢ [] → IsUntouched E.Disk copy.old copy.new }

    ensures not_journal { D.tells → IsErrOf result (fault.Stopped Stop.NotJournal)
        → IsIllegalFile (D.content disk.old) }
    ensures full { D.tells → E.tells → IsEmptyDisk E.Disk copy.old → (bodies : List (List ℕ))
        (w : worlds.World) → IsLegalFile (D.content disk.old) bodies w → (would most : ℕ)
        → IsErrOf result (fault.Stopped (Stop.Full would most))
        → (most ≡ limit) × IsPast (plan w) would most }
    ensures disk_fault { IsErrOf result (fault.Stopped Stop.Disk)
        → Rises (D.faults disk.old) (D.faults disk.new)
        ⊎ Rises (E.faults copy.old) (E.faults copy.new) }
    ensures disk_faults { D.faults disk.old ≤ D.faults disk.new }
    ensures copy_faults { E.faults copy.old ≤ E.faults copy.new }
{
    disk.sync()?;
    let looked = look(alloc, disk, &|collection| Ok(Plain::new(collection)))?;
    fill(alloc, &looked, copy, limit)
}

// Copies the world that was seen into a file, which is to be empty.
fn fill<H: Holder + Drop, D: Disk>(
    alloc: Global,
    looked: &Looked<H>,
    copy: &mut D,
    limit: u64,
) -> Result<Compacted, CompactFault>
    requires low { SHORTEST ≤ limit }
    requires high { limit ≤ LONGEST }
    requires sound { IsSoundWorld (world_in H.held looked.now.world) }
    ensures { Fills D.Disk copy.old copy.new (world_in H.held looked.now.world) looked.now.end
        limit result }
{
    if looked.world.epoch() > MOST_COPIED_EPOCH {
        return Err(CompactFault::Epoch);
    }
    if !take_empty(copy)? {
        return Err(CompactFault::Exists);
    }
    let copied = write_copy(alloc, &looked.world, copy, limit)?;
    Ok(Compacted {
        from: looked.end,
        copied,
    })
}

// Whether the file is empty. It is locked then, so that it stays so. One that holds a byte isn't
// locked: it may be the journal, which is locked already.
fn take_empty<D: Disk>(disk: &mut D) -> Result<bool, Failed>
    ensures empty { D.tells → IfOk result (λ empty. Decides empty (D.content disk.old ≡ [])) }
    ensures taken { D.tells → IfOk result (λ empty. empty ≡ true → IsEmptyDisk D.Disk disk.new) }
    ensures untouched { D.tells → IsUntouched D.Disk disk.old disk.new }
    ensures cause { HasCause (D.faults disk.old) (D.faults disk.new) result }
{
    if !is_empty(disk)? {
        return Ok(false);
    }
    // Until here another command could write to it.
    disk.sync()?;
    is_empty(disk)
}

fn is_empty<D: Disk>(disk: &mut D) -> Result<bool, Failed>
    ensures empty { D.tells → IfOk result (λ empty. Decides empty (D.content disk.old ≡ [])) }
    ensures untouched { D.tells → IsUntouched D.Disk disk.old disk.new }
    ensures cause { HasCause (D.faults disk.old) (D.faults disk.new) result }
{
    let mut byte = [0];
    Ok(disk.read(0, &mut byte)? == 0)
}
