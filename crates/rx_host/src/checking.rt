// Reports what a journal holds.
ghost use Rattle.std.specs.Prelude.{◌≡◌, ◌++◌, ℕ, List, length, IfOk, OnOk, IsErrOf, string_bytes};
ghost use Rattle.rx_disk.specs.Calls.{OnlyReads};
ghost use Rattle.rx_frame.specs.File.{end_of};
ghost use Rattle.rx_host.specs.Report.{report_of};
ghost use Rattle.rx_journal.specs.Reading.{IsUntouched};
ghost use Rattle.rx_outside.specs.declared.stop.Stop.TheVariants as Stop;
ghost use Rattle.rx_store.specs.Holds.{IsIllegalFile, IsJournalOfSome, IsLegalFile};
ghost use Rattle.rx_store.specs.Safe.{HasDiskCause};
ghost use Rattle.rx_world.specs.World as worlds;

use crate::report::report;
use rx_collection::Plain;
use rx_disk::Disk;
use rx_outside::Stop;
use rx_store::look;
use std::alloc::Global;

/// The lines that tell what a journal holds. It is read alone.
pub fn check<D: Disk>(alloc: Global, disk: &mut D) -> Result<String, Stop>
    // The file is legal, and the lines are those of its world; no other file is reported of.
    ensures report { D.tells → (bodies : List (List ℕ)) (w : worlds.World)
        → IsLegalFile (D.content disk.old) bodies w
        → IfOk result (λ t. string_bytes t ≡ report_of w (end_of bodies) (length bodies)) }
    ensures somewhere { IfOk result (λ t. (w : worlds.World) × (last : ℕ) × (records : ℕ)
        × (string_bytes t ≡ report_of w last records)) }
    ensures stood { D.tells → OnOk result (IsJournalOfSome (D.content disk.old)) }
    ensures not_journal { D.tells → IsErrOf result Stop.NotJournal
        → IsIllegalFile (D.content disk.old) }

    ensures untouched { D.tells → IsUntouched D.Disk disk.old disk.new }
    ensures only_reads { D.tells → OnlyReads D.Disk disk.old disk.new }
    ensures no_full { (would most : ℕ) → IsErrOf result (Stop.Full would most) → ⊥ }
    ensures cause { HasDiskCause (D.faults disk.old) (D.faults disk.new) result }
{
    let looked = match look(alloc, disk, &|collection| Ok(Plain::new(collection))) {
        Ok(looked) => looked,
        Err(stop) => return Err(stop),
    };
    Ok(report(alloc, &looked.world, looked.end, looked.records)?)
}
