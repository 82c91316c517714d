// Makes a journal of the second version.
ghost use Rattle.std.specs.Prelude.{◌≡◌, ◌≤◌, [], ◌∷◌, ◌++◌, IfOk, IsErrOf, OnOk};
ghost use Rattle.rx_disk.specs.Calls.{MakesChanges};
ghost use Rattle.rx_disk.specs.Moments.{LeavesOnly};
ghost use Rattle.rx_frame.specs.File.{closed_gate, second_header};
ghost use Rattle.rx_journal.specs.Opening.{IsNoWorse};
ghost use Rattle.rx_journal.specs.Ready.{IsReady};
ghost use Rattle.rx_outside.specs.Failed.{Rises};

use crate::durable::write_durably;
use crate::open::OpenFault;
use crate::{Journal, LONGEST, SHORTEST};
use rx_disk::Disk;
use std::alloc::Global;

// The second version's header and a closed gate.
const MADE: [u8; 9] = *b"RXJOURN2\0";

impl Journal {
    /// Makes a journal of the second version, without records, of an empty file.
    pub fn make<D: Disk>(alloc: Global, disk: &mut D, limit: u64) -> Result<Journal, OpenFault>
        requires empty { D.tells → D.content disk.old ≡ [] }
        requires low { SHORTEST ≤ limit }
        requires high { limit ≤ LONGEST }

        // At `Ok` the file is the header and a closed gate, and records may be added to it.
        ensures made { D.tells → OnOk result
            (D.content disk.new ≡ second_header ++ closed_gate ∷ []) }
        ensures ready { D.tells → IfOk result (λ journal. IsReady D.Disk disk.new journal []) }
        ensures limit { IfOk result (λ journal. journal.limit ≡ limit) }

        // At each moment an image is one that the disk had, or is too short for records.
        ensures moments { D.tells → LeavesOnly D.Disk disk.old disk.new (IsNoWorse D.Disk disk.old) }

        // It takes a sync, and a write with a sync.
        ensures calls { D.tells → OnOk result (MakesChanges D.Disk 3 disk.old disk.new) }

        ensures memory { IsErrOf result OpenFault.Memory → ⊥ }
        ensures not_journal { IsErrOf result OpenFault.NotJournal → ⊥ }
        ensures disk_only { IsErrOf result OpenFault.Disk
            → Rises (D.faults disk.old) (D.faults disk.new) }
        ensures faults { D.faults disk.old ≤ D.faults disk.new }
    {
        disk.sync()?;
        write_durably(disk, 0, &MADE)?;
        Ok(Journal {
            end: SHORTEST,
            limit,
            staged: Vec::new(alloc),
        })
    }
}
