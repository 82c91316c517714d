// A journal of the second version, record by record.
ghost use Rattle.std.specs.Prelude.{◌≡◌, ◌≤◌, ◌*◌, ◌∷◌, [], ℕ, List, length, map, IfOk, IsErrOf};
ghost use Rattle.rx_frame.specs.File.{shortest};
ghost use Rattle.rx_journal.specs.Ready.{IsReady, due_end};
ghost use Rattle.rx_outside.specs.declared.stop.Stop.TheVariants as Stop;
ghost use Rattle.rx_record.specs.Content.{Content, content_bytes};
ghost use Rattle.rx_record.specs.Shown.{content};
ghost use Rattle.rx_record.specs.Writable.{IsOrdered};
ghost use Rattle.rx_disk.specs.Moments.{LeavesOnly};
ghost use Rattle.rx_store.specs.Safe.{HasDiskCause};

use rx_disk::Disk;
use rx_journal::{Journal, LONGEST, OpenFault, SHORTEST};
use rx_outside::Stop;
use rx_record::Record;
use rx_store::stage;
use std::alloc::Global;

/// How many bytes are staged before they are written.
const ROOM: u64 = 1_048_576;

/// A copy in the making.
#[derive(Drop)]
pub(crate) struct Copying {
    pub journal: Journal,
    pub records: u64,
    // Each record takes five bytes at least, so they can be counted.
    ghost few: { records * 5 ≤ due_end journal },
}

impl Copying {
    ghost use Rattle.rx_compact.specs.Writing.{Adds, HasWritten, IsFront, IsGoing};

    /// Begins a copy in an empty file.
    pub(crate) fn begin<D: Disk>(alloc: Global, disk: &mut D, limit: u64) -> Result<Copying, Stop>
        requires empty { D.tells → D.content disk.old ≡ [] }
        requires low { SHORTEST ≤ limit }
        requires high { limit ≤ LONGEST }
        ensures begun { D.tells → ((c : List ℕ) → D.image disk.old c → length c ≤ shortest)
            → IfOk result (λ copy. HasWritten D.Disk disk.old disk.new copy []) }
        ensures moments { D.tells → ((c : List ℕ) → D.image disk.old c → length c ≤ shortest)
            → LeavesOnly D.Disk disk.old disk.new (IsFront []) }
        ensures limit { IfOk result (λ copy. copy.journal.limit ≡ limit) }
        ensures disk_only { (stop : _) → IsErrOf result stop → stop ≡ Stop.Disk }
        ensures cause { HasDiskCause (D.faults disk.old) (D.faults disk.new) result }
    {
        match Journal::make(alloc, disk, limit) {
            Ok(journal) => Ok(Copying {
                journal,
                records: 0,
            }),
            Err(OpenFault::Disk) => Err(Stop::Disk),
            Err(OpenFault::Memory | OpenFault::NotJournal) => unreachable!(),
        }
    }

    /// Adds a record, and writes what is staged where that is much. Where it stops, what was added
    /// before is written: a file without a record would be taken for a journal that holds nothing.
    pub(crate) fn add<D: Disk>(
        self,
        alloc: Global,
        disk: &mut D,
        entry: &Record,
    ) -> Result<Copying, Stop>
        requires going { IsGoing D.Disk disk.old self }
        requires ordered { IsOrdered (content entry.now) }
        ensures { Adds D.Disk disk.old disk.new self (content entry.now ∷ []) result }
    {
        let Copying {
            mut journal,
            records,
        } = self;
        match stage(alloc, &mut journal, entry) {
            Ok(()) => Copying {
                journal,
                records: records + 1,
            }
            .write_if_much(disk),
            Err(stop) => {
                Copying { journal, records }.commit(disk)?;
                Err(stop)
            }
        }
    }

    fn write_if_much<D: Disk>(self, disk: &mut D) -> Result<Copying, Stop>
        requires going { IsGoing D.Disk disk.old self }
        ensures { Adds D.Disk disk.old disk.new self [] result }
    {
        if self.journal.staged_len() < ROOM {
            return Ok(self);
        }
        self.commit(disk)
    }

    /// Writes what is staged.
    pub(crate) fn commit<D: Disk>(self, disk: &mut D) -> Result<Copying, Stop>
        requires going { IsGoing D.Disk disk.old self }
        ensures adds { Adds D.Disk disk.old disk.new self [] result }
        ensures disk_only { (stop : _) → IsErrOf result stop → stop ≡ Stop.Disk }
        ensures whole { D.tells → (first : _) (cs : List Content)
            → HasWritten D.Disk first disk.old self cs → IfOk result (λ next.
            IsReady D.Disk disk.new next.journal (map content_bytes cs)) }
    {
        match self.journal.commit(disk) {
            Ok(journal) => Ok(Copying {
                journal,
                records: self.records,
            }),
            Err(_) => Err(Stop::Disk),
        }
    }
}
