// The command `check`: what a journal holds is reported.
ghost use Rattle.rx_top.specs.ReportsJournal.{ReportsJournal};

use crate::telling::tell;
use rx_disk::Disk;
use rx_outside::Sink;
use std::alloc::Global;

/// Reports what the journal holds that the disk is, and answers the status.
pub(crate) fn check<K: Sink, D: Disk>(alloc: Global, out: &mut K, disk: &mut D) -> u8
    ensures reports { ReportsJournal K.Sink D.Disk result out.old out.new disk.old disk.new }
{
    let told = rx_host::check(alloc, disk);
    tell(out, &told)
}
