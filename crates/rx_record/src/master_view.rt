ghost use Rattle.rx_record.specs.Reading.{Reads};
ghost use Rattle.rx_record.specs.Masters.{master_of};
ghost use Rattle.rx_record.specs.Views.{master_in};

use crate::reading::{Read, read_flag, read_short, read_text};
use crate::record::MasterName;
use rx_value::RxText;
use std::alloc::{AllocError, Global};

/// Where the master of a replication is, its name lent from the bytes of a record.
#[derive(Clone, Copy, Debug)]
pub enum MasterView<'a> {
    Local(&'a str),
    Port(u16),
}

impl<'a> MasterView<'a> {
    ghost use Rattle.std.specs.Prelude.{◌≡◌, IfOk};

    /// The master in memory of its own.
    pub fn own(&self, alloc: Global) -> Result<MasterName, AllocError>
        ensures { IfOk result (λ master. master ≡ master_in self.now) }
    {
        match self {
            MasterView::Local(name) => Ok(MasterName::Local(RxText::new(alloc, name)?)),
            MasterView::Port(port) => Ok(MasterName::Port(*port)),
        }
    }
}

pub(crate) fn read_master(bytes: &[u8]) -> Read<'_, MasterView<'_>>
    ensures { Reads master_in result (master_of bytes.now) }
{
    let (remote, rest) = read_flag(bytes)?;
    if remote {
        let (port, rest) = read_short(rest)?;
        Ok((MasterView::Port(port), rest))
    } else {
        let (name, rest) = read_text(rest)?;
        Ok((MasterView::Local(name), rest))
    }
}
