// A disk that is a file of the system. It tells nothing of its content.
ghost use Rattle.std.specs.Prelude.{◌≡◌, ◌≤◌, [], List, length, IfOk};
ghost use Rattle.rx_outside.specs.Failed.{Rises};

use crate::Disk;
use rx_outside::Failed;
use rx_value::RxText;
use std::fs::{File, Files, OpenFile, OpenOptions};
use std::os::unix::fs::{FileExt, MetadataExt};
use std::path::Path;
use std::{fs, io};

/// Opens its file at the first use. A file that isn't there then reads as empty, and is made at the
/// first write; where another process has made it by then, the disk failed. From its first sync or
/// write on it has the file's lock, and where another process has that, the disk failed. From then
/// on the path has to lead to this file at each sync and each read: a file that was renamed or
/// replaced is another process's to come. A disk that is only read takes no lock.
#[derive(Drop)]
pub struct FileDisk<R: Files<File = File> + Drop> {
    rt: R,
    path: RxText,
    file: Option<File>,
    /// Whether the file was looked for and wasn't there.
    missing: bool,
    /// Whether the file is for this disk alone, from when it is there on.
    locks: bool,
    locked: bool,
    /// Whether the file's name was made safe.
    named: bool,
    failed: u64,
}

impl<R: Files<File = File> + Drop> FileDisk<R> {
    /// A disk that is the file of this name. Nothing is opened yet.
    pub fn new(rt: R, path: RxText) -> FileDisk<R>
        ensures { ⟦<FileDisk<R> as Disk>⟧.faults result ≡ 0 }
    {
        FileDisk {
            rt,
            path,
            file: None,
            missing: false,
            locks: false,
            locked: false,
            named: false,
            failed: 0,
        }
    }

    fn fail(&mut self) -> Failed
        ensures rises { Rises self.old.failed self.new.failed }
        ensures later { self.old.failed ≤ self.new.failed }
    {
        self.failed = self.failed.saturating_add(1);
        Failed
    }

    // Opens the file, if there is one.
    fn open(&mut self) -> io::Result<()>
        ensures { self.new.failed ≡ self.old.failed }
    {
        if self.file.is_none() && !self.missing {
            self.file = open_if_there(&self.rt, self.path.as_str())?;
            self.missing = self.file.is_none();
        }
        self.lock()
    }

    // Waits for nobody: another process that has the lock may write at any time.
    fn lock(&mut self) -> io::Result<()>
        ensures { self.new.failed ≡ self.old.failed }
    {
        match &self.file {
            Some(file) if self.locks && !self.locked => file.try_lock()?,
            _ => return Ok(()),
        }
        self.locked = true;
        self.keep_place()
    }

    // The lock is the file's, not the path's: another process could lock what stands there now.
    fn keep_place(&self) -> io::Result<()> {
        match &self.file {
            Some(file) if self.locked && !leads_to(&self.rt, self.path.as_str(), file)? => {
                Err(io::ErrorKind::NotFound.into())
            }
            _ => Ok(()),
        }
    }

    fn make(&mut self) -> io::Result<()>
        ensures { self.new.failed ≡ self.old.failed }
    {
        if self.file.is_none() {
            self.file = Some(File::create_new(&self.rt, self.path.as_str())?);
        }
        self.lock()
    }

    fn try_read(&mut self, at: u64, into: &mut [u8]) -> io::Result<usize>
        ensures same { self.new.failed ≡ self.old.failed }
        ensures within { IfOk result (λ n. n ≤ length into.old) }
    {
        self.open()?;
        self.keep_place()?;
        match &self.file {
            None => Ok(0),
            Some(file) => read_at(file, at, into),
        }
    }

    fn try_write(&mut self, at: u64, bytes: &[u8]) -> io::Result<()>
        ensures { self.new.failed ≡ self.old.failed }
    {
        self.locks = true;
        self.open()?;
        self.make()?;
        match &self.file {
            None => Err(io::ErrorKind::NotFound.into()),
            Some(file) => file.write_all_at(bytes, at),
        }
    }

    // The folder is synced once, since a sync of the file doesn't keep its name. Another run that
    // made the file may have been stopped before it came to this.
    fn try_sync(&mut self) -> io::Result<()>
        ensures { self.new.failed ≡ self.old.failed }
    {
        self.locks = true;
        self.open()?;
        let Some(file) = &self.file else {
            return Ok(());
        };
        file.sync_data()?;
        if !self.named {
            sync_folder(&self.rt, self.path.as_str())?;
            self.named = true;
        }
        self.keep_place()
    }
}

fn open_if_there<R: Files<File = File>>(rt: &R, path: &str) -> io::Result<Option<File>> {
    match OpenOptions::new().read(true).write(true).open(rt, path) {
        Ok(file) => Ok(Some(file)),
        Err(e) if e.kind() == io::ErrorKind::NotFound => Ok(None),
        Err(e) => Err(e),
    }
}

// Whether a path leads to a file, by the numbers that the system gives to what is open and to what
// stands there.
fn leads_to<R: Files<File = File>>(rt: &R, path: &str, file: &File) -> io::Result<bool> {
    let there = fs::metadata(rt, path)?;
    let here = file.metadata()?;
    Ok((there.dev(), there.ino()) == (here.dev(), here.ino()))
}

// Syncs the folder in which a file stands.
fn sync_folder<R: Files<File = File>>(rt: &R, path: &str) -> io::Result<()> {
    let folder = match Path::new(path).parent() {
        Some(folder) if folder.as_str() != "" => folder,
        _ => Path::new("."),
    };
    File::open(rt, folder)?.sync_all()
}

// Reads until the piece is full or the file ends.
fn read_at(file: &File, at: u64, into: &mut [u8]) -> io::Result<usize>
    ensures { IfOk result (λ n. n ≤ length into.old) }
{
    let mut done = 0;
    while done < into.len() {
        let place = at
            .checked_add(done as u64)
            .ok_or(io::ErrorKind::InvalidInput)?;
        let count = file.read_at(&mut into[done..], place)?;
        if count == 0 {
            return Ok(done);
        }
        done += count;
    }
    Ok(done)
}

impl<R: Files<File = File> + Drop> Disk for FileDisk<R> {
    ghost tells = { ⊥ };

    ghost faults = { λ d. d.failed };

    ghost reads = { λ _. 0 };

    ghost changes = { λ _. 0 };

    ghost content = { λ _. [] };

    ghost image = { λ _ _. Unit };

    ghost moment = { λ _. 0 };

    ghost image_since = { λ _ _ _. Unit };

    ghost reads_as = { λ _ told. absurd told };

    ghost counts_now = { λ _ _ _ told _ _. absurd told };

    ghost only_now = { λ _ _ told _. absurd told };

    fn read(&mut self, at: u64, into: &mut [u8]) -> Result<usize, Failed> {
        match self.try_read(at, into) {
            Ok(count) => Ok(count),
            Err(_) => Err(self.fail()),
        }
    }

    fn write_at(&mut self, at: u64, bytes: &[u8]) -> Result<(), Failed> {
        match self.try_write(at, bytes) {
            Ok(()) => Ok(()),
            Err(_) => Err(self.fail()),
        }
    }

    fn sync(&mut self) -> Result<(), Failed> {
        match self.try_sync() {
            Ok(()) => Ok(()),
            Err(_) => Err(self.fail()),
        }
    }
}
