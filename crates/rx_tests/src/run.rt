// A command over forms in memory.
ghost use Rattle.std.specs.Prelude.{IfOk};
ghost use Rattle.rx_outside.specs.MemoryWire.{Unused};

use rx_disk::MemoryDisk;
use rx_outside::{
    MemoryClock, MemoryDial, MemoryDoor, MemorySink, MemorySource, MemoryWire, Source,
};
use rx_top::program;
use rx_value::RxText;
use rx_words::Words;
use std::alloc::{AllocError, Global};
use std::test::Fail;

/// The words of most runs.
pub const RUN: &str = "run journal";

/// The line before what a peer sends.
pub const PEER: &str = "*\n";

/// The line before what a master elsewhere sends. Its character stands for no byte.
pub const MASTER: &str = "→\n";

/// What stands around a command: the most bytes that a read gives, the numbers of the reads, the
/// writes and the calls of the disk that fail, what the peers send that dial, each behind `PEER`,
/// what the masters send that are dialled, and what the file for a copy holds.
///
/// A master's text stands behind `MASTER`, and a line of the numbers of the calls of its wire that
/// fail. Each of its characters stands for the byte of that number, so that what is no UTF-8 can be
/// sent too.
#[derive(Clone, Copy)]
pub struct Setting<'a> {
    pub piece: usize,
    pub read_fails: &'a [u64],
    pub write_fails: &'a [u64],
    pub disk_fails: &'a [u64],
    pub peers: &'a str,
    pub masters: &'a str,
    pub copy: &'a [u8],
}

impl<'a> Setting<'a> {
    /// A run in which nothing fails.
    pub const PLAIN: Setting<'static> = Setting {
        piece: 4096,
        read_fails: &[],
        write_fails: &[],
        disk_fails: &[],
        peers: "",
        masters: "",
        copy: &[],
    };

    /// The same, where no two lines are read together.
    pub const BYTEWISE: Setting<'static> = Setting {
        piece: 1,
        ..Setting::PLAIN
    };
}

/// The status of a run, what it wrote, what its peers and then its masters were sent, and the disk
/// and that of a copy after it.
#[derive(Drop)]
pub struct Ran {
    pub status: u8,
    pub output: Vec<u8>,
    pub sent: Vec<u8>,
    pub disk: MemoryDisk,
    pub copy: MemoryDisk,
}

impl Ran {
    /// What was written, which is a text where the program is right.
    pub fn text(&self) -> Result<&str, Fail> {
        Ok(str::from_utf8(self.output.as_slice())?)
    }

    /// Whether the run ended with this status, and wrote this.
    pub fn came_to(&self, status: u8, output: &str) -> bool {
        self.status == status && self.output.as_slice() == output.as_bytes()
    }

    /// A run has to end with this status, and to write this.
    pub fn compare(&self, status: u8, output: &str) -> Result<(), Fail> {
        if self.came_to(status, output) {
            return Ok(());
        }
        Err(Fail::new(format_args!("status {} for {status}, or other lines", self.status)))
    }
}

/// Plays a script in which nothing fails, on a disk that holds these bytes.
pub fn run_plain(alloc: Global, script: &str, held: &[u8]) -> Result<Ran, AllocError> {
    run(alloc, &Setting::PLAIN, RUN, script.as_bytes(), held)
}

/// The same for a script that is of no use afterwards.
pub fn run_made(alloc: Global, script: String) -> Result<Ran, AllocError> {
    run_plain(alloc, script.as_str(), &[])
}

/// Plays a script, on a disk that holds these bytes.
pub fn run(
    alloc: Global,
    setting: &Setting<'_>,
    words: &str,
    script: &[u8],
    held: &[u8],
) -> Result<Ran, AllocError> {
    let fails = setting.read_fails.to_vec(alloc)?;
    let mut source = MemorySource::new(script.to_vec(alloc)?, setting.piece.max(1), fails);
    run_from(alloc, setting, words, &mut source, held)
}

/// The same for any source.
pub fn run_from<S: Source>(
    alloc: Global,
    setting: &Setting<'_>,
    words: &str,
    source: &mut S,
    held: &[u8],
) -> Result<Ran, AllocError> {
    let words = split(alloc, words)?;
    let mut ran = Ran {
        status: 0,
        output: Vec::new(alloc),
        sent: Vec::new(alloc),
        disk: disk_of(alloc, held, setting.disk_fails)?,
        copy: disk_of(alloc, setting.copy, &[])?,
    };
    play(alloc, setting, &words, source, &mut ran)?;
    had_memory(ran.disk.starved())?;
    had_memory(ran.copy.starved())?;
    Ok(ran)
}

// A form in memory that wanted some has failed a call that wasn't to fail, and the run shows
// nothing.
fn had_memory(starved: u64) -> Result<(), AllocError> {
    if starved == 0 {
        Ok(())
    } else {
        Err(AllocError)
    }
}

fn disk_of(alloc: Global, held: &[u8], fails: &[u64]) -> Result<MemoryDisk, AllocError> {
    Ok(MemoryDisk::new(alloc, held.to_vec(alloc)?, fails.to_vec(alloc)?))
}

// Plays on the disk of the run, and keeps what was written.
fn play<S: Source>(
    alloc: Global,
    setting: &Setting<'_>,
    words: &Words,
    source: &mut S,
    ran: &mut Ran,
) -> Result<(), AllocError> {
    let mut sink = MemorySink::new(alloc, setting.write_fails.to_vec(alloc)?);
    play_wired(alloc, setting, words, source, &mut sink, ran)?;
    had_memory(sink.starved())?;
    ran.output.extend_from_slice(sink.bytes())
}

// Plays over wires too, and keeps what they were sent.
fn play_wired<S: Source>(
    alloc: Global,
    setting: &Setting<'_>,
    words: &Words,
    source: &mut S,
    sink: &mut MemorySink,
    ran: &mut Ran,
) -> Result<(), AllocError> {
    let mut door = MemoryDoor::new(alloc, wires_of(alloc, setting.peers)?, Vec::new(alloc));
    let mut dial = MemoryDial::new(alloc, masters_of(alloc, setting.masters)?, Vec::new(alloc));
    let disk = &mut ran.disk;
    let copy = &mut ran.copy;
    ran.status = status_of(alloc, words, source, sink, disk, &mut door, &mut dial, copy);
    had_memory(door.starved())?;
    had_memory(dial.starved())?;
    add_sent(door.closed_wires(), &mut ran.sent)?;
    add_sent(dial.closed_wires(), &mut ran.sent)
}

fn add_sent(wires: &[MemoryWire], sent: &mut Vec<u8>) -> Result<(), AllocError> {
    for wire in wires {
        had_memory(wire.starved())?;
        sent.extend_from_slice(wire.sent())?;
    }
    Ok(())
}

// The wires of peers that send this, in turn. None was used.
fn wires_of(alloc: Global, peers: &str) -> Result<Vec<MemoryWire>, AllocError>
    ensures { IfOk result (λ wires. Unused wires.items) }
{
    let mut wires = Vec::new(alloc);
    for peer in peers.split(PEER).skip(1) {
        let bytes = peer.as_bytes().to_vec(alloc)?;
        wires.push(MemoryWire::new(alloc, bytes, 4096, Vec::new(alloc)))?;
    }
    Ok(wires)
}

/// The wires to masters that send this, in turn. None was used.
pub fn masters_of(alloc: Global, masters: &str) -> Result<Vec<MemoryWire>, AllocError>
    ensures { IfOk result (λ wires. Unused wires.items) }
{
    let mut wires = Vec::new(alloc);
    for master in masters.split(MASTER).skip(1) {
        let (calls, text) = master.split_once('\n').unwrap_or((master, ""));
        let bytes = bytes_of(alloc, text)?;
        wires.push(MemoryWire::new(alloc, bytes, 4096, numbers_of(alloc, calls)?))?;
    }
    Ok(wires)
}

fn numbers_of(alloc: Global, text: &str) -> Result<Vec<u64>, AllocError> {
    let mut numbers = Vec::new(alloc);
    for word in text.split_whitespace() {
        // No call has the number 0.
        numbers.push(word.parse().unwrap_or(0))?;
    }
    Ok(numbers)
}

fn bytes_of(alloc: Global, text: &str) -> Result<Vec<u8>, AllocError> {
    let mut bytes = Vec::new(alloc);
    for character in text.chars() {
        bytes.push(u8::try_from(character).unwrap_or(b'?'))?;
    }
    Ok(bytes)
}

// A call of its own, since what the program ensures would burden the proof of its caller.
fn status_of<S: Source>(
    alloc: Global,
    words: &Words,
    source: &mut S,
    sink: &mut MemorySink,
    disk: &mut MemoryDisk,
    door: &mut MemoryDoor,
    dial: &mut MemoryDial,
    copy: &mut MemoryDisk,
) -> u8 {
    let mut clock = MemoryClock::new(Vec::new(alloc));
    program(
        alloc, words, source, sink, disk, door, dial, &mut clock, copy,
    )
}

/// The words that stand in a text, between spaces. Apostrophes around one are no part of it.
pub fn split(alloc: Global, text: &str) -> Result<Words, AllocError> {
    let mut words = Vec::new(alloc);
    for word in text.split_whitespace() {
        words.push(RxText::new(alloc, word.trim_matches('\''))?)?;
    }
    Ok(Words { words })
}
