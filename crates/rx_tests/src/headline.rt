// The headline at its plainest: a script over an empty journal, with all that is outside in memory.
ghost use Rattle.std.specs.Prelude.{◌≡◌, ◌<◌, ◌∷◌, ℕ, List, [], Some, IfOk, codes};
ghost use Rattle.rx_disk.specs.Disk.{Only};
ghost use Rattle.rx_disk.specs.MemoryDisk.{IsLeft, content_of};
ghost use Rattle.rx_engine.specs.Opening.{host_of};
ghost use Rattle.rx_outside.specs.MemorySink.{sink_written};
ghost use Rattle.rx_outside.specs.MemorySource.{source_left};
ghost use Rattle.rx_sync.specs.Remote.{Heard};
ghost use Rattle.rx_tests.specs.Headline.{IsPlayed};
ghost use Rattle.rx_words.specs.Words.{command_of};
ghost use Rattle.rx_words.specs.declared.command.Command.TheVariants.{Run};

use rx_disk::MemoryDisk;
use rx_handler::Handlers;
use rx_outside::{MemoryClock, MemoryDial, MemoryDoor, MemorySink, MemorySource};
use rx_top::rx;
use rx_update::Hooks;
use rx_value::RxText;
use rx_words::Words;
use std::alloc::{AllocError, Global};

// How much of the script a read gives.
const PIECE: usize = 4096;

/// What a script came to: the status, what was written, and the bytes of the journal.
#[derive(Debug, Drop)]
pub struct Played {
    pub status: u8,
    pub output: Vec<u8>,
    pub journal: Vec<u8>,
}

/// Plays a script over an empty journal, with these handlers and hooks.
pub fn play_in_memory(
    alloc: Global,
    script: Vec<u8>,
    handlers: &Handlers,
    hooks: &Hooks,
) -> Result<Played, AllocError>
    // Where it was played to its end: what was written is its transcript, the journal has the
    // record of its epoch and those of its lines, and the status tells whether a line was refused.
    ensures { IfOk result (λ played. played.status < 2 → (heard : List Heard)
        × IsPlayed (host_of handlers.now hooks.now) script.items heard
        played.status played.output.items played.journal.items) }
{
    let words = run_words(alloc)?;
    let mut source = MemorySource::new(script, PIECE, Vec::new(alloc));
    let mut sink = MemorySink::new(alloc, Vec::new(alloc));
    let mut disk = MemoryDisk::new(alloc, Vec::new(alloc), Vec::new(alloc));
    let status = play(
        alloc,
        &words,
        &mut source,
        &mut sink,
        &mut disk,
        handlers,
        hooks,
    );
    Ok(Played {
        status,
        output: sink.bytes().to_vec(alloc)?,
        journal: disk.bytes().to_vec(alloc)?,
    })
}

// The same over forms that hold nothing yet. It says no more of `rx` than its caller needs.
fn play(
    alloc: Global,
    words: &Words,
    source: &mut MemorySource,
    sink: &mut MemorySink,
    disk: &mut MemoryDisk,
    handlers: &Handlers,
    hooks: &Hooks,
) -> u8
    requires fresh { sink_written sink.old ≡ [] }
    requires empty { content_of disk.old ≡ [] }
    requires only { Only [] (IsLeft disk.old) }
    requires runs { (path : List ℕ) × (limit : ℕ)
        × (command_of words.now.words.items ≡ Some (Run path limit)) }
    ensures played { result < 2 → (heard : List Heard)
        × IsPlayed (host_of handlers.now hooks.now) (source_left source.old) heard result
        (sink_written sink.new) (content_of disk.new) }
{
    // A run leaves the door, the clock and the file for a copy alone, and this dial gives no wire.
    let mut door = MemoryDoor::new(alloc, Vec::new(alloc), Vec::new(alloc));
    let mut dial = MemoryDial::new(alloc, Vec::new(alloc), Vec::new(alloc));
    let mut clock = MemoryClock::new(Vec::new(alloc));
    let mut copy = MemoryDisk::new(alloc, Vec::new(alloc), Vec::new(alloc));
    rx(
        alloc, words, source, sink, disk, &mut door, &mut dial, &mut clock, handlers, hooks,
        &mut copy,
    )
}

fn run_words(alloc: Global) -> Result<Words, AllocError>
    ensures { IfOk result (λ w. w.words.items ≡ codes "run" ∷ codes "journal" ∷ []) }
{
    let mut words = Vec::new(alloc);
    words.push(RxText::new(alloc, "run")?)?;
    words.push(RxText::new(alloc, "journal")?)?;
    Ok(Words { words })
}
