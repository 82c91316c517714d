ghost use Rattle.std.specs.Prelude.{◌≡◌, []};

use crate::failed::Failed;
use crate::sink::Sink;
use crate::source::Source;
use std::io::{ErrorKind, Read};

// How often a call that a signal interrupted is tried.
pub(crate) const TRIES: usize = 64;

/// Standard input.
#[derive(Drop)]
pub struct StdSource<R: Read> {
    reader: R,
    faults: u64,
}

impl<R: Read> StdSource<R> {
    ghost use Rattle.rx_outside.specs.Standard.{std_source_faults};

    /// Reads from the runtime's standard input, a piece at a time as it comes.
    pub fn new(rt: &impl Input<Reader = R>) -> StdSource<R>
        ensures { std_source_faults result ≡ 0 }
    {
        StdSource {
            reader: rt.reader(),
            faults: 0,
        }
    }
}

impl<R: Read> Source for StdSource<R> {
    ghost use Rattle.rx_outside.specs.Standard.{std_source_faults};

    ghost tells = { ⊥ };

    ghost left = { λ _. [] };

    ghost faults = { std_source_faults };

    fn read(&mut self, into: &mut [u8]) -> Result<usize, Failed> {
        'tries: for _ in 0..TRIES {
            match self.reader.read(into) {
                Ok(count) => return Ok(count),
                Err(e) if e.kind() == ErrorKind::Interrupted => {}
                Err(_) => break,
            }
        }
        self.faults = self.faults.saturating_add(1);
        Err(Failed)
    }
}

/// Standard output, with no buffer: what was written is out.
#[derive(Drop)]
pub struct StdSink<P: Print + Drop> {
    out: P,
    faults: u64,
}

impl<P: Print + Drop> StdSink<P> {
    ghost use Rattle.rx_outside.specs.Standard.{std_sink_faults};

    /// Writes to the runtime's standard output.
    pub fn new(rt: P) -> StdSink<P>
        ensures { std_sink_faults result ≡ 0 }
    {
        StdSink { out: rt, faults: 0 }
    }
}

impl<P: Print + Drop> Sink for StdSink<P> {
    ghost use Rattle.rx_outside.specs.Standard.{std_sink_faults};

    ghost tells = { ⊥ };

    ghost written = { λ _. [] };

    ghost faults = { std_sink_faults };

    fn write(&mut self, piece: &[u8]) -> Result<usize, Failed> {
        for _ in 0..TRIES {
            match self.out.write_some(piece) {
                Ok(count) if count > 0 || piece.is_empty() => return Ok(count),
                Err(e) if e.kind() == ErrorKind::Interrupted => {}
                _ => break,
            }
        }
        self.faults = self.faults.saturating_add(1);
        Err(Failed)
    }
}
