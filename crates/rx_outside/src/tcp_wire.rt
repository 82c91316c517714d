ghost use Rattle.std.specs.Prelude.{◌≡◌, ◌<◌, ◌≤◌, [], length, IfOk, IsOk, OnErr};
ghost use Rattle.rx_outside.specs.Failed.{Rises};
ghost use Rattle.rx_outside.specs.Waiting.{moved, time_left, waited};

use crate::failed::Failed;
use crate::memory_source::copy_front;
use crate::standard::TRIES;
use crate::waiting::Waiting;
use crate::wire::Wire;
use std::io::{ErrorKind, Read, Write};
use std::net::OpenStream;
use std::time::{Duration, Instant};
use std::{io, rt};

// The most bytes that are read ahead, so that a call that receives few is cheap.
const AHEAD_BYTES: usize = 16_384;

/// A connection of the system. What was sent is out. A call fails where the message in play has no
/// time left, and waits for the peer no longer than that.
#[derive(Drop)]
pub struct TcpWire<S: Read + Write + OpenStream + Drop, R: rt::Clock + Drop> {
    rt: R,
    stream: S,
    /// The message that comes, and the seconds that a read waits by now.
    coming: Waiting,
    read_seconds: u64,
    /// The message that goes, and the seconds that a write waits.
    going: Waiting,
    write_seconds: u64,
    ahead: [u8; AHEAD_BYTES],
    at: usize,
    end: usize,
    faults: u64,
    ghost reached: { at ≤ end },
    ghost within: { end ≤ 16384 },
}

// A wire over a stream that was just made.
pub(crate) fn wire_over<S: Read + Write + OpenStream + Drop, R: rt::Clock + Drop>(
    rt: R,
    stream: S,
) -> TcpWire<S, R>
    ensures unused { result.faults ≡ 0 }
    ensures none_came { (waited result.coming ≡ 0) × (moved result.coming ≡ 0) }
    ensures none_went { (waited result.going ≡ 0) × (moved result.going ≡ 0) }
{
    // Without it a short message may be sent later, and is sent all the same.
    let _ = stream.set_nodelay(true);
    TcpWire {
        rt,
        stream,
        coming: Waiting::new(),
        read_seconds: 0,
        going: Waiting::new(),
        write_seconds: 0,
        ahead: [0; AHEAD_BYTES],
        at: 0,
        end: 0,
        faults: 0,
    }
}

impl<S: Read + Write + OpenStream + Drop, R: rt::Clock + Drop> TcpWire<S, R> {
    /// How many calls failed.
    pub fn failed(&self) -> u64
        ensures { result ≡ ⟦<TcpWire<S, R> as Wire>⟧.faults self.now }
    {
        self.faults
    }

    // Reads ahead what has come. Nothing comes at the end.
    fn read_ahead(&mut self) -> Result<(), Failed>
        ensures count { self.old.faults ≤ self.new.faults }
        ensures failed { OnErr result (Rises self.old.faults self.new.faults) }
    {
        'tries: for _ in 0..TRIES {
            match self.try_read() {
                Ok(count) => {
                    self.at = 0;
                    self.end = count;
                    return Ok(());
                }
                Err(e) if e.kind() == ErrorKind::Interrupted => {}
                Err(_) => break,
            }
        }
        self.faults = self.faults.saturating_add(1);
        Err(Failed)
    }

    // One read, where the message that comes has time left.
    fn try_read(&mut self) -> io::Result<usize>
        ensures within { IfOk result (λ n. n ≤ 16384) }
        ensures in_time { IsOk result → 0 < time_left self.old.coming }
        ensures same_going { self.new.going ≡ self.old.going }
        ensures same_faults { self.new.faults ≡ self.old.faults }
    {
        let seconds = self.coming.limit().ok_or(ErrorKind::TimedOut)?;
        if seconds != self.read_seconds {
            let limit = Some(Duration::from_secs(seconds));
            self.stream.set_read_timeout(limit)?;
            self.read_seconds = seconds;
        }
        let begun = Instant::now(&self.rt)?;
        let read = self.stream.read(&mut self.ahead);
        let spent = begun.elapsed(&self.rt)?;
        match read {
            Ok(count) => {
                self.coming.pass(spent, &self.ahead[..count]);
                Ok(count)
            }
            Err(e) => {
                self.coming.pass(spent, &[]);
                Err(e)
            }
        }
    }

    // One write, where the message that goes has time left.
    fn try_write(&mut self, piece: &[u8]) -> io::Result<usize>
        ensures within { IfOk result (λ n. n ≤ length piece.now) }
        ensures in_time { IsOk result → 0 < time_left self.old.going }
        ensures same_coming { self.new.coming ≡ self.old.coming }
        ensures same_faults { self.new.faults ≡ self.old.faults }
    {
        let seconds = self.going.limit().ok_or(ErrorKind::TimedOut)?;
        if seconds != self.write_seconds {
            let limit = Some(Duration::from_secs(seconds));
            self.stream.set_write_timeout(limit)?;
            self.write_seconds = seconds;
        }
        let begun = Instant::now(&self.rt)?;
        let written = self.stream.write(piece);
        let spent = begun.elapsed(&self.rt)?;
        match written {
            Ok(count) => {
                self.going.pass(spent, &piece[..count]);
                Ok(count)
            }
            Err(e) => {
                self.going.pass(spent, &[]);
                Err(e)
            }
        }
    }
}

impl<S: Read + Write + OpenStream + Drop, R: rt::Clock + Drop> Wire for TcpWire<S, R> {
    ghost tells = { ⊥ };

    ghost given = { λ _. [] };

    ghost left = { λ _. [] };

    ghost sent = { λ _. [] };

    ghost faults = { λ wire. wire.faults };

    fn send(&mut self, piece: &[u8]) -> Result<usize, Failed> {
        'tries: for _ in 0..TRIES {
            match self.try_write(piece) {
                Ok(count) if count > 0 || piece.is_empty() => return Ok(count),
                Err(e) if e.kind() == ErrorKind::Interrupted => {}
                _ => break,
            }
        }
        self.faults = self.faults.saturating_add(1);
        Err(Failed)
    }

    fn receive(&mut self, into: &mut [u8]) -> Result<usize, Failed> {
        if self.at == self.end && !into.is_empty() {
            self.read_ahead()?;
        }
        let count = copy_front(&self.ahead[self.at..self.end], into, AHEAD_BYTES);
        self.at += count;
        Ok(count)
    }
}
