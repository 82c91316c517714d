ghost use Rattle.std.specs.Prelude.{◌≡◌, ◌≤◌, [], IsSome, IfOk, IfSome, IsOk};
ghost use Rattle.rx_outside.specs.Talk.{broken_after};

use crate::failed::Failed;
use crate::listen::Listen;
use crate::standard::TRIES;
use crate::tcp_wire::{TcpWire, wire_over};
use std::alloc::AllocError;
use std::io::ErrorKind;
use std::net::{Ipv4Addr, Net, OpenListener, TcpListener};
use std::rt;
use std::time::Duration;

/// How many milliseconds a call that found no connection waits before it answers. What was wanting,
/// as a file that may be opened, may be there by then.
pub const ACCEPT_PAUSE: u64 = 250;

/// A door of the system, on 127.0.0.1.
#[derive(Drop)]
pub struct TcpDoor<R: Net + rt::Clock + Copy + Drop> {
    rt: R,
    listener: Option<R::Listener>,
    faults: u64,
    broken: u64,
}

impl<R: Net + rt::Clock + Copy + Drop> TcpDoor<R> {
    /// A door that isn't open yet.
    pub fn new(rt: R) -> TcpDoor<R>
        ensures faults { ⟦<TcpDoor<R> as Listen>⟧.faults result ≡ 0 }
        ensures broken { ⟦<TcpDoor<R> as Listen>⟧.broken result ≡ 0 }
    {
        TcpDoor {
            rt,
            listener: None,
            faults: 0,
            broken: 0,
        }
    }
}

// The next connection. One that its peer ended before it was taken in, and a call that a signal
// interrupted, give way to the next.
fn next_stream<L: OpenListener>(listener: &L) -> Option<L::Stream> {
    for _ in 0..TRIES {
        match listener.accept() {
            Ok((stream, _)) => return Some(stream),
            Err(e) if e.kind() == ErrorKind::Interrupted => {}
            Err(e) if e.kind() == ErrorKind::ConnectionAborted => {}
            Err(_) => return None,
        }
    }
    None
}

impl<R: Net + rt::Clock + Copy + Drop> Listen for TcpDoor<R> {
    type W = TcpWire<R::Stream, R>;

    ghost faults = { λ door. door.faults };

    ghost broken = { λ door. door.broken };

    ghost talks = { λ _. [] };

    ghost opened = { λ _. [] };

    ghost accepted = { λ _. 0 };

    ghost is_open = { λ door. IsSome door.listener };

    fn open(&mut self, port: u16) -> Result<(), Failed> {
        match TcpListener::bind(&self.rt, (Ipv4Addr::LOCALHOST, port)) {
            Ok(listener) => {
                self.listener = Some(listener);
                Ok(())
            }
            Err(_) => {
                self.faults = self.faults.saturating_add(1);
                Err(Failed)
            }
        }
    }

    fn accept(&mut self) -> Result<TcpWire<R::Stream, R>, Failed> {
        if let Some(listener) = &self.listener
            && let Some(stream) = next_stream(listener)
        {
            return Ok(wire_over(self.rt, stream));
        }
        self.rt.sleep(Duration::from_millis(ACCEPT_PAUSE));
        self.faults = self.faults.saturating_add(1);
        Err(Failed)
    }

    fn close(&mut self, wire: TcpWire<R::Stream, R>) -> Result<(), AllocError> {
        if 0 < wire.failed() {
            self.broken = self.broken.saturating_add(1);
        }
        Ok(())
    }
}
