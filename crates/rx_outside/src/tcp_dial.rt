ghost use Rattle.std.specs.Prelude.{◌≡◌, [], IfOk};

use crate::dial::Dial;
use crate::failed::Failed;
use crate::tcp_wire::{TcpWire, wire_over};
use crate::waiting::WIRE_SECONDS;
use std::alloc::AllocError;
use std::net::{IpAddr, Ipv4Addr, Net, SocketAddr, TcpStream};
use std::time::Duration;
use std::{io, rt};

/// Dials doors of the system, on 127.0.0.1.
#[derive(Drop)]
pub struct TcpDial<R: Net + rt::Clock + Copy + Drop> {
    rt: R,
    faults: u64,
    broken: u64,
}

impl<R: Net + rt::Clock + Copy + Drop> TcpDial<R> {
    /// No wire is made yet.
    pub fn new(rt: R) -> TcpDial<R>
        ensures faults { ⟦<TcpDial<R> as Dial>⟧.faults result ≡ 0 }
        ensures broken { ⟦<TcpDial<R> as Dial>⟧.broken result ≡ 0 }
    {
        TcpDial {
            rt,
            faults: 0,
            broken: 0,
        }
    }
}

fn connect<R: Net + rt::Clock + Copy + Drop>(rt: R, port: u16) -> io::Result<TcpWire<R::Stream, R>>
    ensures { IfOk result (λ wire. wire.faults ≡ 0) }
{
    let address = SocketAddr::new(IpAddr::V4(Ipv4Addr::LOCALHOST), port);
    let limit = Duration::from_secs(WIRE_SECONDS);
    let stream = TcpStream::connect_timeout(&rt, &address, limit)?;
    Ok(wire_over(rt, stream))
}

impl<R: Net + rt::Clock + Copy + Drop> Dial for TcpDial<R> {
    type W = TcpWire<R::Stream, R>;

    ghost faults = { λ dial. dial.faults };

    ghost broken = { λ dial. dial.broken };

    ghost talks = { λ _. [] };

    ghost asked = { λ _. [] };

    fn dial(&mut self, port: u16) -> Result<TcpWire<R::Stream, R>, Failed> {
        match connect(self.rt, port) {
            Ok(wire) => Ok(wire),
            Err(_) => {
                self.faults = self.faults.saturating_add(1);
                Err(Failed)
            }
        }
    }

    fn close(&mut self, wire: TcpWire<R::Stream, R>) -> Result<(), AllocError> {
        if 0 < wire.failed() {
            self.broken = self.broken.saturating_add(1);
        }
        Ok(())
    }
}
