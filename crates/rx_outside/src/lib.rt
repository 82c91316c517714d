//! Sources, sinks, wires, doors, dials and clocks: as traits, in memory, and as the system has
//! them; and why work over a journal ends early.
#![tactic(auto)]

mod clock;
mod dial;
mod failed;
mod listen;
mod sending;
mod sink;
mod source;
mod standard;
mod stop;
mod system_clock;
mod tcp_dial;
mod tcp_door;
mod tcp_wire;
mod waiting;
mod wire;
mod writing;

pub use clock::Clock;
pub use dial::Dial;
pub use failed::Failed;
pub use listen::Listen;
pub use sending::send_all;
pub use sink::Sink;
pub use source::Source;
pub use standard::{StdSink, StdSource};
pub use stop::Stop;
pub use system_clock::SystemClock;
pub use tcp_dial::TcpDial;
pub use tcp_door::{ACCEPT_PAUSE, TcpDoor};
pub use tcp_wire::TcpWire;
pub use waiting::{BYTES_A_SECOND, WIRE_SECONDS, Waiting};
pub use wire::Wire;
pub use writing::write_all;

// For tests.
mod calls;
mod memory_clock;
mod memory_dial;
mod memory_door;
mod memory_sink;
mod memory_source;
mod memory_wire;
mod wires;

pub use calls::Calls;
pub use memory_clock::MemoryClock;
pub use memory_dial::MemoryDial;
pub use memory_door::MemoryDoor;
pub use memory_sink::MemorySink;
pub use memory_source::MemorySource;
pub use memory_wire::MemoryWire;
