ghost use Rattle.std.specs.Prelude.{◌≡◌, []};

use crate::clock::Clock;
use std::rt;
use std::time::{SystemTime, UNIX_EPOCH};

/// The system's clock. It gives 0 where the system tells no time since 1970.
#[derive(Drop)]
pub struct SystemClock<R: rt::Clock + Drop> {
    rt: R,
    faults: u64,
}

impl<R: rt::Clock + Drop> SystemClock<R> {
    /// Asks the runtime.
    pub fn new(rt: R) -> SystemClock<R>
        ensures { ⟦<SystemClock<R> as Clock>⟧.faults result ≡ 0 }
    {
        SystemClock { rt, faults: 0 }
    }
}

// The milliseconds since 1970, where they are told and fit.
fn milliseconds(rt: &impl rt::Clock) -> Option<u64> {
    let since = SystemTime::now(rt).ok()?.duration_since(UNIX_EPOCH).ok()?;
    u64::try_from(since.as_millis()).ok()
}

impl<R: rt::Clock + Drop> Clock for SystemClock<R> {
    ghost tells = { ⊥ };

    ghost given = { λ _. [] };

    ghost faults = { λ clock. clock.faults };

    fn now(&mut self) -> u64 {
        match milliseconds(&self.rt) {
            Some(moment) => moment,
            None => {
                self.faults = self.faults.saturating_add(1);
                0
            }
        }
    }
}
