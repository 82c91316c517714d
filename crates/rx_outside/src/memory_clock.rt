ghost use Rattle.std.specs.Prelude.{◌≡◌, ◌≤◌, []};
ghost use Rattle.rx_outside.specs.Clock.{GivesMoment};
ghost use Rattle.rx_outside.specs.Failed.{one_more};

use crate::clock::Clock;

/// For tests: a clock in memory.
#[derive(Debug, Drop)]
pub struct MemoryClock {
    moments: Vec<u64>,
    count: u64,
}

impl MemoryClock {
    ghost use Rattle.rx_outside.specs.MemoryClock.{clock_moments, clock_count, clock_given, moment_at};

    /// Gives these moments in turn and then the last of them, or 0.
    pub fn new(moments: Vec<u64>) -> MemoryClock
        ensures moments { clock_moments result ≡ moments.items }
        ensures count { clock_count result ≡ 0 }
        ensures given { clock_given result ≡ [] }
    {
        MemoryClock { moments, count: 0 }
    }

    // The moment that the next call gives.
    fn next(&self) -> u64
        ensures { result ≡ moment_at (clock_moments self.now) (clock_count self.now) }
    {
        let last = self.moments.len().saturating_sub(1);
        let index = (self.count as usize).min(last);
        self.moments.get(index).copied().unwrap_or(0)
    }
}

impl Clock for MemoryClock {
    ghost use Rattle.rx_outside.specs.MemoryClock.{clock_moments, clock_count, clock_given, moment_at};

    ghost tells = { Unit };

    ghost given = { clock_given };

    ghost faults = { λ _. 0 };

    fn now(&mut self) -> u64
        ensures gives { Unit → GivesMoment (clock_given self.old) (clock_given self.new) result }
        ensures count { 0 ≤ 0 }

        // Which moment it is.
        ensures moment { result ≡ moment_at (clock_moments self.old) (clock_count self.old) }
        ensures counts { clock_count self.new ≡ one_more (clock_count self.old) }
        ensures same_moments { clock_moments self.new ≡ clock_moments self.old }
    {
        let moment = self.next();
        self.count = self.count.saturating_add(1);
        moment
    }
}
