ghost use Rattle.std.specs.Prelude.{◌≤◌, ℕ, List};
ghost use Rattle.rx_outside.specs.Clock.{GivesMoment};

/// Tells the present moment.
pub trait Clock {
    /// Whether clocks of this type tell the moments that they gave.
    ghost tells: { Type 0 };

    /// The moments given so far.
    ghost given: { Self → List ℕ };

    /// How many calls found no moment.
    ghost faults: { Self → ℕ };

    /// The present moment in milliseconds since 1970. Any number may come, also one that is less
    /// than the last.
    fn now(&mut self) -> u64
        ensures gives { tells → GivesMoment (given self.old) (given self.new) result }
        ensures count { faults self.old ≤ faults self.new };
}
